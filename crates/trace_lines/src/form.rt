//! What stands after the processor of an operation, and after the index of a reply.

ghost use Rattle.std.specs.Prelude.{◌≡◌, ◌≤◌, ◌^◌, map};
ghost use Rattle.trace_lines.specs.Form.{spelled_form, form_with, one_operand, two_operands};
ghost use Rattle.trace_lines.specs.Form.{three_operands, limited_word, told_of, form_operation};
ghost use Rattle.trace_lines.specs.Form.{reply_read, goes_with, unwanted, unwanted_reply};

use crate::number::number_at;
use crate::reason::LineReason;
use lexer::value;
use packet::{Code, Op, Operation, Reply};

/// An operation as a line gives it, before its numbers are checked. Values that it doesn't take are
/// 0.
#[derive(Clone, Copy)]
pub struct Form {
    pub code: Code,
    pub address: u128,
    pub first: u128,
    pub second: u128,
}

/// What an operation and an address stand for.
fn one_operand(code: Code, a: &[u8]) -> Result<Form, LineReason>
    ensures { result ≡ one_operand code a.now }
{
    if code.arity() != 0 {
        return Err(LineReason::OperandCount);
    }
    let address = number_at(3, a)?;
    Ok(Form {
        code,
        address,
        first: 0,
        second: 0,
    })
}

/// What an operation, an address and a value stand for.
fn two_operands(code: Code, a: &[u8], v: &[u8]) -> Result<Form, LineReason>
    ensures { result ≡ two_operands code a.now v.now }
{
    if code.arity() != 1 {
        return Err(LineReason::OperandCount);
    }
    let address = number_at(3, a)?;
    let first = number_at(4, v)?;
    Ok(Form {
        code,
        address,
        first,
        second: 0,
    })
}

/// What an operation, an address and two values stand for.
fn three_operands(code: Code, a: &[u8], x: &[u8], y: &[u8]) -> Result<Form, LineReason>
    ensures { result ≡ three_operands code a.now x.now y.now }
{
    if code.arity() != 2 {
        return Err(LineReason::OperandCount);
    }
    let address = number_at(3, a)?;
    let first = number_at(4, x)?;
    let second = number_at(5, y)?;
    Ok(Form {
        code,
        address,
        first,
        second,
    })
}

/// What an operation and the words after it stand for.
fn form_with(operands: &[&[u8]], code: Code) -> Result<Form, LineReason>
    ensures { result ≡ form_with (map (λ word. word.now) operands.now) code }
{
    match operands {
        [a] => one_operand(code, a),
        [a, v] => two_operands(code, a, v),
        [a, x, y] => three_operands(code, a, x, y),
        [] => Err(LineReason::OperandCount),
        [_, _, _, _, ..] => Err(LineReason::OperandCount),
    }
}

/// What stands after the processor of an operation.
pub fn spelled_form(word: &[u8], operands: &[&[u8]]) -> Result<Form, LineReason>
    ensures { result ≡ spelled_form word.now (map (λ word. word.now) operands.now) }
{
    match Code::named(word) {
        Some(code) => form_with(operands, code),
        None => Err(LineReason::UnknownOperation),
    }
}

/// A number at a place of its line that is a word, below 2^64.
fn limited_word(place: u32, number: u128) -> Result<u64, LineReason>
    ensures { result ≡ limited_word place number }
{
    if number > u128::from(u64::MAX) {
        return Err(LineReason::ValueLimits(place));
    }
    Ok(number as u64)
}

impl Form {
    /// The operation, on a memory of so many words.
    ///
    /// Errors: an address that is not below the number of words, then a value of 2^64 or more.
    pub fn operation(self, words: u64) -> Result<Operation, LineReason>
        requires { words ≤ 2 ^ 32 }
        ensures { result ≡ form_operation words self }
    {
        if self.address >= u128::from(words) {
            return Err(LineReason::AddressLimits(3, words));
        }
        let address = self.address as u32;
        let first = limited_word(4, self.first)?;
        let second = limited_word(5, self.second)?;
        let op = Op::with(self.code, first, second);
        Ok(Operation { address, op })
    }
}

/// The number of a reply; none for `ok`.
pub fn told_of(word: &[u8]) -> Result<Option<u128>, LineReason>
    ensures { result ≡ told_of word.now }
{
    if word == b"ok".as_slice() {
        return Ok(None);
    }
    match value(word) {
        Some(number) => Ok(Some(number)),
        None => Err(LineReason::NotReply),
    }
}

/// The reply that a line gives.
pub fn reply_read(told: Option<u128>) -> Result<Reply, LineReason>
    ensures { result ≡ reply_read told }
{
    match told {
        None => Ok(Reply::Ok),
        Some(number) => Ok(Reply::Old(limited_word(3, number)?)),
    }
}

/// Whether a reply goes with an operation: `ok` with a store, and a number with every other one.
fn goes_with(code: Code, told: Option<u128>) -> bool
    ensures { result ≡ goes_with code told }
{
    match told {
        None => matches!(code, Code::Store),
        Some(_) => !matches!(code, Code::Store),
    }
}

/// Why a reply is refused that goes with another operation.
fn unwanted(told: Option<u128>) -> LineReason
    ensures { result ≡ unwanted told }
{
    match told {
        None => LineReason::OkUnwanted,
        Some(_) => LineReason::NumberUnwanted,
    }
}

/// Why a reply does not go with an operation of this code.
pub fn unwanted_reply(code: Code, told: Option<u128>) -> Option<LineReason>
    ensures { result ≡ unwanted_reply code told }
{
    if !goes_with(code, told) {
        return Some(unwanted(told));
    }
    None
}
