ghost use Rattle.std.specs.Prelude.{◌≡◌, ◌<◌, ◌∷◌, [], map, IfOk};
ghost use Rattle.script.specs.Form.{form_of, operation_form, fence_form, spin_form, operand_at, word_at};
ghost use Rattle.script.specs.Form.{cas_form, update_form, load_form, checked_at, line_with, line_of_form};
ghost use Rattle.script_lines.specs.Lines.{IsAcceptedLine, IsWord};
ghost use Rattle.script.specs.Scripts.{line_for, line_or_why};

use crate::number::{number_at, value_at};
use crate::reason::TextReason;
use crate::{Line, Value};
use lexer::{Reason, value};
use packet::Code;
use torus::Fault;

/// A value as a line gives it, before it is checked to be a word.
#[derive(Clone, Copy)]
pub(crate) enum Operand {
    Number(u128),
    Last,
}

/// What stands after the processor, before its numbers are checked.
#[derive(Clone, Copy)]
pub(crate) enum Form {
    Fence,
    /// An operation of this name, its address, and as many of the values as it takes.
    Operation(Code, u32, Operand, Operand),
    Spin(u32, u128, u32),
}

/// The value at a place of its line: a number or `last`.
fn operand_at(place: u32, word: &[u8]) -> Result<Operand, TextReason>
    ensures { result ≡ operand_at place word.now }
{
    if word == b"last".as_slice() {
        return Ok(Operand::Last);
    }
    match value(word) {
        Some(number) => Ok(Operand::Number(number)),
        None => Err(TextReason::NotValue(place)),
    }
}

/// An operation of an address alone.
fn load_form(code: Code, a: &[u8]) -> Result<Form, TextReason>
    ensures { result ≡ load_form code a.now }
{
    let a = number_at(2, a)?;
    Ok(Form::Operation(code, a, Operand::Number(0), Operand::Number(0)))
}

/// An operation of an address and a value.
fn update_form(code: Code, a: &[u8], v: &[u8]) -> Result<Form, TextReason>
    ensures { result ≡ update_form code a.now v.now }
{
    let a = number_at(2, a)?;
    let v = operand_at(3, v)?;
    Ok(Form::Operation(code, a, v, Operand::Number(0)))
}

/// An operation of an address and two values.
fn cas_form(code: Code, a: &[u8], e: &[u8], n: &[u8]) -> Result<Form, TextReason>
    ensures { result ≡ cas_form code a.now e.now n.now }
{
    match (number_at(2, a), operand_at(3, e), operand_at(4, n)) {
        (Ok(a), Ok(e), Ok(n)) => Ok(Form::Operation(code, a, e, n)),
        (Err(reason), _, _) => Err(reason),
        (Ok(_), Err(reason), _) => Err(reason),
        (Ok(_), Ok(_), Err(reason)) => Err(reason),
    }
}

/// What an operation and the words behind it stand for.
fn operation_form(code: Code, rest: &[&[u8]]) -> Result<Form, TextReason>
    ensures { result ≡ operation_form (map (λ word. word.now) rest.now) code }
{
    match rest {
        [a] if code.arity() == 0 => load_form(code, a),
        [a, v] if code.arity() == 1 => update_form(code, a, v),
        [a, e, n] if code.arity() == 2 => cas_form(code, a, e, n),
        _ => Err(TextReason::OperandCount),
    }
}

/// What a fence and the words behind it stand for.
fn fence_form(rest: &[&[u8]]) -> Result<Form, TextReason>
    ensures { result ≡ fence_form (map (λ word. word.now) rest.now) }
{
    match rest {
        [] => Ok(Form::Fence),
        [_, ..] => Err(TextReason::OperandCount),
    }
}

/// What a spin and the words behind it stand for.
fn spin_form(rest: &[&[u8]]) -> Result<Form, TextReason>
    ensures { result ≡ spin_form (map (λ word. word.now) rest.now) }
{
    match rest {
        [a, v, m] => spin_of(a, v, m),
        _ => Err(TextReason::OperandCount),
    }
}

/// What the three words behind a spin stand for.
fn spin_of(a: &[u8], v: &[u8], m: &[u8]) -> Result<Form, TextReason>
    ensures { result ≡ spin_form (a.now ∷ v.now ∷ m.now ∷ []) }
{
    match (number_at(2, a), value_at(3, v), number_at(4, m)) {
        (Ok(a), Ok(v), Ok(m)) => Ok(Form::Spin(a, v, m)),
        (Err(reason), _, _) => Err(reason),
        (Ok(_), Err(reason), _) => Err(reason),
        (Ok(_), Ok(_), Err(reason)) => Err(reason),
    }
}

/// What stands after the processor.
fn form_of(words: &[&[u8]]) -> Result<Form, TextReason>
    ensures { result ≡ form_of (map (λ word. word.now) words.now) }
{
    match words {
        [] => Err(TextReason::ProcessorAlone),
        [keyword, rest @ ..] => keyword_form(keyword, rest),
    }
}

/// What a keyword and the words behind it stand for.
fn keyword_form(keyword: &[u8], rest: &[&[u8]]) -> Result<Form, TextReason>
    ensures { result ≡ form_of (keyword.now ∷ map (λ word. word.now) rest.now) }
{
    if keyword == b"fence".as_slice() {
        return fence_form(rest);
    }
    if keyword == b"spin".as_slice() {
        return spin_form(rest);
    }
    match Code::named(keyword) {
        Some(code) => operation_form(code, rest),
        None => Err(TextReason::UnknownOperation),
    }
}

/// The processor and the line that the words of a line of a script stand for, on a machine of so many
/// tiles and words of memory.
///
/// Errors: why the line is refused: first its shape, then the processor, the address, and the values
/// from left to right.
pub fn line_or_why(
    processor: &[u8],
    rest: &[&[u8]],
    tiles: u32,
    words: u32,
) -> Result<(u32, Line), TextReason>
    ensures value { result
        ≡ line_or_why tiles words processor.now (map (λ word. word.now) rest.now) }
    ensures accepted { IfOk result (λ found. (found.0 < tiles) × IsAcceptedLine words (found.1)) }
{
    let p = number_at(0, processor)?;
    let form = form_of(rest)?;
    if p >= tiles {
        return Err(TextReason::ProcessorLimits(tiles));
    }
    Ok((p, form.line(words)?))
}

/// The processor and the line that the words of a line of a script stand for, on a machine of so many
/// tiles and words of memory.
///
/// Errors: `Fault::Line` for another shape, `Fault::Processor` for a processor that isn't there,
/// `Fault::Address` for an address that isn't, then `Fault::Range`.
pub fn read_line(
    processor: &[u8],
    rest: &[&[u8]],
    tiles: u32,
    words: u32,
) -> Result<(u32, Line), Fault>
    ensures value { result
        ≡ line_for tiles words processor.now (map (λ word. word.now) rest.now) }
    ensures accepted { IfOk result (λ found. (found.0 < tiles) × IsAcceptedLine words (found.1)) }
{
    match line_or_why(processor, rest, tiles, words) {
        Ok(found) => Ok(found),
        Err(reason) => Err(reason.fault()),
    }
}

/// The number at a place of its line, if it is a word, below 2^64.
fn word_at(place: u32, number: u128) -> Result<u64, TextReason>
    ensures { result ≡ word_at place number }
{
    if number > u128::from(u64::MAX) {
        return Err(TextReason::ValueLimits(place));
    }
    Ok(number as u64)
}

/// The value at a place of its line, if its number is a word.
fn checked_at(place: u32, operand: Operand) -> Result<Value, TextReason>
    ensures value { result ≡ checked_at place operand }
    ensures word { IfOk result IsWord }
{
    match operand {
        Operand::Number(number) => Ok(Value::Number(word_at(place, number)?)),
        Operand::Last => Ok(Value::Last),
    }
}

/// The line of an operation of this name, with as many of these values as it takes.
fn line_with(code: Code, a: u32, v: Value, w: Value) -> Line
    ensures { result ≡ line_with code a v w }
{
    match code {
        Code::Load => Line::Load(a),
        Code::Store => Line::Store(a, v),
        Code::Swap => Line::Swap(a, v),
        Code::Cas => Line::Cas(a, v, w),
        Code::Add => Line::Add(a, v),
        Code::And => Line::And(a, v),
        Code::Or => Line::Or(a, v),
        Code::Xor => Line::Xor(a, v),
        Code::Max => Line::Max(a, v),
        Code::Min => Line::Min(a, v),
    }
}

impl Form {
    /// The line, its values checked to be words from left to right.
    ///
    /// Errors: an address that is not below the number of words, then a value, or the loads of a spin.
    fn line(self, words: u32) -> Result<Line, TextReason>
        ensures value { result ≡ line_of_form words self }
        ensures accepted { IfOk result (IsAcceptedLine words) }
    {
        match self {
            Form::Fence => Ok(Line::Fence),
            Form::Operation(code, a, v, w) => {
                if a >= words {
                    return Err(TextReason::AddressLimits(2, words));
                }
                let v = checked_at(3, v)?;
                let w = checked_at(4, w)?;
                Ok(line_with(code, a, v, w))
            }
            Form::Spin(a, v, m) => {
                if a >= words {
                    return Err(TextReason::AddressLimits(2, words));
                }
                let v = word_at(3, v)?;
                if !(1 <= m && m <= 4096) {
                    return Err(TextReason::SpinLimits);
                }
                Ok(Line::Spin(a, v, m))
            }
        }
    }
}
