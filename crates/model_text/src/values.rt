//! The words along each word's order of writes, and the replies that are due.

ghost use Rattle.std.specs.Prelude.{◌≡◌, ◌≢◌, ◌<◌, ◌≤◌, ◌+◌, Some, true, false, IfOk, IfSome, IfNone};
ghost use Rattle.std.specs.Prelude.{length, map, min};
ghost use Rattle.std.specs.List.{range_with_len};
ghost use Rattle.packet.specs.Memory.{reply_to};
ghost use Rattle.model_text.specs.declared.logged.Told.{Told};
ghost use Rattle.model_text.specs.Traces.{logged_at};
ghost use Rattle.model_text.specs.Values.{op_of_step, word_of_writes, word_met, reply_due};
ghost use Rattle.model_text.specs.Values.{writes_before, line_left, IsUndueReply, AreRepliesOr, writes_before_one};

use crate::finals::is_final;
use crate::logged::{Logged, Told};
use crate::trace::{LogTrace, logged_at};
use memory_models::{Kind, Operation};
use packet::{Op, Operation as Asked, Reply, apply};
use std::alloc::{AllocError, Allocator};

/// A reply that isn't the one that is due.
#[derive(Clone, Copy)]
pub struct WrongReply {
    /// The place of the operation in the trace.
    pub operation: usize,
    /// Whether it is a final word, and no operation.
    pub closing: bool,
    /// The reply of the log, and its line.
    pub told: Told,
    /// The word that the operation found.
    pub word: u64,
    /// The line of the operation that left this word; 0 where it is the opening word.
    pub line: u64,
}

/// What an operation does to its word; a fence leaves it.
pub fn op_of_step(operation: Option<Asked>) -> Op
    ensures { result ≡ op_of_step operation }
{
    match operation {
        None => Op::Load,
        Some(asked) => asked.op,
    }
}

/// The words that the first writes leave, for each number of them.
///
/// Errors: out of memory.
fn words_left<A: Allocator>(
    alloc: A,
    steps: &[Logged],
    writes: &[usize],
) -> Result<Vec<u64, A>, AllocError>
    ensures { IfOk result (λ words. words.items
        ≡ map (word_of_writes steps.now writes.now) (range_with_len 0 (length writes.now + 1))) }
{
    let mut words = Vec::new(alloc);
    let mut word = 0u64;
    words.push(word)?;
    for i in 0..writes.len() {
        let (next, _) = apply(op_of_step(logged_at(steps, writes[i]).operation), word);
        word = next;
        words.push(word)?;
    }
    Ok(words)
}

/// How many of some writes stand before what an operation finds.
fn writes_before(operation: Operation, most: usize) -> usize
    ensures { result ≡ min (writes_before_one operation) most }
{
    let place = operation.place.min(most);
    let read = match operation.kind {
        Kind::Load => 1usize,
        _ => 0,
    };
    if place < most { place + read } else { most }
}

/// The line of the last of the first writes; 0 where there is none.
fn line_left(steps: &[Logged], writes: &[usize], count: usize) -> u64
    requires { count ≤ length writes.now }
    ensures { result ≡ line_left steps.now writes.now count }
{
    if count == 0 {
        return 0;
    }
    logged_at(steps, writes[count - 1]).line
}

/// Whether two replies are the same.
fn is_same(a: Reply, b: Reply) -> bool
    ensures yes { result ≡ true → a ≡ b }
    ensures no { result ≡ false → a ≢ b }
{
    match a {
        Reply::Ok => matches!(b, Reply::Ok),
        Reply::Old(x) => match b {
            Reply::Ok => false,
            Reply::Old(y) => x == y,
        },
    }
}

/// The word that an operation finds, by the words that the first writes leave.
fn word_met<A: Allocator>(trace: &LogTrace<A>, words: &[u64], x: usize) -> u64
    requires x { x < length trace.now.operations.items }
    requires words { words.now ≡ map (word_of_writes trace.now.steps.items trace.now.writes.items)
        (range_with_len 0 (length trace.now.writes.items + 1)) }
    ensures { result ≡ word_met trace.now.steps.items trace.now.operations.items
        trace.now.writes.items x }
{
    let count = writes_before(trace.operations[x], trace.writes.len());
    words[count]
}

/// The line that left this word.
fn line_met<A: Allocator>(trace: &LogTrace<A>, x: usize) -> u64
    requires x { x < length trace.now.operations.items }
    ensures { result ≡ line_left trace.now.steps.items trace.now.writes.items
        (writes_before trace.now.operations.items x) }
{
    let count = writes_before(trace.operations[x], trace.writes.len());
    line_left(&trace.steps, &trace.writes, count)
}

/// The reply that is due to an operation that finds a word.
fn due_reply(step: Logged, word: u64) -> Reply
    ensures { result ≡ reply_to (op_of_step step.operation) word }
{
    let (_, due) = apply(op_of_step(step.operation), word);
    due
}

/// The reply of an operation that isn't the one that is due.
fn wrong_reply<A: Allocator>(trace: &LogTrace<A>, words: &[u64], x: usize) -> Option<WrongReply>
    requires x { x < length trace.now.operations.items }
    requires steps { x < length trace.now.steps.items }
    requires words { words.now ≡ map (word_of_writes trace.now.steps.items trace.now.writes.items)
        (range_with_len 0 (length trace.now.writes.items + 1)) }
    ensures none { IfNone result ((told : Told)
        → (logged_at trace.now.steps.items x).told ≡ Some told
        → told.reply ≡ reply_due trace.now.steps.items trace.now.operations.items
        trace.now.writes.items x) }
    ensures place { IfSome result (λ wrong. wrong.operation ≡ x) }
    ensures some { IfSome result
        (IsUndueReply trace.now.steps.items trace.now.operations.items trace.now.writes.items) }
{
    let step = logged_at(&trace.steps, x);
    match step.told {
        None => None,
        Some(told) => {
            let word = word_met(trace, words, x);
            if is_same(told.reply, due_reply(step, word)) {
                return None;
            }
            Some(WrongReply {
                operation: x,
                closing: is_final(step),
                told,
                word,
                line: line_met(trace, x),
            })
        }
    }
}

/// The first reply of a trace that isn't the one that is due, by processors and in program order: by what
/// its operation does to the word that it finds. A load finds what its source left, and a write what the
/// one before it in its word's order left. `None` where each reply is due.
///
/// Errors: out of memory.
pub fn replies_of<A: Allocator + Copy>(
    alloc: A,
    trace: &LogTrace<A>,
) -> Result<Option<WrongReply>, AllocError>
    requires { length trace.now.operations.items ≡ length trace.now.steps.items }
    ensures { IfOk result (AreRepliesOr trace.now.steps.items trace.now.operations.items
        trace.now.writes.items) }
{
    let words = words_left(alloc, &trace.steps, &trace.writes)?;
    for x in 0..trace.steps.len() {
        match wrong_reply(trace, &words, x) {
            None => {}
            Some(wrong) => return Ok(Some(wrong)),
        }
    }
    Ok(None)
}
