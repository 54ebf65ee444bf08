//! Guesses which sums that are never answered have taken effect, where all operations that change a word add the
//! same number: nothing rests on it.

ghost use Rattle.std.specs.Prelude.{◌<◌, length};

use crate::reading::{issue_of, promise_of};
use packet::{Op, Reply};
use std::alloc::{AllocError, Allocator};
use trace_laws::{Call, Event};

/// The sums of one number at one address, and the word there at first.
#[derive(Clone, Copy)]
pub struct Sums {
    pub address: u32,
    pub number: u64,
    pub first: u64,
}

/// Whether an operation is one of these sums.
fn is_one(sums: Sums, call: Call) -> bool {
    call.operation.address == sums.address && call.operation.op == Op::Add(sums.number)
}

/// The word that event i gives of this address, and the operation that it answers.
fn told_at(events: &[Event], i: usize, sums: Sums) -> Option<(u64, Call)>
    requires { i < length events.now }
{
    let Event::Answer(id, Reply::Old(told)) = events[i] else {
        return None;
    };
    let call = issue_of(events, i, id)?;
    if call.operation.address != sums.address {
        return None;
    }
    Some((told, call))
}

/// How many sums lead to a word.
fn steps_to(sums: Sums, word: u64) -> u64 {
    if sums.number == 0 {
        return 0;
    }
    word.wrapping_sub(sums.first) / sums.number
}

/// Marks how many sums each answered one found before it.
fn mark_found(found: &mut [bool], events: &[Event], sums: Sums) {
    for i in 0..events.len() {
        if let Some((told, call)) = told_at(events, i, sums)
            && is_one(sums, call)
        {
            let steps = steps_to(sums, told) as usize;
            if steps < found.len() {
                found[steps] = true;
            }
        }
    }
}

/// The first number from this one on that is not marked.
fn next_missing(found: &[bool], from: usize) -> usize {
    for steps in from..found.len() {
        if !found[steps] {
            return steps;
        }
    }
    found.len()
}

/// The first event behind event k that gives a word behind more sums.
fn told_above(events: &[Event], k: usize, sums: Sums, steps: usize) -> Option<usize> {
    for i in k..events.len() {
        if let Some((told, _)) = told_at(events, i, sums)
            && steps_to(sums, told) > steps as u64
        {
            return Some(i);
        }
    }
    None
}

/// Whether event k issues one of these sums that is never answered, and its number.
fn unanswered_at(events: &[Event], k: usize, sums: Sums) -> Option<u64>
    requires { k < length events.now }
{
    let Event::Issue(call) = events[k] else {
        return None;
    };
    if !is_one(sums, call) || promise_of(events, k + 1, call.id).is_some() {
        return None;
    }
    Some(call.id)
}

/// A sum that is never answered: the event of its issue, its number, the event that shows its effect, and the
/// reply that it would have; or no event, where none shows it.
#[derive(Clone, Copy)]
pub struct Shown {
    pub issue: usize,
    pub id: u64,
    pub event: Option<usize>,
    pub reply: Reply,
}

/// What shows each of these sums that are never answered, in the order of their issues: one after the other has
/// found the words that no answered one did.
pub fn shown_sums<A: Allocator + Copy>(
    alloc: A,
    events: &[Event],
    sums: Sums,
) -> Result<Vec<Shown, A>, AllocError> {
    let mut found = vec![in alloc; false; events.len()]?;
    mark_found(&mut found, events, sums);
    let mut shown = Vec::new(alloc);
    let mut steps = 0;
    for issue in 0..events.len() {
        if let Some(id) = unanswered_at(events, issue, sums) {
            steps = next_missing(&found, steps);
            let word = (steps as u64)
                .wrapping_mul(sums.number)
                .wrapping_add(sums.first);
            shown.push(Shown {
                issue,
                id,
                event: told_above(events, issue, sums, steps),
                reply: Reply::Old(word),
            })?;
            steps = steps.saturating_add(1);
        }
    }
    Ok(shown)
}
