//! Of the values of one word: how many operations that haven't taken effect find each, and how many leave it.

ghost use Rattle.std.specs.Prelude.{◌<◌, ◌≤◌, length};

use crate::pairs::{call_at, found_by, left_by, number_at, reply_at};
use packet::Op;
use std::alloc::{AllocError, Allocator};
use trace_laws::Event;

/// How many unlike operations without an answer are looked at that leave a word which depends on what they find.
pub(crate) const WILD: usize = 4;

/// The values of a word, which rise. Of each: how many operations that haven't taken effect find it, how many of
/// these are open, how many find it and leave another, how many leave it, whether a cas without an answer leads on
/// from it, and the last event that answers one which finds it.
#[derive(Drop)]
pub(crate) struct Values<A: Allocator> {
    pub numbers: Vec<u64, A>,
    pub finds: Vec<u32, A>,
    pub waits: Vec<u32, A>,
    pub ends: Vec<u32, A>,
    pub leaves: Vec<u32, A>,
    pub leads: Vec<bool, A>,
    pub lasts: Vec<usize, A>,
    pub wild: Vec<Op, A>,
}

/// The count at a place, 0 where there is none.
pub(crate) fn count_at(counts: &[u32], place: Option<usize>) -> u32 {
    match place {
        Some(i) => counts.get(i).copied().unwrap_or(0),
        None => 0,
    }
}

/// One more at a place.
pub(crate) fn count_up(counts: &mut [u32], place: Option<usize>) {
    if let Some(i) = place
        && i < counts.len()
    {
        counts[i] = counts[i].saturating_add(1);
    }
}

/// One less at a place.
fn count_down(counts: &mut [u32], place: Option<usize>) {
    if let Some(i) = place
        && i < counts.len()
    {
        counts[i] = counts[i].saturating_sub(1);
    }
}

/// Whether the word that an operation leaves depends on the one that it finds.
fn is_wild(op: Op) -> bool {
    match op {
        Op::Load | Op::Store(_) | Op::Swap(_) | Op::Cas(..) => false,
        _ => true,
    }
}

/// The operation that an event issues, if it is never answered.
pub(crate) fn lost_at(events: &[Event], partners: &[Option<usize>], k: usize) -> Option<Op> {
    let call = call_at(events, k)?;
    if reply_at(events, partners, k).is_some() {
        return None;
    }
    Some(call.operation.op)
}

/// The unlike operations of a word that are never answered and leave a word which depends on what they find, up to
/// some.
fn wild_of<A: Allocator>(
    alloc: A,
    events: &[Event],
    partners: &[Option<usize>],
    mine: &[usize],
) -> Result<Vec<Op, A>, AllocError> {
    let mut wild = Vec::new(alloc);
    for k in mine {
        if let Some(op) = lost_at(events, partners, *k)
            && is_wild(op)
            && wild.len() < WILD
            && !wild.contains(&op)
        {
            wild.push(op)?;
        }
    }
    Ok(wild)
}

/// The values that operations of a word find or leave, which rise.
fn known_values<A: Allocator>(
    alloc: A,
    events: &[Event],
    partners: &[Option<usize>],
    mine: &[usize],
) -> Result<Vec<u64, A>, AllocError> {
    let mut numbers = Vec::new(alloc);
    for k in mine {
        if let Some(call) = call_at(events, *k) {
            let reply = reply_at(events, partners, *k);
            if let Some(found) = found_by(reply) {
                numbers.push(found)?;
            }
            if let Some(left) = left_by(call.operation.op, reply) {
                numbers.push(left)?;
            }
        }
    }
    numbers.sort()?;
    Ok(numbers)
}

/// Values that rise, each once.
fn without_doubles<A: Allocator>(alloc: A, sorted: &[u64]) -> Result<Vec<u64, A>, AllocError> {
    let mut numbers = Vec::new(alloc);
    for i in 0..sorted.len() {
        if i == 0 || sorted[i - 1] != sorted[i] {
            numbers.push(sorted[i])?;
        }
    }
    Ok(numbers)
}

/// The values of a word, with nothing counted.
fn empty_values<A: Allocator + Copy>(
    alloc: A,
    events: &[Event],
    partners: &[Option<usize>],
    mine: &[usize],
) -> Result<Values<A>, AllocError> {
    let all = known_values(alloc, events, partners, mine)?;
    let numbers = without_doubles(alloc, &all)?;
    let count = numbers.len();
    Ok(Values {
        numbers,
        finds: vec![in alloc; 0u32; count]?,
        waits: vec![in alloc; 0u32; count]?,
        ends: vec![in alloc; 0u32; count]?,
        leaves: vec![in alloc; 0u32; count]?,
        leads: vec![in alloc; false; count]?,
        lasts: vec![in alloc; 0usize; count]?,
        wild: wild_of(alloc, events, partners, mine)?,
    })
}

/// The values of a word before its first event.
pub(crate) fn values_of<A: Allocator + Copy>(
    alloc: A,
    events: &[Event],
    partners: &[Option<usize>],
    mine: &[usize],
) -> Result<Values<A>, AllocError> {
    let mut values = empty_values(alloc, events, partners, mine)?;
    for k in mine {
        if let Some(call) = call_at(events, *k) {
            let reply = reply_at(events, partners, *k);
            let found = values.place_of(found_by(reply));
            let left = values.place_of(left_by(call.operation.op, reply));
            values.put_back(found, left);
            values.note_need(found, number_at(partners, *k).unwrap_or(0));
        }
    }
    Ok(values)
}

impl<A: Allocator> Values<A> {
    /// The place of a value.
    pub(crate) fn place_of(&self, value: Option<u64>) -> Option<usize> {
        let number = value?;
        self.numbers.binary_search(&number).ok()
    }

    /// An operation that finds and leaves the values at these places takes effect.
    pub(crate) fn take(&mut self, found: Option<usize>, left: Option<usize>) {
        count_down(&mut self.finds, found);
        count_down(&mut self.leaves, left);
        if left.is_some() {
            count_down(&mut self.ends, found);
        }
    }

    /// It no longer has taken effect.
    pub(crate) fn put_back(&mut self, found: Option<usize>, left: Option<usize>) {
        count_up(&mut self.finds, found);
        count_up(&mut self.leaves, left);
        if left.is_some() {
            count_up(&mut self.ends, found);
        }
    }

    /// An operation that finds the value at a place is open and hasn't taken effect.
    pub(crate) fn begin(&mut self, found: Option<usize>) {
        count_up(&mut self.waits, found);
    }

    /// It isn't, or has.
    pub(crate) fn end(&mut self, found: Option<usize>) {
        count_down(&mut self.waits, found);
    }

    /// The value at a place is found by an operation that this event answers.
    pub(crate) fn note_need(&mut self, place: Option<usize>, event: usize) {
        if let Some(i) = place
            && i < self.lasts.len()
        {
            self.lasts[i] = self.lasts[i].max(event);
        }
    }
}
