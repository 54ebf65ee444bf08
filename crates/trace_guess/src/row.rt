//! The events of one word that are still to come, in a list that is linked both ways: those of an operation are taken out
//! where it takes effect, and put back where the search goes back.

ghost use Rattle.std.specs.Prelude.{◌<◌, ◌≤◌, length};

use crate::pairs::{call_at, number_at, reply_at};
use packet::{Op, Reply};
use std::alloc::{AllocError, Allocator};
use trace_laws::Event;

/// An operation: what it asks, its reply, and the place of its answer in the row, if it is answered.
#[derive(Clone, Copy)]
pub(crate) struct Asked {
    pub op: Op,
    pub reply: Option<Reply>,
    pub answer: Option<usize>,
}

/// An event of the word, by its number in the trace, and the operation that it issues, if it issues one.
#[derive(Clone, Copy)]
struct Stop {
    event: usize,
    asked: Option<Asked>,
}

/// The events of a word. The one at place i + 1 of the row is `stops[i]`; place 0 stands before the first.
#[derive(Drop)]
pub(crate) struct Row<A: Allocator> {
    stops: Vec<Stop, A>,
    nexts: Vec<usize, A>,
    befores: Vec<usize, A>,
}

/// Writes a place into a list of them, if it has this one.
fn set_place(list: &mut [usize], at: usize, place: usize) {
    if at < list.len() {
        list[at] = place;
    }
}

/// Whether an event is of use: a load that is never answered says nothing.
fn is_of_use(events: &[Event], partners: &[Option<usize>], k: usize) -> bool {
    match call_at(events, k) {
        Some(call) => number_at(partners, k).is_some() || call.operation.op != Op::Load,
        None => number_at(partners, k).is_some(),
    }
}

/// The numbers of the events of a word that are of use, which rise.
fn numbers_of<A: Allocator>(
    alloc: A,
    events: &[Event],
    partners: &[Option<usize>],
    mine: &[usize],
) -> Result<Vec<usize, A>, AllocError> {
    let mut numbers = Vec::new(alloc);
    for k in mine {
        if is_of_use(events, partners, *k) {
            numbers.push(*k)?;
        }
    }
    Ok(numbers)
}

/// An event of the word. The place of an answer is that of its number among these, and one more.
fn stop_of(events: &[Event], partners: &[Option<usize>], numbers: &[usize], event: usize) -> Stop {
    let Some(call) = call_at(events, event) else {
        return Stop { event, asked: None };
    };
    let answer = match number_at(partners, event) {
        Some(k) => numbers.binary_search(&k).ok(),
        None => None,
    };
    let asked = Some(Asked {
        op: call.operation.op,
        reply: reply_at(events, partners, event),
        answer: answer.map(|i| i.saturating_add(1)),
    });
    Stop { event, asked }
}

/// The row of a word, with all its events.
pub(crate) fn row_of<A: Allocator + Copy>(
    alloc: A,
    events: &[Event],
    partners: &[Option<usize>],
    mine: &[usize],
) -> Result<Row<A>, AllocError> {
    let numbers = numbers_of(alloc, events, partners, mine)?;
    let mut row = Row {
        stops: Vec::new(alloc),
        nexts: Vec::new(alloc),
        befores: Vec::new(alloc),
    };
    row.link()?;
    for event in &numbers {
        row.stops.push(stop_of(events, partners, &numbers, *event))?;
        row.link()?;
    }
    row.link()?;
    Ok(row)
}

impl<A: Allocator> Row<A> {
    /// One place more, linked to those beside it.
    fn link(&mut self) -> Result<(), AllocError> {
        let place = self.nexts.len();
        self.nexts.push(place.saturating_add(1))?;
        self.befores.push(place.saturating_sub(1))?;
        Ok(())
    }

    /// How many events there are.
    pub(crate) fn len(&self) -> usize {
        self.stops.len()
    }

    /// The place behind one.
    pub(crate) fn next_of(&self, place: usize) -> usize {
        self.nexts.get(place).copied().unwrap_or(usize::MAX)
    }

    /// The operation that is issued at a place, if one is.
    pub(crate) fn asked_at(&self, place: usize) -> Option<Asked> {
        if place == 0 {
            return None;
        }
        match self.stops.get(place - 1) {
            Some(stop) => stop.asked,
            None => None,
        }
    }

    /// The number of the event at a place.
    pub(crate) fn event_at(&self, place: usize) -> usize {
        if place == 0 {
            return usize::MAX;
        }
        match self.stops.get(place - 1) {
            Some(stop) => stop.event,
            None => usize::MAX,
        }
    }

    /// How many operations are answered.
    pub(crate) fn count_answered(&self) -> usize {
        let mut count = 0usize;
        for stop in &self.stops {
            if let Some(asked) = stop.asked
                && asked.answer.is_some()
            {
                count = count.saturating_add(1);
            }
        }
        count
    }

    /// Takes out a place, which keeps its links.
    fn take_out(&mut self, place: usize) {
        let next = self.next_of(place);
        let before = self.befores.get(place).copied().unwrap_or(usize::MAX);
        set_place(&mut self.nexts, before, next);
        set_place(&mut self.befores, next, before);
    }

    /// Puts back the place that was taken out last.
    fn put_back(&mut self, place: usize) {
        let next = self.next_of(place);
        let before = self.befores.get(place).copied().unwrap_or(usize::MAX);
        set_place(&mut self.nexts, before, place);
        set_place(&mut self.befores, next, place);
    }

    /// Takes out the events of an operation, that of its issue last.
    pub(crate) fn take_out_both(&mut self, place: usize, asked: Asked) {
        if let Some(answer) = asked.answer {
            self.take_out(answer);
        }
        self.take_out(place);
    }

    /// Puts back the events of the operation that was taken out last.
    pub(crate) fn put_back_both(&mut self, place: usize, asked: Asked) {
        self.put_back(place);
        if let Some(answer) = asked.answer {
            self.put_back(answer);
        }
    }
}
