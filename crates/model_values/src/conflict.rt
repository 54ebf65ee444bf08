//! What follows where operations wait for one another around.

use crate::arcs::{NONE, at, count_down, count_up, is_set, put};
use crate::forced::Reason;
use crate::schedule::Schedule;
use crate::waits::Wait;
use std::alloc::{AllocError, Allocator};

/// How many operations are looked at for a path.
const LOOKS: usize = 500;

/// A write that was done before another one without a reason, which waits for what reads the first.
#[derive(Clone, Copy)]
pub(crate) struct Choice {
    pub first: usize,
    pub second: usize,
    pub place: usize,
}

/// What a circle rests on, but for arcs with reasons: choices, and the places in it of arcs that are guessed.
#[derive(Drop)]
pub(crate) struct Grounds<A: Allocator> {
    pub choices: Vec<Choice, A>,
    pub guesses: Vec<usize, A>,
}

impl<'a, A: Allocator + Copy> Schedule<'a, A> {
    /// Lets an operation wait for another one by the newest arc.
    fn await_newest(&mut self, from: usize, to: usize) {
        if !is_set(&self.done, from) {
            count_up(&mut self.pending, to);
        }
    }

    /// Adds an arc by a reason.
    fn add_by(
        &mut self,
        from: usize,
        to: usize,
        reason: Reason,
        begin: usize,
    ) -> Result<(), AllocError> {
        self.arcs.add_by(from, to, reason, begin)?;
        self.await_newest(from, to);
        Ok(())
    }

    /// Looks at the arcs to an operation for one from another, and notes where the others come from.
    fn look_behind(
        &mut self,
        alloc: A,
        source: usize,
        x: usize,
        open: &mut Vec<usize, A>,
    ) -> Result<bool, AllocError> {
        let time = at(&self.times, source);
        let mut place = at(&self.arcs.to, x);
        for _ in 0..self.arcs.list.len() {
            let Some(arc) = self.arcs.arc(place) else {
                return Ok(false);
            };
            if arc.step != NONE && arc.from == source {
                put(&mut self.links, source, place);
                return Ok(true);
            }
            let is_new = at(&self.links, arc.from) == NONE;
            let is_later = is_set(&self.done, arc.from) && at(&self.times, arc.from) > time;
            if arc.step != NONE && is_new && is_later {
                put(&mut self.links, arc.from, place);
                open.push(arc.from)?;
            }
            place = arc.next_to;
        }
        Ok(false)
    }

    /// Adds to the paths the one by which a write comes before an operation.
    fn put_path(&mut self, source: usize, x: usize) -> Result<(), AllocError> {
        let mut y = source;
        for _ in 0..self.question.operations.len() {
            let Some(arc) = self.arcs.arc(at(&self.links, y)) else {
                return Ok(());
            };
            self.arcs.paths.push(arc.step)?;
            y = arc.to;
            if y == x {
                return Ok(());
            }
        }
        Ok(())
    }

    /// Looks for a path of arcs with reasons from a write to an operation, among what was done behind the write.
    fn finds_path(
        &mut self,
        alloc: A,
        source: usize,
        x: usize,
        open: &mut Vec<usize, A>,
    ) -> Result<bool, AllocError> {
        open.push(x)?;
        for k in 0..LOOKS {
            let Some(y) = open.get(k).copied() else {
                return Ok(false);
            };
            if self.look_behind(alloc, source, y, open)? {
                self.put_path(source, x)?;
                return Ok(true);
            }
        }
        Ok(false)
    }

    /// Adds that an operation comes before a write, if what it read does by a path.
    fn comes_before(&mut self, alloc: A, reader: usize, x: usize) -> Result<bool, AllocError> {
        let source = self.source(reader);
        let begin = self.arcs.paths.len();
        let mut open = Vec::new(alloc);
        let found = self.finds_path(alloc, source, x, &mut open)?;
        put(&mut self.links, source, NONE);
        for k in 0..open.len() {
            put(&mut self.links, open[k], NONE);
        }
        if found {
            self.add_by(reader, x, Reason::Later(reader), begin)?;
        }
        Ok(found)
    }

    /// What a circle rests on. Where a wait turns out to have a reason, it gets its arc.
    pub(crate) fn grounds_of(
        &mut self,
        alloc: A,
        circle: &mut [Wait],
    ) -> Result<Grounds<A>, AllocError> {
        let mut grounds = Grounds {
            choices: Vec::new(alloc),
            guesses: Vec::new(alloc),
        };
        for place in 0..circle.len() {
            let wait = circle[place];
            match self.arcs.arc(wait.arc) {
                Some(arc) => {
                    if arc.step == NONE {
                        grounds.guesses.push(place)?;
                    }
                }
                None => {
                    let reader = next_in(circle, place);
                    if self.comes_before(alloc, reader, wait.operation)? {
                        circle[place].arc = self.arcs.list.len().saturating_sub(1);
                    } else {
                        grounds.choices.push(Choice {
                            first: self.source(reader),
                            second: wait.operation,
                            place,
                        })?;
                    }
                }
            }
        }
        Ok(grounds)
    }

    /// Adds to the paths the one that leads around a circle from the operation at a place to the next one.
    fn put_way(&mut self, circle: &[Wait], from: usize) -> Result<(), AllocError> {
        let size = circle.len();
        for k in 1..size {
            let place = from.saturating_add(size).saturating_sub(k) % size;
            let step = match self.arcs.arc(circle[place].arc) {
                Some(arc) => arc.step,
                None => NONE,
            };
            self.arcs.paths.push(step)?;
        }
        Ok(())
    }

    /// Adds that a write comes before another one, which was done first without a reason: around the circle it comes
    /// before what read that.
    pub(crate) fn conclude(&mut self, circle: &[Wait], choice: Choice) -> Result<(), AllocError> {
        let begin = self.arcs.paths.len();
        self.put_way(circle, choice.place)?;
        let reader = next_in(circle, choice.place);
        self.add_by(choice.second, choice.first, Reason::Earlier(reader), begin)?;
        self.undo(choice.first)
    }

    /// Guesses that a write comes before another one, which was done first without a reason.
    pub(crate) fn guess(&mut self, choice: Choice) -> Result<(), AllocError> {
        self.arcs.guess(choice.second, choice.first)?;
        self.await_newest(choice.second, choice.first);
        self.undo(choice.first)
    }

    /// Takes away the only guess of a circle. Around it the second write comes before the first, and so does what reads
    /// the second.
    pub(crate) fn refute(&mut self, circle: &[Wait], place: usize) -> Result<(), AllocError> {
        let first = next_in(circle, place);
        let Some(second) = circle.get(place).copied() else {
            return Ok(());
        };
        self.drop_guess(second.arc);
        let begin = self.arcs.paths.len();
        self.put_way(circle, place)?;
        let mut reader = at(&self.readers, second.operation);
        for _ in 0..self.question.operations.len() {
            if reader == NONE {
                return Ok(());
            }
            if reader != first && !is_set(&self.done, reader) {
                self.add_by(reader, first, Reason::Later(reader), begin)?;
            }
            reader = at(&self.next_readers, reader);
        }
        Ok(())
    }

    /// Takes a guess away.
    pub(crate) fn drop_guess(&mut self, place: usize) {
        let Some(arc) = self.arcs.arc(place) else {
            return;
        };
        self.arcs.remove(place);
        if !is_set(&self.done, arc.from) {
            count_down(&mut self.pending, arc.to);
            if at(&self.pending, arc.to) == 0 && !is_set(&self.done, arc.to) {
                self.enlist(arc.to);
            }
        }
    }
}

/// The operation that the one at a place of a circle waits for.
fn next_in(circle: &[Wait], place: usize) -> usize {
    let next = place.saturating_add(1);
    match circle.get(if next < circle.len() { next } else { 0 }) {
        Some(wait) => wait.operation,
        None => NONE,
    }
}
