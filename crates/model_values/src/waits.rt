//! Operations that wait for one another around, where a run can't go on.

use crate::arcs::{NONE, at, is_set, put};
use crate::schedule::Schedule;
use std::alloc::{AllocError, Allocator};

/// An operation that waits, and the arc for which it does; `NONE` where it waits for what is to read the newest write
/// of its word.
#[derive(Clone, Copy)]
pub(crate) struct Wait {
    pub operation: usize,
    pub arc: usize,
}

/// The next operation that one waits for, and by which arc.
#[derive(Clone, Copy)]
struct Next {
    operation: usize,
    arc: usize,
    is_guessed: bool,
    level: usize,
}

impl Next {
    /// Whether this is to be looked at before another.
    fn is_before(self, other: Next) -> bool {
        if self.is_guessed != other.is_guessed {
            return other.is_guessed;
        }
        self.level < other.level
    }
}

/// The one of two that is to be looked at first.
fn first_of(best: Option<Next>, next: Next) -> Option<Next> {
    match best {
        Some(other) => {
            if next.is_before(other) {
                Some(next)
            } else {
                best
            }
        }
        None => Some(next),
    }
}

impl<'a, A: Allocator + Copy> Schedule<'a, A> {
    /// The first operation that an operation waits for by an arc.
    fn next_by_arc(&self, x: usize) -> Option<Next> {
        let mut best = None;
        let mut place = at(&self.arcs.to, x);
        for _ in 0..self.arcs.list.len() {
            let Some(arc) = self.arcs.arc(place) else {
                return best;
            };
            if arc.from != NONE && !is_set(&self.done, arc.from) {
                let next = Next {
                    operation: arc.from,
                    arc: place,
                    is_guessed: arc.step == NONE,
                    level: at(&self.levels, arc.from),
                };
                best = first_of(best, next);
            }
            place = arc.next_to;
        }
        best
    }

    /// The first operation that is to read the newest write of a word before another write follows.
    fn next_reader(&self, x: usize) -> Option<Next> {
        let mut best = None;
        let mut reader = at(&self.readers, at(&self.newest, self.word(x)));
        for _ in 0..self.question.operations.len() {
            if reader == NONE {
                return best;
            }
            if reader != x && !is_set(&self.done, reader) {
                let next = Next {
                    operation: reader,
                    arc: NONE,
                    is_guessed: false,
                    level: at(&self.levels, reader),
                };
                best = first_of(best, next);
            }
            reader = at(&self.next_readers, reader);
        }
        best
    }

    /// The first operation that an operation waits for.
    fn next_of(&self, x: usize) -> Option<Next> {
        if at(&self.pending, x) > 0 {
            self.next_by_arc(x)
        } else {
            self.next_reader(x)
        }
    }

    /// The operation of the lowest level that is not done.
    fn lowest(&self) -> Option<usize> {
        let mut best = None;
        let mut level = NONE;
        for x in 0..self.question.operations.len() {
            if !is_set(&self.done, x) && at(&self.levels, x) < level {
                level = at(&self.levels, x);
                best = Some(x);
            }
        }
        best
    }

    /// Walks from an operation to what it waits for, and on, until it comes to one again: the place where it was.
    fn walk(&mut self, start: usize, path: &mut Vec<Wait, A>) -> Result<Option<usize>, AllocError> {
        let mut x = start;
        for k in 0..self.question.operations.len().saturating_add(1) {
            let seen = at(&self.seen, x);
            if seen != NONE {
                return Ok(Some(seen));
            }
            let Some(next) = self.next_of(x) else {
                return Ok(None);
            };
            put(&mut self.seen, x, k);
            path.push(Wait {
                operation: x,
                arc: next.arc,
            })?;
            x = next.operation;
        }
        Ok(None)
    }

    /// Forgets where a walk was.
    fn forget(&mut self, path: &[Wait]) {
        for k in 0..path.len() {
            put(&mut self.seen, path[k].operation, NONE);
        }
    }

    /// Operations that wait for one another around: each for the next, and the last one for the first.
    pub(crate) fn circle(&mut self, alloc: A) -> Result<Vec<Wait, A>, AllocError> {
        let mut path = Vec::new(alloc);
        let mut circle = Vec::new(alloc);
        let Some(start) = self.lowest() else {
            return Ok(circle);
        };
        let begin = self.walk(start, &mut path)?;
        self.forget(&path);
        let Some(begin) = begin else {
            return Ok(circle);
        };
        for k in begin..path.len() {
            circle.push(path[k])?;
        }
        Ok(circle)
    }
}
