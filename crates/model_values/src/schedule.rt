//! A run of operations in an order that keeps arcs and in which each reads its source: what may be done is done, and
//! a store that others read only when nothing else may. What was done can be taken back.

use crate::arcs::{Arcs, NONE, at, count_down, count_up, is_set, put, set};
use crate::lists::Lists;
use crate::question::Unordered;
use crate::starting::reads;
use memory_models::Kind;
use memory_models::kinds::is_write;
use std::alloc::{AllocError, Allocator};

/// Where a run stands. Of each operation: how many before it are not done; of a write how many that read it are not,
/// and these in a chain; a level, which rises along the arcs it began with; the highest level of what reads it; the
/// write before it and behind it on its word; whether and when it was done. Of each word: its newest write.
#[derive(Drop)]
pub(crate) struct Schedule<'a, A: Allocator> {
    pub question: &'a Unordered<'a>,
    pub arcs: Arcs<A>,
    pub pending: Vec<usize, A>,
    pub unread: Vec<usize, A>,
    pub readers: Vec<usize, A>,
    pub next_readers: Vec<usize, A>,
    pub levels: Vec<usize, A>,
    pub lates: Vec<usize, A>,
    pub before: Vec<usize, A>,
    pub behind: Vec<usize, A>,
    pub done: Vec<bool, A>,
    pub times: Vec<usize, A>,
    pub newest: Vec<usize, A>,
    pub lists: Lists<A>,
    pub clock: usize,
    pub left: usize,
    pub undone: Vec<usize, A>,
    pub again: Vec<usize, A>,
    pub seen: Vec<usize, A>,
    pub links: Vec<usize, A>,
    pub drawn: u64,
    pub taken_back: usize,
}

impl<'a, A: Allocator + Copy> Schedule<'a, A> {
    /// The kind of an operation.
    pub(crate) fn kind(&self, x: usize) -> Kind {
        match self.question.operations.get(x) {
            Some(operation) => operation.kind,
            None => Kind::Fence,
        }
    }

    /// The word of an operation.
    pub(crate) fn word(&self, x: usize) -> usize {
        match self.question.operations.get(x) {
            Some(operation) => operation.word,
            None => NONE,
        }
    }

    /// The write that an operation read.
    pub(crate) fn source(&self, x: usize) -> usize {
        at(self.question.sources, x)
    }

    /// The list of the operations that wait for a word.
    fn waiting(&self, word: usize) -> usize {
        let first = self.question.operations.len().saturating_add(1);
        first.saturating_add(word)
    }

    /// Lists an operation to be done: behind those that cost nothing, a store that others read.
    pub(crate) fn enlist(&mut self, x: usize) {
        if matches!(self.kind(x), Kind::Store) && at(&self.unread, x) > 0 {
            let list = at(&self.lates, x).saturating_add(1);
            self.lists.put(list, x);
        } else {
            self.lists.put(0, x);
        }
    }

    /// Lists what waits for a word.
    pub(crate) fn free(&mut self, word: usize) {
        let list = self.waiting(word);
        for _ in 0..self.question.operations.len() {
            match self.lists.take(list) {
                Some(x) => self.enlist(x),
                None => return,
            }
        }
    }

    /// Whether an operation may be done: a write if nothing else is to read the newest write of its word.
    fn may_go(&self, x: usize) -> bool {
        let kind = self.kind(x);
        if !is_write(kind) {
            return true;
        }
        let newest = at(&self.newest, self.word(x));
        let is_atomic = matches!(kind, Kind::Atomic);
        if is_atomic && newest != self.source(x) {
            return false;
        }
        let own = if is_atomic { 1 } else { 0 };
        newest == NONE || at(&self.unread, newest) <= own
    }

    /// One less is to be done before each operation behind one.
    fn release(&mut self, x: usize) {
        let mut place = at(&self.arcs.from, x);
        for _ in 0..self.arcs.list.len() {
            let Some(arc) = self.arcs.arc(place) else {
                return;
            };
            count_down(&mut self.pending, arc.to);
            if at(&self.pending, arc.to) == 0 && !is_set(&self.done, arc.to) {
                self.enlist(arc.to);
            }
            place = arc.next_from;
        }
    }

    /// Does an operation.
    fn go(&mut self, x: usize) {
        let word = self.word(x);
        set(&mut self.done, x, true);
        let clock = self.clock;
        put(&mut self.times, x, clock);
        self.clock = self.clock.saturating_add(1);
        self.left = self.left.saturating_sub(1);
        if reads(self.question.operations, x) {
            let source = self.source(x);
            count_down(&mut self.unread, source);
        }
        if is_write(self.kind(x)) {
            let newest = at(&self.newest, word);
            put(&mut self.before, x, newest);
            put(&mut self.behind, newest, x);
            put(&mut self.newest, word, x);
        }
        let newest = at(&self.newest, word);
        if newest != NONE && at(&self.unread, newest) <= 1 {
            self.free(word);
        }
        self.release(x);
    }

    /// Does what may be done, until nothing may.
    pub(crate) fn run(&mut self) {
        let end = self.question.operations.len().saturating_add(1);
        for _ in 0..NONE {
            let Some(x) = self.lists.take_first(end) else {
                return;
            };
            if is_set(&self.done, x) || at(&self.pending, x) > 0 {
                continue;
            }
            if self.may_go(x) {
                self.go(x);
            } else {
                let list = self.waiting(self.word(x));
                self.lists.put(list, x);
            }
        }
    }

    /// One more is to be done before each operation behind one, which are taken back if they were done.
    fn hold(&mut self, x: usize) -> Result<(), AllocError> {
        let mut place = at(&self.arcs.from, x);
        for _ in 0..self.arcs.list.len() {
            let Some(arc) = self.arcs.arc(place) else {
                return Ok(());
            };
            count_up(&mut self.pending, arc.to);
            if is_set(&self.done, arc.to) {
                self.undone.push(arc.to)?;
            }
            place = arc.next_from;
        }
        Ok(())
    }

    /// Those that read a write once it was done are to be taken back.
    fn hold_readers(&mut self, x: usize) -> Result<(), AllocError> {
        let mut reader = at(&self.readers, x);
        for _ in 0..self.question.operations.len() {
            if reader == NONE {
                return Ok(());
            }
            let is_later = at(&self.times, reader) > at(&self.times, x);
            if is_set(&self.done, reader) && is_later {
                self.undone.push(reader)?;
            }
            reader = at(&self.next_readers, reader);
        }
        Ok(())
    }

    /// Takes back an operation. What depends on it is to be taken back too.
    fn take_back(&mut self, x: usize) -> Result<(), AllocError> {
        set(&mut self.done, x, false);
        self.left = self.left.saturating_add(1);
        self.taken_back = self.taken_back.saturating_add(1);
        if reads(self.question.operations, x) {
            let source = self.source(x);
            count_up(&mut self.unread, source);
            let behind = at(&self.behind, source);
            if is_set(&self.done, behind) && at(&self.before, behind) == source {
                self.undone.push(behind)?;
            }
        }
        if is_write(self.kind(x)) {
            self.hold_readers(x)?;
        }
        self.hold(x)?;
        self.again.push(x)?;
        Ok(())
    }

    /// Takes back the writes of a word down to one.
    fn take_back_writes(&mut self, x: usize) -> Result<(), AllocError> {
        let word = self.word(x);
        for _ in 0..self.question.operations.len() {
            let newest = at(&self.newest, word);
            if newest == NONE {
                return Ok(());
            }
            let before = at(&self.before, newest);
            put(&mut self.newest, word, before);
            self.take_back(newest)?;
            if newest == x {
                return Ok(());
            }
        }
        Ok(())
    }

    /// Lists again what was taken back, and what waits for its words.
    fn enlist_again(&mut self) {
        for _ in 0..self.again.len() {
            let Some(x) = self.again.pop() else {
                return;
            };
            if at(&self.pending, x) == 0 {
                self.enlist(x);
            }
            if is_write(self.kind(x)) {
                let word = self.word(x);
                self.free(word);
            }
        }
    }

    /// Takes back an operation and all that depends on it.
    pub(crate) fn undo(&mut self, x: usize) -> Result<(), AllocError> {
        self.undone.push(x)?;
        for _ in 0..NONE {
            let Some(x) = self.undone.pop() else {
                self.enlist_again();
                return Ok(());
            };
            if !is_set(&self.done, x) {
                continue;
            }
            if is_write(self.kind(x)) {
                self.take_back_writes(x)?;
            } else {
                self.take_back(x)?;
            }
        }
        Ok(())
    }
}
