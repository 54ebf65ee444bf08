//! What comes before what: arcs by reasons that hold, and arcs that are only guessed.

use crate::forced::{Reason, Step};
use std::alloc::{AllocError, Allocator};

/// No place.
pub(crate) const NONE: usize = usize::MAX;

/// The number at a place, `NONE` where there is none.
pub(crate) fn at(numbers: &[usize], x: usize) -> usize {
    match numbers.get(x) {
        Some(number) => *number,
        None => NONE,
    }
}

/// Puts a number at a place, if there is one.
pub(crate) fn put(numbers: &mut [usize], x: usize, number: usize) {
    if x < numbers.len() {
        numbers[x] = number;
    }
}

/// One more at a place.
pub(crate) fn count_up(numbers: &mut [usize], x: usize) {
    if x < numbers.len() {
        numbers[x] = numbers[x].saturating_add(1);
    }
}

/// One less at a place.
pub(crate) fn count_down(numbers: &mut [usize], x: usize) {
    if x < numbers.len() {
        numbers[x] = numbers[x].saturating_sub(1);
    }
}

/// The flag at a place.
pub(crate) fn is_set(flags: &[bool], x: usize) -> bool {
    match flags.get(x) {
        Some(flag) => *flag,
        None => false,
    }
}

/// Sets the flag at a place.
pub(crate) fn set(flags: &mut [bool], x: usize, flag: bool) {
    if x < flags.len() {
        flags[x] = flag;
    }
}

/// An arc, the place of the reason that it has, or `NONE`, and the arcs behind it from and to the same operations.
#[derive(Clone, Copy)]
pub(crate) struct Arc {
    pub from: usize,
    pub to: usize,
    pub step: usize,
    pub next_from: usize,
    pub next_to: usize,
}

/// Arcs, the first one from each operation and to each, and the reasons, with the paths by which they follow.
#[derive(Drop)]
pub(crate) struct Arcs<A: Allocator> {
    pub list: Vec<Arc, A>,
    pub from: Vec<usize, A>,
    pub to: Vec<usize, A>,
    pub steps: Vec<Step, A>,
    pub paths: Vec<usize, A>,
}

/// No arcs yet between so many operations.
pub(crate) fn no_arcs<A: Allocator + Copy>(alloc: A, count: usize) -> Result<Arcs<A>, AllocError> {
    Ok(Arcs {
        list: Vec::new(alloc),
        from: vec![in alloc; NONE; count]?,
        to: vec![in alloc; NONE; count]?,
        steps: Vec::new(alloc),
        paths: Vec::new(alloc),
    })
}

impl<A: Allocator + Copy> Arcs<A> {
    /// The arc at a place.
    pub(crate) fn arc(&self, place: usize) -> Option<Arc> {
        self.list.get(place).copied()
    }

    /// Adds an arc.
    fn add(&mut self, from: usize, to: usize, step: usize) -> Result<(), AllocError> {
        let place = self.list.len();
        self.list.push(Arc {
            from,
            to,
            step,
            next_from: at(&self.from, from),
            next_to: at(&self.to, to),
        })?;
        put(&mut self.from, from, place);
        put(&mut self.to, to, place);
        Ok(())
    }

    /// Adds an arc that is guessed.
    pub(crate) fn guess(&mut self, from: usize, to: usize) -> Result<(), AllocError> {
        self.add(from, to, NONE)
    }

    /// Adds an arc with its reason, which follows by the paths from a place on.
    pub(crate) fn add_by(
        &mut self,
        from: usize,
        to: usize,
        reason: Reason,
        begin: usize,
    ) -> Result<(), AllocError> {
        let step = self.steps.len();
        let end = self.paths.len();
        self.steps.push(Step {
            from,
            to,
            reason,
            begin,
            end,
        })?;
        self.add(from, to, step)
    }

    /// Adds an arc whose reason needs no path.
    pub(crate) fn add_first(
        &mut self,
        from: usize,
        to: usize,
        reason: Reason,
    ) -> Result<(), AllocError> {
        let begin = self.paths.len();
        self.add_by(from, to, reason, begin)
    }

    /// Adds an arc whose reason follows by the newest arc.
    pub(crate) fn add_behind(
        &mut self,
        step: usize,
        from: usize,
        to: usize,
        reason: Reason,
    ) -> Result<(), AllocError> {
        let begin = self.paths.len();
        self.paths.push(step)?;
        self.add_by(from, to, reason, begin)
    }

    /// Takes an arc away.
    pub(crate) fn remove(&mut self, place: usize) {
        if place < self.list.len() {
            self.list[place].from = NONE;
            self.list[place].to = NONE;
        }
    }
}
