//! What pairs of operations that go around rest on: the pairs that are needed, and the operations whose sources are.

use crate::arcs::{NONE, at, is_set, put, set};
use crate::first::starts;
use crate::forced::{Reason, Step, circle_of, part};
use crate::question::Unordered;
use std::alloc::{AllocError, Allocator};

/// Pairs that go around, with their reasons, and the operations whose sources these rest on.
#[derive(Drop)]
pub(crate) struct Grounded<A: Allocator> {
    pub steps: Vec<Step, A>,
    pub paths: Vec<usize, A>,
    pub readers: Vec<usize, A>,
}

/// Marks the pairs by which a pair follows.
fn mark_path(path: &[usize], needed: &mut [bool]) {
    for k in 0..path.len() {
        set(needed, path[k], true);
    }
}

/// Which pairs are needed, so that some go around.
fn needed_for<A: Allocator + Copy>(
    alloc: A,
    steps: &[Step],
    paths: &[usize],
    circle: &[usize],
) -> Result<Vec<bool, A>, AllocError> {
    let mut needed = vec![in alloc; false; steps.len()]?;
    mark_path(circle, &mut needed);
    for n in 0..steps.len() {
        let k = steps.len() - 1 - n;
        if is_set(&needed, k) {
            mark_path(part(paths, steps[k].begin, steps[k].end), &mut needed);
        }
    }
    Ok(needed)
}

/// Whether a pair holds with any sources.
fn is_bare(question: &Unordered, step: Step) -> bool {
    let bare = Unordered {
        rules: question.rules,
        operations: question.operations,
        sources: &[],
        words: question.words,
        openings: question.openings,
        closing: question.closing,
    };
    if step.from >= question.operations.len() || step.to >= question.operations.len() {
        return false;
    }
    starts(&bare, step.from, step.to)
}

/// The operation whose source a pair rests on.
fn reader_of(question: &Unordered, step: Step) -> usize {
    match step.reason {
        Reason::Earlier(x) => x,
        Reason::Later(x) => x,
        Reason::First => {
            if is_bare(question, step) {
                NONE
            } else {
                step.to
            }
        }
    }
}

impl<A: Allocator> Grounded<A> {
    /// Adds a pair that is needed, by the new numbers of those by which it follows.
    fn add(&mut self, step: Step, path: &[usize], numbers: &[usize]) -> Result<(), AllocError> {
        let begin = self.paths.len();
        for k in 0..path.len() {
            self.paths.push(at(numbers, path[k]))?;
        }
        self.steps.push(Step {
            from: step.from,
            to: step.to,
            reason: step.reason,
            begin,
            end: self.paths.len(),
        })?;
        Ok(())
    }
}

/// What pairs that go around rest on; nothing where none do.
///
/// Errors: out of memory.
pub(crate) fn grounds_of<A: Allocator + Copy>(
    alloc: A,
    question: &Unordered,
    steps: &[Step],
    paths: &[usize],
) -> Result<Grounded<A>, AllocError> {
    let mut grounded = Grounded {
        steps: Vec::new(alloc),
        paths: Vec::new(alloc),
        readers: Vec::new(alloc),
    };
    let Some(circle) = circle_of(alloc, question, steps, paths)? else {
        return Ok(grounded);
    };
    let needed = needed_for(alloc, steps, paths, &circle)?;
    let mut numbers = vec![in alloc; NONE; steps.len()]?;
    for k in 0..steps.len() {
        if is_set(&needed, k) {
            let step = steps[k];
            let number = grounded.steps.len();
            put(&mut numbers, k, number);
            grounded.add(step, part(paths, step.begin, step.end), &numbers)?;
            let reader = reader_of(question, step);
            if reader != NONE {
                grounded.readers.push(reader)?;
            }
        }
    }
    Ok(grounded)
}
