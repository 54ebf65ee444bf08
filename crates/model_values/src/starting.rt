//! The arcs that a search for an order begins with.

use crate::arcs::{Arcs, NONE, at, no_arcs, put};
use crate::forced::Reason;
use crate::question::Unordered;
use memory_models::following::is_chained;
use memory_models::kinds::{has, is_write, rule_key};
use memory_models::{Kind, Operation, Rule};
use std::alloc::{AllocError, Allocator};

/// Of each write the next one of its processor on its word and the atomic that read it, each with the place of the
/// reason why it comes behind.
#[derive(Drop)]
struct Nexts<A: Allocator> {
    own: Vec<usize, A>,
    own_step: Vec<usize, A>,
    atomic: Vec<usize, A>,
    atomic_step: Vec<usize, A>,
}

/// Whether an operation reads its word.
pub(crate) fn reads(operations: &[Operation], x: usize) -> bool {
    match operations.get(x) {
        Some(operation) => matches!(operation.kind, Kind::Load | Kind::Atomic),
        None => false,
    }
}

/// Whether one operation is of the other's processor.
fn is_beside(operations: &[Operation], x: usize, y: usize) -> bool {
    match (operations.get(x), operations.get(y)) {
        (Some(first), Some(second)) => first.processor == second.processor,
        _ => false,
    }
}

/// Adds the arcs of a rule to each operation from the last one before it.
fn add_from_last<A: Allocator + Copy>(
    alloc: A,
    question: &Unordered,
    rule: Rule,
    arcs: &mut Arcs<A>,
) -> Result<(), AllocError> {
    let mut lasts = vec![in alloc; NONE; question.words]?;
    for y in 0..question.operations.len() {
        let operation = question.operations[y];
        let key = rule_key(rule, operation);
        let last = at(&lasts, key);
        if has(rule.to, operation.kind) && is_beside(question.operations, last, y) {
            arcs.add_first(last, y, Reason::First)?;
        }
        if has(rule.from, operation.kind) {
            put(&mut lasts, key, y);
        }
    }
    Ok(())
}

/// Adds the arcs of a rule from each operation to the next one behind it.
fn add_to_next<A: Allocator + Copy>(
    alloc: A,
    question: &Unordered,
    rule: Rule,
    arcs: &mut Arcs<A>,
) -> Result<(), AllocError> {
    let count = question.operations.len();
    let mut nexts = vec![in alloc; NONE; question.words]?;
    for n in 0..count {
        let x = count - 1 - n;
        let operation = question.operations[x];
        let key = rule_key(rule, operation);
        let next = at(&nexts, key);
        if has(rule.from, operation.kind) && is_beside(question.operations, x, next) {
            arcs.add_first(x, next, Reason::First)?;
        }
        if has(rule.to, operation.kind) {
            put(&mut nexts, key, x);
        }
    }
    Ok(())
}

/// Adds the arcs of all rules.
fn add_rules<A: Allocator + Copy>(
    alloc: A,
    question: &Unordered,
    arcs: &mut Arcs<A>,
) -> Result<(), AllocError> {
    for k in 0..question.rules.len() {
        let rule = question.rules[k];
        if is_chained(rule) {
            add_from_last(alloc, question, rule, arcs)?;
        } else {
            add_to_next(alloc, question, rule, arcs)?;
        }
    }
    Ok(())
}

/// Adds the arcs from each word's opening store.
fn add_openings<A: Allocator + Copy>(
    alloc: A,
    question: &Unordered,
    arcs: &mut Arcs<A>,
) -> Result<(), AllocError> {
    let mut openings = vec![in alloc; NONE; question.words]?;
    for y in 0..question.operations.len() {
        let operation = question.operations[y];
        let first = at(&openings, operation.word);
        if is_write(operation.kind) && first != NONE {
            arcs.add_first(first, y, Reason::First)?;
        }
        if is_write(operation.kind) && first == NONE && y < question.openings {
            put(&mut openings, operation.word, y);
        }
    }
    Ok(())
}

/// Of each word a closing load; `NONE` where it has none.
fn closings_of<A: Allocator + Copy>(
    alloc: A,
    question: &Unordered,
) -> Result<Vec<usize, A>, AllocError> {
    let mut closings = vec![in alloc; NONE; question.words]?;
    for y in 0..question.operations.len() {
        let operation = question.operations[y];
        if y >= question.closing && matches!(operation.kind, Kind::Load) {
            put(&mut closings, operation.word, y);
        }
    }
    Ok(closings)
}

/// Adds the arcs from each write of a word to its closing load, and so to what that read.
fn add_closings<A: Allocator + Copy>(
    alloc: A,
    question: &Unordered,
    arcs: &mut Arcs<A>,
) -> Result<(), AllocError> {
    let closings = closings_of(alloc, question)?;
    for x in 0..question.operations.len() {
        let operation = question.operations[x];
        let y = at(&closings, operation.word);
        if is_write(operation.kind) && y != NONE {
            let step = arcs.steps.len();
            arcs.add_first(x, y, Reason::First)?;
            let source = at(question.sources, y);
            if source != x {
                arcs.add_behind(step, x, source, Reason::Earlier(y))?;
            }
        }
    }
    Ok(())
}

impl<A: Allocator + Copy> Nexts<A> {
    /// Adds the arc from the last write of its processor on its word to a write.
    fn add_own(&mut self, arcs: &mut Arcs<A>, last: usize, y: usize) -> Result<(), AllocError> {
        put(&mut self.own, last, y);
        put(&mut self.own_step, last, arcs.steps.len());
        arcs.add_first(last, y, Reason::First)
    }

    /// Adds the arcs of what an operation read, and of the last write of its processor before it.
    fn add_read(
        &mut self,
        question: &Unordered,
        arcs: &mut Arcs<A>,
        last: usize,
        y: usize,
    ) -> Result<(), AllocError> {
        let source = at(question.sources, y);
        let is_load = match question.operations.get(y) {
            Some(operation) => !is_write(operation.kind),
            None => true,
        };
        let is_own = is_beside(question.operations, source, y) && source < y;
        let own_step = at(&self.own_step, last);
        let (other, other_step) = (at(&self.atomic, source), at(&self.atomic_step, source));
        let step = arcs.steps.len();
        if !is_load {
            put(&mut self.atomic, source, y);
            put(&mut self.atomic_step, source, step);
        }
        if !is_load || !is_own {
            arcs.add_first(source, y, Reason::First)?;
        }
        if !is_load && other != NONE {
            arcs.add_behind(step, other, y, Reason::Later(other))?;
            arcs.add_behind(other_step, y, other, Reason::Later(y))?;
        }
        if last == NONE || last == source {
            return Ok(());
        }
        if is_load {
            return arcs.add_first(last, source, Reason::Earlier(y));
        }
        arcs.add_behind(own_step, last, source, Reason::Earlier(y))
    }

    /// Adds the arcs from what read a write to the writes that come behind that.
    fn add_behind(
        &self,
        question: &Unordered,
        arcs: &mut Arcs<A>,
        y: usize,
    ) -> Result<(), AllocError> {
        let source = at(question.sources, y);
        let own = at(&self.own, source);
        if own != NONE && own != y {
            arcs.add_behind(at(&self.own_step, source), y, own, Reason::Later(y))?;
        }
        let atomic = at(&self.atomic, source);
        if atomic != NONE && atomic != y {
            arcs.add_behind(at(&self.atomic_step, source), y, atomic, Reason::Later(y))?;
        }
        Ok(())
    }
}

/// Adds the arcs of what operations read.
fn add_reads<A: Allocator + Copy>(
    alloc: A,
    question: &Unordered,
    nexts: &mut Nexts<A>,
    arcs: &mut Arcs<A>,
) -> Result<(), AllocError> {
    let mut lasts = vec![in alloc; NONE; question.words]?;
    for y in 0..question.operations.len() {
        let operation = question.operations[y];
        let before = at(&lasts, operation.word);
        let last = if is_beside(question.operations, before, y) {
            before
        } else {
            NONE
        };
        if is_write(operation.kind) && last != NONE {
            nexts.add_own(arcs, last, y)?;
        }
        if reads(question.operations, y) {
            nexts.add_read(question, arcs, last, y)?;
        }
        if is_write(operation.kind) {
            put(&mut lasts, operation.word, y);
        }
    }
    Ok(())
}

/// The arcs that a search begins with.
///
/// Errors: out of memory.
pub(crate) fn first_arcs<A: Allocator + Copy>(
    alloc: A,
    question: &Unordered,
) -> Result<Arcs<A>, AllocError> {
    let count = question.operations.len();
    let mut arcs = no_arcs(alloc, count)?;
    let mut nexts = Nexts {
        own: vec![in alloc; NONE; count]?,
        own_step: vec![in alloc; NONE; count]?,
        atomic: vec![in alloc; NONE; count]?,
        atomic_step: vec![in alloc; NONE; count]?,
    };
    add_rules(alloc, question, &mut arcs)?;
    add_openings(alloc, question, &mut arcs)?;
    add_closings(alloc, question, &mut arcs)?;
    add_reads(alloc, question, &mut nexts, &mut arcs)?;
    for y in 0..count {
        if reads(question.operations, y) {
            nexts.add_behind(question, &mut arcs, y)?;
        }
    }
    Ok(arcs)
}
