//! The operations of a cycle of a log, with what they need.

ghost use Rattle.std.specs.Prelude.{◌≡◌, ◌+◌, true, IfOk};
ghost use Rattle.memory_models.specs.Trace.{IsMemoryTrace};
ghost use Rattle.state_search.specs.Parts.{AreWithin};

use crate::judged::judge_by;
use crate::model::{AskedModel, MemoryModel};
use crate::shorten::short_cycle;
use crate::weak::judged;
use memory_models::Verdict;
use model_text::{Log, LogTrace, notes_of_log, trace_of_log};
use state_search::parts::is_kept;
use std::alloc::{AllocError, Allocator};
use weak_models::RvwmoVerdict;

/// The places in the trace of the operations of a short cycle of a model by rules; none where it is obeyed.
///
/// Errors: memory.
fn places_by_rules<A: Allocator + Copy>(
    alloc: A,
    trace: &LogTrace<A>,
    model: MemoryModel,
) -> Result<Vec<usize, A>, AllocError>
    requires { IsMemoryTrace (trace.now.openings + 1) trace.now.operations.items
        trace.now.writes.items }
{
    let mut places = Vec::new(alloc);
    let rules = model.rules(alloc)?;
    if let Verdict::Cycle(first) = judge_by(alloc, model, trace)? {
        let steps = short_cycle(alloc, &rules, trace, &first)?;
        for k in 0..steps.len() {
            places.push(steps[k].from)?;
        }
    }
    Ok(places)
}

/// The places in the trace of the operations of a cycle of RISC-V's model; none where it is obeyed.
///
/// Errors: memory.
fn places_by_notes<A: Allocator + Copy>(
    alloc: A,
    log: &Log<A>,
    trace: &LogTrace<A>,
) -> Result<Vec<usize, A>, AllocError>
    requires { IsMemoryTrace (trace.now.openings + 1) trace.now.operations.items
        trace.now.writes.items }
{
    let mut places = Vec::new(alloc);
    let said = notes_of_log(alloc, log)?;
    if let RvwmoVerdict::Cycle(steps) = judged(alloc, trace, &said)? {
        for k in 0..steps.len() {
            places.push(steps[k].from)?;
        }
    }
    Ok(places)
}

/// The places in the trace of the operations of a cycle of a model; none where it is obeyed.
///
/// Errors: memory.
fn cycle_places<A: Allocator + Copy>(
    alloc: A,
    log: &Log<A>,
    trace: &LogTrace<A>,
    model: AskedModel,
) -> Result<Vec<usize, A>, AllocError>
    requires { IsMemoryTrace (trace.now.openings + 1) trace.now.operations.items
        trace.now.writes.items }
{
    match model {
        AskedModel::Rules(rules) => places_by_rules(alloc, trace, rules),
        AskedModel::Rvwmo => places_by_notes(alloc, log, trace),
    }
}

/// Keeps an operation, what it needs, what that needs, and so on.
fn keep(kept: &mut [bool], needs: &[Option<usize>], first: usize) {
    let mut next = Some(first);
    for _ in 0..needs.len() {
        let Some(n) = next else {
            return;
        };
        if n >= kept.len() || kept[n] {
            return;
        }
        kept[n] = true;
        next = needs.get(n).copied().unwrap_or(None);
    }
}

/// The operations of a cycle that breaks a model, with what they need; none where the model is obeyed.
///
/// Errors: memory.
pub(crate) fn cited_kept<A: Allocator + Copy>(
    alloc: A,
    log: &Log<A>,
    model: AskedModel,
    needs: &[Option<usize>],
) -> Result<Vec<bool, A>, AllocError> {
    let mut kept = vec![in alloc; false; log.made.len()]?;
    let trace = trace_of_log(alloc, log)?;
    let numbers = log.rows.joined(alloc)?;
    let places = cycle_places(alloc, log, &trace, model)?;
    for k in 0..places.len() {
        if places[k] >= trace.openings {
            let n = numbers
                .get(places[k] - trace.openings)
                .copied()
                .unwrap_or(0);
            keep(&mut kept, needs, n);
        }
    }
    Ok(kept)
}

/// Whether what one part keeps the other keeps, too.
pub(crate) fn are_within(part: &[bool], whole: &[bool]) -> bool
    ensures { result ≡ true → AreWithin part.now whole.now }
{
    for k in 0..part.len() {
        if is_kept(part, k) && !is_kept(whole, k) {
            return false;
        }
    }
    true
}
