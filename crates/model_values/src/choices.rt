//! Judges a trace in which several writes may have left what an operation found: a search chooses sources.

ghost use Rattle.std.specs.Prelude.{◌≡◌, ◌⊎◌, ◌<◌, ℕ, List, true, false, length};
ghost use Rattle.std.specs.Prelude.{IfNone, IfOk, IfSome, take};
ghost use Rattle.memory_models.specs.declared.kinds.Rule.{Rule};
ghost use Rattle.memory_models.specs.Arcs.{IsChained};
ghost use Rattle.memory_models.specs.Following.{IsChainedOn};
ghost use Rattle.memory_models.specs.Trace.{rule_at};
ghost use Rattle.model_values.specs.Choices.{Chooses, GivesNone, IsAbove, MayRead};
ghost use Rattle.model_values.specs.ChoiceSteps.{IsStep, TakesNext, TurnsBack};
ghost use Rattle.model_values.specs.ValuedVerdict.{IsJudgedOn};

use crate::looking::{Seen, look};
use crate::question::OrderVerdict;
use crate::valued::{Valued, may_read};
use memory_models::Rule;
use std::alloc::{AllocError, Allocator};

/// Whether a number is greater than the last one, if there is one.
fn is_above(last: Option<usize>, s: usize) -> bool
    ensures yes { result ≡ true → IsAbove last s }
    ensures no { result ≡ false → IsAbove last s → ⊥ }
{
    match last {
        None => true,
        Some(last) => last < s,
    }
}

/// The least source that an operation may have, above the last one.
fn next_source(valued: &Valued, x: usize, last: Option<usize>) -> Option<usize>
    ensures above { IfSome result (IsAbove last) }
    ensures may { IfSome result (MayRead valued.now x) }
    ensures least { IfSome result (λ s. (t : ℕ) → IsAbove last t → t < s
        → MayRead valued.now x t → ⊥) }
    ensures none { IfNone result ((t : ℕ) → IsAbove last t → MayRead valued.now x t → ⊥) }
{
    for s in 0..valued.operations.len() {
        if is_above(last, s) && may_read(valued, x, s) {
            return Some(s);
        }
    }
    None
}

/// Chooses the least source of an operation. Returns whether it may have one.
///
/// Errors: out of memory.
fn take_next<A: Allocator>(
    valued: &Valued,
    path: &mut Vec<(usize, usize), A>,
    x: usize,
) -> Result<bool, AllocError>
    ensures { IfOk result (TakesNext valued.now path.old.items path.new.items x) }
{
    let Some(s) = next_source(valued, x, None) else {
        return Ok(false);
    };
    path.push((x, s))?;
    Ok(true)
}

/// Turns back to the next source of the last operation that may have another one. Returns whether
/// there is one.
///
/// Errors: out of memory.
fn turn_back<A: Allocator>(
    valued: &Valued,
    path: &mut Vec<(usize, usize), A>,
) -> Result<bool, AllocError>
    ensures { IfOk result (TurnsBack valued.now path.old.items path.new.items) }
{
    while let Some((x, last)) = path.pop() {
        if let Some(s) = next_source(valued, x, Some(last)) {
            path.push((x, s))?;
            return Ok(true);
        }
    }
    Ok(false)
}

/// Turns back from the first operations of a path, to which no order gives their sources. Returns that no order gives
/// the words if no choice is left.
///
/// Errors: out of memory.
fn refute<A: Allocator>(
    rules: &[Rule],
    valued: &Valued,
    path: &mut Vec<(usize, usize), A>,
    depth: usize,
) -> Result<Option<OrderVerdict<A>>, AllocError>
    requires none { GivesNone rules.now valued.now (take depth path.old.items) }
    ensures { (left : ℕ) → IfOk result (IsStep rules.now valued.now path.old.items path.new.items left) }
{
    path.truncate(depth);
    if turn_back(valued, path)? {
        return Ok(None);
    }
    Ok(Some(OrderVerdict::Breaks))
}

/// One step of the search: a look at the path at which it stands, and on to another one. The answer, if it is found.
///
/// Errors: out of memory.
fn step<A: Allocator + Copy>(
    alloc: A,
    rules: &[Rule],
    valued: &Valued,
    path: &mut Vec<(usize, usize), A>,
    last: &mut Vec<usize, A>,
    left: usize,
) -> Result<Option<OrderVerdict<A>>, AllocError>
    requires chained { (k : ℕ) → k < length rules.now
        → IsChained (rule_at rules.now k) ⊎ IsChainedOn (rule_at rules.now k) }
    ensures { IfOk result (IsStep rules.now valued.now path.old.items path.new.items left) }
{
    match look(alloc, rules, valued, path, last, left)? {
        Seen::Answer(verdict) => Ok(Some(verdict)),
        Seen::Refuted(depth) => refute(rules, valued, path, depth),
        Seen::Open(x) => {
            if take_next(valued, path, x)? {
                return Ok(None);
            }
            let depth = path.len();
            refute(rules, valued, path, depth)
        }
    }
}

/// Chooses the source of an operation, if it may have only one.
///
/// Errors: out of memory.
fn take_only<A: Allocator>(
    valued: &Valued,
    path: &mut Vec<(usize, usize), A>,
    x: usize,
) -> Result<(), AllocError>
    ensures { IfOk result (λ _. (rules : List Rule) (n : ℕ) → Chooses rules valued.now path.old.items false n
        → Chooses rules valued.now path.new.items false n) }
{
    let Some(s) = next_source(valued, x, None) else {
        return Ok(());
    };
    if let Some(_) = next_source(valued, x, Some(s)) {
        return Ok(());
    }
    path.push((x, s))?;
    Ok(())
}

/// Chooses the sources of all operations that may have only one.
///
/// Errors: out of memory.
fn take_all<A: Allocator + Copy>(
    alloc: A,
    valued: &Valued,
) -> Result<Vec<(usize, usize), A>, AllocError>
    ensures { IfOk result (λ path. (rules : List Rule) → Chooses rules valued.now path.items false 0) }
{
    let mut path = Vec::new(alloc);
    for x in 0..valued.operations.len() {
        take_only(valued, &mut path, x)?;
    }
    Ok(path)
}

/// Judges by the rules of a memory model a trace in which several writes may have left what an
/// operation found. A search chooses sources. It looks at `nodes` choices at most, or fewer where it
/// looks at many tables for the last one.
///
/// Errors: out of memory.
pub(crate) fn judge_choices<A: Allocator + Copy>(
    alloc: A,
    rules: &[Rule],
    valued: &Valued,
    nodes: usize,
) -> Result<OrderVerdict<A>, AllocError>
    requires chained { (k : ℕ) → k < length rules.now
        → IsChained (rule_at rules.now k) ⊎ IsChainedOn (rule_at rules.now k) }
    ensures { IfOk result (IsJudgedOn rules.now valued.now nodes) }
{
    let mut path = take_all(alloc, valued)?;
    let mut last = Vec::new(alloc);
    for looked in 0..nodes {
        let left = nodes - looked;
        if let Some(verdict) = step(alloc, rules, valued, &mut path, &mut last, left)? {
            return Ok(verdict);
        }
    }
    Ok(OrderVerdict::Undecided)
}
