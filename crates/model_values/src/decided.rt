//! The answer by a guess, where that is an order of each word's writes or a contradiction. Either is checked.

ghost use Rattle.std.specs.Prelude.{◌≡◌, ◌⊎◌, ℕ, ◌<◌, length, slice_index, IfOk, IfSome, Option};
ghost use Rattle.memory_models.specs.Arcs.{IsChained};
ghost use Rattle.memory_models.specs.Following.{IsChainedOn};
ghost use Rattle.memory_models.specs.Trace.{rule_at};
ghost use Rattle.model_values.specs.Answers.{IsExplanation, IsOrderVerdict};
ghost use Rattle.model_values.specs.Placed.{AreListedAt, operation_listed, place_listed};

use crate::accept::is_placing;
use crate::forced::is_refuted;
use crate::guess::{Guess, guess_of};
use crate::placed::{count_writes, number_at, writes_by};
use crate::question::{Explanation, OrderVerdict, Unordered};
use memory_models::{Kind, Operation, Verdict, judge};
use std::alloc::{AllocError, Allocator};

/// The place that a list gives an operation of a kind.
fn place_listed(places: &[usize], x: usize, kind: Kind) -> usize
    ensures { result ≡ place_listed places.now x kind }
{
    match kind {
        Kind::Load => number_at(places, x),
        Kind::Store => number_at(places, x),
        Kind::Atomic => number_at(places, x),
        Kind::Fence => 0,
    }
}

/// An operation at the place that a list gives it.
fn operation_listed(question: &Unordered, places: &[usize], x: usize) -> Operation
    requires x { x < length question.now.operations.now }
    ensures { result ≡ operation_listed question.now.operations.now places.now x }
{
    let told = question.operations[x];
    let place = place_listed(places, x, told.kind);
    Operation {
        processor: told.processor,
        kind: told.kind,
        word: told.word,
        place,
    }
}

/// The operations at the places of a list.
///
/// Errors: out of memory.
fn operations_at<A: Allocator + Copy>(
    alloc: A,
    question: &Unordered,
    places: &[usize],
) -> Result<Vec<Operation, A>, AllocError>
    ensures { IfOk result (λ placed. AreListedAt question.now.operations.now places.now
        placed.items) }
{
    let mut placed = Vec::new(alloc);
    for x in 0..question.operations.len() {
        placed.push(operation_listed(question, places, x))?;
    }
    Ok(placed)
}

/// The explanation that has the places of a list, if the trace obeys the model with these.
///
/// Errors: out of memory.
pub(crate) fn explained<A: Allocator + Copy>(
    alloc: A,
    question: &Unordered,
    places: &[usize],
) -> Result<Option<Explanation<A>>, AllocError>
    requires chained { (k : ℕ) → k < length question.now.rules.now
        → IsChained (rule_at question.now.rules.now k)
        ⊎ IsChainedOn (rule_at question.now.rules.now k) }
    ensures { IfOk result (λ found. IfSome found (IsExplanation question.now)) }
{
    let operations = operations_at(alloc, question, places)?;
    let writes = writes_by(alloc, &operations, count_writes(question.operations))?;
    if !is_placing(question, &operations, &writes) {
        return Ok(None);
    }
    match judge(alloc, question.rules, &operations, &writes, question.words)? {
        Verdict::Cycle(_) => Ok(None),
        Verdict::Ordered(turns) => Ok(Some(Explanation {
            operations,
            writes,
            turns,
        })),
    }
}

/// The answer on a trace by a guess, in time that is near linear where it fits: an order of each word's writes, which
/// is checked by the judge of traces that give one; or that there is none, since pairs of operations that come one
/// before the other in each go around. `None` where the guess is neither.
///
/// Errors: out of memory.
pub(crate) fn decided<A: Allocator + Copy>(
    alloc: A,
    question: &Unordered,
) -> Result<Option<OrderVerdict<A>>, AllocError>
    requires chained { (k : ℕ) → k < length question.now.rules.now
        → IsChained (rule_at question.now.rules.now k)
        ⊎ IsChainedOn (rule_at question.now.rules.now k) }
    ensures { IfOk result (λ found. IfSome found (λ verdict. (nodes : Option ℕ)
        → IsOrderVerdict question.now nodes verdict)) }
{
    let Guess {
        places,
        steps,
        paths,
    } = guess_of(alloc, question)?;
    if places.len() == question.operations.len() {
        if let Some(explanation) = explained(alloc, question, &places)? {
            return Ok(Some(OrderVerdict::Obeys(explanation)));
        }
    }
    if is_refuted(alloc, question, &steps, &paths)? {
        return Ok(Some(OrderVerdict::Breaks));
    }
    Ok(None)
}
