//! What a choice of sources gives: an order, that there is none, or an operation whose source is open.

ghost use Rattle.std.specs.Prelude.{◌≡◌, ◌⊎◌, ◌≤◌, ◌<◌, ℕ, true, false, length, IfNone, IfOk, IfSome, slice_set, take};
ghost use Rattle.memory_models.specs.Arcs.{IsChained};
ghost use Rattle.memory_models.specs.Following.{IsChainedOn};
ghost use Rattle.memory_models.specs.Trace.{rule_at};
ghost use Rattle.model_values.specs.Choices.{AreChosen, AreLeft, GivesNone};
ghost use Rattle.model_values.specs.ChoiceSteps.{IsSeen};
ghost use Rattle.model_values.specs.ValuedVerdict.{ExplainsValues};
ghost use Rattle.model_values.specs.Values.{IsReader};

use crate::decided::explained;
use crate::forced::is_refuted;
use crate::likely::{Likely, likely_of};
use crate::placed::number_at;
use crate::question::{Explanation, OrderVerdict, Unordered};
use crate::search::judge_unordered;
use crate::valued::{Valued, is_reader, may_read};
use memory_models::Rule;
use std::alloc::{AllocError, Allocator};

/// What is seen of a path.
#[derive(Drop)]
pub(crate) enum Seen<A: Allocator> {
    /// The answer.
    Answer(OrderVerdict<A>),
    /// No order gives so many first operations of the path their sources.
    Refuted(usize),
    /// An operation that has no source.
    Open(usize),
}

/// Puts a source, if it is wanted.
fn put_source(sources: &mut [usize], wanted: bool, x: usize, s: usize)
    ensures not { wanted ≡ false → sources.new ≡ sources.old }
    ensures yes { wanted ≡ true → sources.new ≡ slice_set sources.old x s }
{
    if wanted && x < sources.len() {
        sources[x] = s;
    }
}

/// The sources of the first operations of a path, and the number of operations for all others.
///
/// Errors: out of memory.
fn sources_of<A: Allocator + Copy>(
    alloc: A,
    count: usize,
    path: &[(usize, usize)],
    depth: usize,
) -> Result<Vec<usize, A>, AllocError>
    ensures { IfOk result (λ sources. AreChosen path.now depth count sources.items) }
{
    let mut sources = vec![in alloc; count; count]?;
    for k in 0..path.len() {
        let (x, s) = path[k];
        put_source(&mut sources, k < depth, x, s);
    }
    Ok(sources)
}

/// An operation whose source did not leave what it found, or that has none.
fn find_open(valued: &Valued, sources: &[usize]) -> Option<usize>
    ensures some { IfSome result (λ x. (x < length valued.now.operations.now)
        × IsReader valued.now.operations.now x) }
    ensures none { IfNone result (AreLeft valued.now sources.now) }
{
    for x in 0..valued.operations.len() {
        if is_reader(valued.operations, x) && !may_read(valued, x, number_at(sources, x)) {
            return Some(x);
        }
    }
    None
}

/// Whether an operation that reads its word has no source.
fn is_open(valued: &Valued, sources: &[usize], x: usize) -> bool
    ensures { result ≡ true → (x < length valued.now.operations.now)
        × IsReader valued.now.operations.now x }
{
    x < valued.operations.len()
        && is_reader(valued.operations, x)
        && number_at(sources, x) >= valued.operations.len()
}

/// An order that explains what was found, by sources and places that seem likely.
///
/// Errors: out of memory.
fn explained_by<A: Allocator + Copy>(
    alloc: A,
    rules: &[Rule],
    valued: &Valued,
    sources: &[usize],
    places: &[usize],
) -> Result<Option<Explanation<A>>, AllocError>
    requires chained { (k : ℕ) → k < length rules.now
        → IsChained (rule_at rules.now k) ⊎ IsChainedOn (rule_at rules.now k) }
    ensures { IfOk result (λ found. IfSome found (ExplainsValues rules.now valued.now)) }
{
    if find_open(valued, sources).is_some() {
        return Ok(None);
    }
    let question = Unordered {
        rules,
        operations: valued.operations,
        sources,
        words: valued.words,
        openings: valued.openings,
        closing: valued.closing,
    };
    explained(alloc, &question, places)
}

/// Whether pairs that follow from the sources of the first operations of a path go around.
///
/// Errors: out of memory.
fn is_refuted_by<A: Allocator + Copy>(
    alloc: A,
    rules: &[Rule],
    valued: &Valued,
    path: &[(usize, usize)],
    likely: &Likely<A>,
) -> Result<bool, AllocError>
    ensures { IfOk result (λ refuted. refuted ≡ true
        → GivesNone rules.now valued.now (take likely.now.depth path.now)) }
{
    let sources = sources_of(alloc, valued.operations.len(), path, likely.depth)?;
    let question = Unordered {
        rules,
        operations: valued.operations,
        sources: &sources,
        words: valued.words,
        openings: valued.openings,
        closing: valued.closing,
    };
    is_refuted(alloc, &question, &likely.steps, &likely.paths)
}

/// What a path that has all sources gives, by the search for an order.
///
/// Errors: out of memory.
fn look_for_order<A: Allocator + Copy>(
    alloc: A,
    rules: &[Rule],
    valued: &Valued,
    path: &[(usize, usize)],
    sources: &[usize],
    left: usize,
) -> Result<Seen<A>, AllocError>
    requires chained { (k : ℕ) → k < length rules.now
        → IsChained (rule_at rules.now k) ⊎ IsChainedOn (rule_at rules.now k) }
    requires chosen { AreChosen path.now (length path.now) (length valued.now.operations.now) sources.now }
    requires left { AreLeft valued.now sources.now }
    ensures { IfOk result (IsSeen rules.now valued.now path.now left) }
{
    let question = Unordered {
        rules,
        operations: valued.operations,
        sources,
        words: valued.words,
        openings: valued.openings,
        closing: valued.closing,
    };
    match judge_unordered(alloc, &question, Some(left))? {
        OrderVerdict::Obeys(explanation) => Ok(Seen::Answer(OrderVerdict::Obeys(explanation))),
        OrderVerdict::Breaks => Ok(Seen::Refuted(path.len())),
        OrderVerdict::Undecided => Ok(Seen::Answer(OrderVerdict::Undecided)),
    }
}

/// What a path gives. The guess goes on from the last one, and is kept.
///
/// Errors: out of memory.
pub(crate) fn look<A: Allocator + Copy>(
    alloc: A,
    rules: &[Rule],
    valued: &Valued,
    path: &[(usize, usize)],
    last: &mut Vec<usize, A>,
    left: usize,
) -> Result<Seen<A>, AllocError>
    requires chained { (k : ℕ) → k < length rules.now
        → IsChained (rule_at rules.now k) ⊎ IsChainedOn (rule_at rules.now k) }
    ensures { IfOk result (IsSeen rules.now valued.now path.now left) }
{
    let sources = sources_of(alloc, valued.operations.len(), path, path.len())?;
    let guess = likely_of(alloc, rules, valued, path, &sources, last)?;
    if let Some(explanation) = explained_by(alloc, rules, valued, &guess.sources, &guess.places)? {
        return Ok(Seen::Answer(OrderVerdict::Obeys(explanation)));
    }
    if is_refuted_by(alloc, rules, valued, path, &guess)? {
        return Ok(Seen::Refuted(guess.depth));
    }
    let open = guess.open;
    *last = guess.sources;
    if is_open(valued, &sources, open) {
        return Ok(Seen::Open(open));
    }
    match find_open(valued, &sources) {
        Some(x) => Ok(Seen::Open(x)),
        None => look_for_order(alloc, rules, valued, path, &sources, left),
    }
}
