//! Memory models of traces that give the words that operations left and found, and nothing else.

ghost use Rattle.std.specs.Prelude.{◌⊎◌, ◌<◌, ℕ, length, IfOk};
ghost use Rattle.memory_models.specs.Arcs.{IsChained};
ghost use Rattle.memory_models.specs.Following.{IsChainedOn};
ghost use Rattle.memory_models.specs.Trace.{rule_at};
ghost use Rattle.model_values.specs.ValuedVerdict.{IsJudgedOn};
ghost use Rattle.model_values.specs.Values.{AreSourcesOf};

use crate::choices::judge_choices;
use crate::question::{OrderVerdict, Unordered};
use crate::search::judge_unordered;
use crate::valued::{Sources, Valued};
use memory_models::Rule;
use std::alloc::{AllocError, Allocator};

/// Judges by the rules of a memory model a trace that gives the words that its operations left and
/// found, with what these show of the sources. The answer is an order of each word's writes with which
/// the trace obeys the rules, or that no order does so, or `Undecided`. Where each word that was found
/// shows who wrote it, a search looks at `nodes` tables at most. Else a search chooses sources: it gives
/// up `nodes` choices at most, among them the tables of the last one.
///
/// Errors: out of memory, and no other.
pub fn judge_valued<A: Allocator + Copy>(
    alloc: A,
    rules: &[Rule],
    valued: &Valued,
    sources: &Sources<A>,
    nodes: usize,
) -> Result<OrderVerdict<A>, AllocError>
    requires chained { (k : ℕ) → k < length rules.now
        → IsChained (rule_at rules.now k) ⊎ IsChainedOn (rule_at rules.now k) }
    requires sources { AreSourcesOf valued.now sources.now }
    ensures { IfOk result (IsJudgedOn rules.now valued.now nodes) }
{
    let sources = match sources {
        Sources::Told(sources) => sources,
        Sources::Alike(_, _) => return judge_choices(alloc, rules, valued, nodes),
        Sources::Lost(_, _) => return Ok(OrderVerdict::Breaks),
        Sources::Unwritten(_) => return Ok(OrderVerdict::Breaks),
    };
    let question = Unordered {
        rules,
        operations: valued.operations,
        sources,
        words: valued.words,
        openings: valued.openings,
        closing: valued.closing,
    };
    judge_unordered(alloc, &question, Some(nodes))
}
