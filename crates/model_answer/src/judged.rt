//! The verdicts of the models on a trace.

ghost use Rattle.std.specs.Prelude.{◌≡◌, ◌+◌, ℕ, List, IfOk};
ghost use Rattle.memory_models.specs.declared.kinds.Operation.{Operation};
ghost use Rattle.memory_models.specs.Trace.{IsMemoryTrace};
ghost use Rattle.memory_models.specs.Verdict.{IsModelVerdict};
ghost use Rattle.model_answer.specs.Answer.{obeys_of, verdict_by};
ghost use Rattle.model_answer.specs.Judged.{AreVerdicts, TellsObeyed, is_ordered};
ghost use Rattle.model_answer.specs.Model.{rules_of_model};

use crate::model::MemoryModel;
use memory_models::{Verdict, judge};
use model_text::LogTrace;
use std::alloc::{AllocError, Allocator, Global};

/// The verdict of each model on a trace.
#[derive(Drop)]
pub struct Verdicts<A: Allocator = Global> {
    pub coherent: Verdict<A>,
    pub fenced: Verdict<A>,
    pub pso: Verdict<A>,
    pub tso: Verdict<A>,
    pub sc: Verdict<A>,
}

/// Which models a trace obeys.
#[derive(Clone, Copy, Debug, PartialEq, Eq)]
pub struct Obeys {
    pub coherent: bool,
    pub fenced: bool,
    pub pso: bool,
    pub tso: bool,
    pub sc: bool,
}

/// Judges a trace by a model.
///
/// Errors: out of memory, and no other.
pub(crate) fn judge_by<A: Allocator + Copy>(
    alloc: A,
    model: MemoryModel,
    trace: &LogTrace<A>,
) -> Result<Verdict<A>, AllocError>
    requires { IsMemoryTrace (trace.now.openings + 1) trace.now.operations.items
        trace.now.writes.items }
    ensures { IfOk result (IsModelVerdict (rules_of_model model) trace.now.operations.items
        trace.now.writes.items) }
{
    let rules = model.rules(alloc)?;
    let Some(words) = trace.openings.checked_add(1) else {
        return Err(AllocError);
    };
    Ok(judge(alloc, &rules, &trace.operations, &trace.writes, words)?)
}

/// Judges a trace by each model.
///
/// Errors: out of memory, and no other.
pub fn verdicts_of<A: Allocator + Copy>(
    alloc: A,
    trace: &LogTrace<A>,
) -> Result<Verdicts<A>, AllocError>
    requires { IsMemoryTrace (trace.now.openings + 1) trace.now.operations.items
        trace.now.writes.items }
    ensures { IfOk result (AreVerdicts trace.now.operations.items trace.now.writes.items) }
{
    let coherent = judge_by(alloc, MemoryModel::Coherent, trace)?;
    let fenced = judge_by(alloc, MemoryModel::Fenced, trace)?;
    let pso = judge_by(alloc, MemoryModel::Pso, trace)?;
    let tso = judge_by(alloc, MemoryModel::Tso, trace)?;
    let sc = judge_by(alloc, MemoryModel::Sc, trace)?;
    Ok(Verdicts {
        coherent,
        fenced,
        pso,
        tso,
        sc,
    })
}

/// Whether a verdict is an order.
pub fn is_ordered<A: Allocator>(verdict: &Verdict<A>) -> bool
    ensures { result ≡ is_ordered verdict.now }
{
    match verdict {
        Verdict::Ordered(_) => true,
        Verdict::Cycle(_) => false,
    }
}

impl<A: Allocator> Verdicts<A> {
    /// The verdict of a model.
    pub fn by(&self, model: MemoryModel) -> &Verdict<A>
        ensures { result.now ≡ verdict_by model self.now }
    {
        match model {
            MemoryModel::Coherent => &self.coherent,
            MemoryModel::Fenced => &self.fenced,
            MemoryModel::Pso => &self.pso,
            MemoryModel::Tso => &self.tso,
            MemoryModel::Sc => &self.sc,
        }
    }

    /// Which models the trace obeys.
    pub fn obeys(&self) -> Obeys
        ensures value { result ≡ obeys_of self.now }
        ensures told { (words : ℕ) (ops : List Operation) (writes : List ℕ)
            → IsMemoryTrace words ops writes → AreVerdicts ops writes self.now
            → TellsObeyed ops writes result }
    {
        obeys_of(self)
    }
}

/// Which models are obeyed by some verdicts.
fn obeys_of<A: Allocator>(verdicts: &Verdicts<A>) -> Obeys
    ensures { result ≡ obeys_of verdicts.now }
{
    Obeys {
        coherent: is_ordered(&verdicts.coherent),
        fenced: is_ordered(&verdicts.fenced),
        pso: is_ordered(&verdicts.pso),
        tso: is_ordered(&verdicts.tso),
        sc: is_ordered(&verdicts.sc),
    }
}
