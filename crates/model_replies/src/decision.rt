//! What the verdicts on words alone decide.

ghost use Rattle.std.specs.Prelude.{◌≡◌, true};
ghost use Rattle.model_replies.specs.Judged.{decision_of, decision_on, decisions_of, value_verdict_by};
ghost use Rattle.model_replies.specs.Judged.{is_broken, is_certain, is_obeyed, told_decisions, told_of};
ghost use Rattle.model_replies.specs.Printed.{obeyed_by};

use crate::judging::ValueVerdicts;
use model_answer::{Doubts, MemoryModel, Obeys};
use model_values::OrderVerdict;
use std::alloc::Allocator;

/// Whether a log obeys a model.
#[derive(Clone, Copy, Debug, PartialEq, Eq)]
pub enum Decision {
    /// It does with some order of each word's writes.
    Obeys,
    /// It does with none.
    Breaks,
    /// More nodes would have to be looked at.
    Undecided,
    /// Annotations or weaker fences, which the model doesn't know, may make its answer another one.
    NotTold,
}

/// Whether a log obeys each model.
#[derive(Clone, Copy, Debug, PartialEq, Eq)]
pub struct Decisions {
    pub coherent: Decision,
    pub fenced: Decision,
    pub pso: Decision,
    pub tso: Decision,
    pub sc: Decision,
}

/// What a verdict decides.
fn decision_of<A: Allocator>(verdict: &OrderVerdict<A>) -> Decision
    ensures { result ≡ decision_of verdict.now }
{
    match verdict {
        OrderVerdict::Obeys(_) => Decision::Obeys,
        OrderVerdict::Breaks => Decision::Breaks,
        OrderVerdict::Undecided => Decision::Undecided,
    }
}

impl<A: Allocator> ValueVerdicts<A> {
    /// What the verdicts decide.
    pub fn decisions(&self) -> Decisions
        ensures { result ≡ decisions_of self.now }
    {
        Decisions {
            coherent: decision_of(&self.coherent),
            fenced: decision_of(&self.fenced),
            pso: decision_of(&self.pso),
            tso: decision_of(&self.tso),
            sc: decision_of(&self.sc),
        }
    }

    /// The verdict of a model.
    pub fn by(&self, model: MemoryModel) -> &OrderVerdict<A>
        ensures { result.now ≡ value_verdict_by model self.now }
    {
        match model {
            MemoryModel::Coherent => &self.coherent,
            MemoryModel::Fenced => &self.fenced,
            MemoryModel::Pso => &self.pso,
            MemoryModel::Tso => &self.tso,
            MemoryModel::Sc => &self.sc,
        }
    }
}

/// Whether a model is obeyed.
fn is_obeyed(decision: Decision) -> bool
    ensures { result ≡ is_obeyed decision }
{
    match decision {
        Decision::Obeys => true,
        Decision::Breaks => false,
        Decision::Undecided => false,
        Decision::NotTold => false,
    }
}

/// Whether a model is broken.
fn is_broken(decision: Decision) -> bool
    ensures { result ≡ is_broken decision }
{
    match decision {
        Decision::Obeys => false,
        Decision::Breaks => true,
        Decision::Undecided => false,
        Decision::NotTold => false,
    }
}

/// Whether a decision is certain. What the models by rules leave out may turn a yes into a no, but not
/// where the log is sequentially consistent; what they count as too strong may turn a no into a yes, but
/// not where the log isn't coherent.
fn is_certain(doubts: Doubts, all: Decisions, decision: Decision) -> bool
    ensures { result ≡ is_certain doubts all decision }
{
    match decision {
        Decision::Obeys => !doubts.more || is_obeyed(all.sc),
        Decision::Breaks => !doubts.less || is_broken(all.coherent),
        Decision::Undecided => true,
        Decision::NotTold => true,
    }
}

/// A decision, where it is certain.
fn told_of(doubts: Doubts, all: Decisions, decision: Decision) -> Decision
    ensures { result ≡ told_of doubts all decision }
{
    if is_certain(doubts, all, decision) {
        decision
    } else {
        Decision::NotTold
    }
}

impl Decisions {
    /// The decisions that are certain, by what the models leave out of the log. Those on coherence and on
    /// one memory always are.
    pub(crate) fn told(self, doubts: Doubts) -> Decisions
        ensures { result ≡ told_decisions doubts self }
    {
        Decisions {
            coherent: self.coherent,
            fenced: told_of(doubts, self, self.fenced),
            pso: told_of(doubts, self, self.pso),
            tso: told_of(doubts, self, self.tso),
            sc: self.sc,
        }
    }

    /// The decision on a model.
    pub fn on(self, model: MemoryModel) -> Decision
        ensures { result ≡ decision_on model self }
    {
        match model {
            MemoryModel::Coherent => self.coherent,
            MemoryModel::Fenced => self.fenced,
            MemoryModel::Pso => self.pso,
            MemoryModel::Tso => self.tso,
            MemoryModel::Sc => self.sc,
        }
    }

    /// Which models are obeyed for certain.
    pub fn obeyed(self) -> Obeys
        ensures { result ≡ obeyed_by self }
    {
        Obeys {
            coherent: is_obeyed(self.coherent),
            fenced: is_obeyed(self.fenced),
            pso: is_obeyed(self.pso),
            tso: is_obeyed(self.tso),
            sc: is_obeyed(self.sc),
        }
    }
}
