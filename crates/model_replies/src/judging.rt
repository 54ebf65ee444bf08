//! The verdicts of the models on words alone.

ghost use Rattle.std.specs.Prelude.{◌≡◌, IfErr, IfOk};
ghost use Rattle.model_answer.specs.Model.{rules_of_model};
ghost use Rattle.model_values.specs.Values.{AreSourcesOf};
ghost use Rattle.model_values.specs.ValuedVerdict.{IsJudgedOn};
ghost use Rattle.model_replies.specs.Judged.{AreValueVerdicts, IsUnsaid};

use model_answer::MemoryModel;
use model_values::{OrderVerdict, Sources, Valued, judge_valued, sources_by_values};
use std::alloc::{AllocError, Allocator, Global};

/// The verdict of each model.
#[derive(Drop)]
pub struct ValueVerdicts<A: Allocator = Global> {
    pub coherent: OrderVerdict<A>,
    pub fenced: OrderVerdict<A>,
    pub pso: OrderVerdict<A>,
    pub tso: OrderVerdict<A>,
    pub sc: OrderVerdict<A>,
}

/// Why no model is asked. The numbers are those of operations.
#[derive(Clone, Copy)]
pub enum Unsaid {
    /// This one found what no write of its word left, which breaks every model.
    Unwritten(usize),
    /// These two atomics found the same in one word, which only one write of it left, which breaks every
    /// model.
    Lost(usize, usize),
    /// A request for memory was refused.
    Memory,
}

/// The verdict of a model by what the words show of the sources, by a search of at most so many nodes.
///
/// Errors: out of memory.
fn verdict_of<A: Allocator + Copy>(
    alloc: A,
    model: MemoryModel,
    valued: &Valued,
    sources: &Sources<A>,
    nodes: usize,
) -> Result<OrderVerdict<A>, Unsaid>
    requires { AreSourcesOf valued.now sources.now }
    ensures judged { IfOk result (IsJudgedOn (rules_of_model model) valued.now nodes) }
    ensures unsaid { IfErr result (IsUnsaid valued.now) }
{
    let Ok(rules) = model.rules(alloc) else {
        return Err(Unsaid::Memory);
    };
    match judge_valued(alloc, &rules, valued, sources, nodes) {
        Ok(verdict) => Ok(verdict),
        Err(_) => Err(Unsaid::Memory),
    }
}

/// What the words show of the sources.
///
/// Errors: an operation that found what no write left, a lost update, or out of memory.
fn sources_of<A: Allocator + Copy>(alloc: A, valued: &Valued) -> Result<Sources<A>, Unsaid>
    ensures sources { IfOk result (AreSourcesOf valued.now) }
    ensures unsaid { IfErr result (IsUnsaid valued.now) }
{
    match sources_by_values(alloc, valued) {
        Ok(Sources::Unwritten(x)) => Err(Unsaid::Unwritten(x)),
        Ok(Sources::Lost(x, y)) => Err(Unsaid::Lost(x, y)),
        Ok(sources) => Ok(sources),
        Err(_) => Err(Unsaid::Memory),
    }
}

/// The verdict of each model, by searches of at most so many nodes each.
///
/// Errors: why no model is asked, or out of memory.
pub fn verdicts_of_values<A: Allocator + Copy>(
    alloc: A,
    valued: &Valued,
    nodes: usize,
) -> Result<ValueVerdicts<A>, Unsaid>
    ensures judged { IfOk result (AreValueVerdicts valued.now nodes) }
    ensures unsaid { IfErr result (IsUnsaid valued.now) }
{
    let sources = sources_of(alloc, valued)?;
    let coherent = verdict_of(alloc, MemoryModel::Coherent, valued, &sources, nodes)?;
    let fenced = verdict_of(alloc, MemoryModel::Fenced, valued, &sources, nodes)?;
    let pso = verdict_of(alloc, MemoryModel::Pso, valued, &sources, nodes)?;
    let tso = verdict_of(alloc, MemoryModel::Tso, valued, &sources, nodes)?;
    let sc = verdict_of(alloc, MemoryModel::Sc, valued, &sources, nodes)?;
    Ok(ValueVerdicts {
        coherent,
        fenced,
        pso,
        tso,
        sc,
    })
}
