//! Parts of a log, as models see them, and whether a model explains one.

ghost use Rattle.std.specs.Prelude.{◌≡◌, ◌++◌, ◌∷◌, ◌+◌, [], true, false, IfOk, OnOk, filter, map};
ghost use Rattle.memory_models.specs.Trace.{IsMemoryTrace};
ghost use Rattle.model_text.specs.InsideRows.{rows_now};
ghost use Rattle.model_text.specs.Noted.{dependencies_of_log, notes_of_log};
ghost use Rattle.model_text.specs.Views.{log_so_far};
ghost use Rattle.model_answer.specs.Judged.{TellsOrder};
ghost use Rattle.model_answer.specs.Model.{rules_of_model};
ghost use Rattle.model_answer.specs.Parts.{IsExplainedBy, is_kept_number, is_of_kept, part_of};
ghost use Rattle.model_answer.specs.Parts.{seen_by_models};
ghost use Rattle.model_answer.specs.Weak.{TellsRvwmo};

use crate::judged::{is_ordered, judge_by};
use crate::model::{AskedModel, MemoryModel};
use crate::weak::{is_explained, judged};
use model_text::rows::Rows;
use model_text::{Log, LogTrace, notes_of_log, trace_of_log};
use state_search::PartJudge;
use std::alloc::{AllocError, Allocator};
use std::collections::BTreeMap;
use trace_lines::Head;
use weak_models::Dependency;

/// Whether the operation of a number is kept.
pub(crate) fn is_kept_number(kept: &[bool], n: usize) -> bool
    ensures { result ≡ is_kept_number kept.now n }
{
    kept.get(n).copied().unwrap_or(false)
}

/// Adds a row of those of some numbers that are kept.
///
/// Errors: memory.
fn push_row<A: Allocator + Copy>(
    alloc: A,
    kept: &[bool],
    numbers: &[usize],
    rows: &mut Rows<A>,
) -> Result<(), AllocError>
    ensures { OnOk result (rows_now rows.new
        ≡ rows_now rows.old ++ filter (is_kept_number kept.now) numbers.now ∷ []) }
{
    let k = rows.count();
    rows.begin(alloc)?;
    for i in 0..numbers.len() {
        let n = numbers[i];
        if is_kept_number(kept, n) {
            rows.add(k, n)?;
        }
    }
    Ok(())
}

/// The numbers of rows that are kept, row by row.
///
/// Errors: memory.
fn kept_rows<A: Allocator + Copy>(
    alloc: A,
    kept: &[bool],
    rows: &Rows<A>,
) -> Result<Rows<A>, AllocError>
    ensures { IfOk result (λ all. rows_now all
        ≡ map (filter (is_kept_number kept.now)) (rows_now rows.now)) }
{
    let mut all = Rows::empty(alloc, 0)?;
    for k in 0..rows.count() {
        push_row(alloc, kept, rows.row(k), &mut all)?;
    }
    Ok(all)
}

/// Whether both operations of a dependency are kept.
fn is_of_kept(kept: &[bool], dependency: Dependency) -> bool
    ensures { result ≡ is_of_kept kept.now dependency }
{
    is_kept_number(kept, dependency.on) && is_kept_number(kept, dependency.operation)
}

/// The dependencies of operations that are kept.
///
/// Errors: memory.
fn kept_dependencies<A: Allocator>(
    alloc: A,
    kept: &[bool],
    dependencies: &[Dependency],
) -> Result<Vec<Dependency, A>, AllocError>
    ensures { IfOk result (λ all. all.items ≡ filter (is_of_kept kept.now) dependencies.now) }
{
    let mut all = Vec::new(alloc);
    for i in 0..dependencies.len() {
        let dependency = dependencies[i];
        if is_of_kept(kept, dependency) {
            all.push(dependency)?;
        }
    }
    Ok(all)
}

/// The log of the operations that are kept, as models see it.
///
/// Errors: memory.
pub(crate) fn part_of<A: Allocator + Copy>(
    alloc: A,
    log: &Log<A>,
    kept: &[bool],
) -> Result<Log<A>, AllocError>
    ensures { IfOk result (λ part. log_so_far part
        ≡ seen_by_models (part_of (log_so_far log.now) kept.now)) }
{
    let addresses = Vec::from_slice(alloc, &log.addresses)?;
    let rows = kept_rows(alloc, kept, &log.rows)?;
    let orders = kept_rows(alloc, kept, &log.orders)?;
    let made = Vec::from_slice(alloc, &log.made)?;
    let notes = log.notes.clone()?;
    let dependencies = kept_dependencies(alloc, kept, &log.dependencies)?;
    Ok(Log {
        head: Head::none(alloc),
        places: BTreeMap::new(alloc),
        addresses,
        rows,
        orders,
        made,
        notes,
        reserved: BTreeMap::new(alloc),
        dependencies,
        finals: BTreeMap::new(alloc),
    })
}

/// Whether some order of a model by rules explains a trace.
///
/// Errors: memory.
fn is_ordered_by<A: Allocator + Copy>(
    alloc: A,
    trace: &LogTrace<A>,
    model: MemoryModel,
) -> Result<bool, AllocError>
    requires { IsMemoryTrace (trace.now.openings + 1) trace.now.operations.items
        trace.now.writes.items }
    ensures { IfOk result (TellsOrder (rules_of_model model) trace.now.operations.items
        trace.now.writes.items) }
{
    let verdict = judge_by(alloc, model, trace)?;
    Ok(is_ordered(&verdict))
}

/// Whether some order of RISC-V's model explains the trace of a log.
///
/// Errors: memory.
fn is_weakly_ordered<A: Allocator + Copy>(
    alloc: A,
    log: &Log<A>,
    trace: &LogTrace<A>,
) -> Result<bool, AllocError>
    requires { IsMemoryTrace (trace.now.openings + 1) trace.now.operations.items
        trace.now.writes.items }
    ensures { IfOk result (TellsRvwmo (notes_of_log (log_so_far log.now))
        (dependencies_of_log (log_so_far log.now)) trace.now.operations.items
        trace.now.writes.items) }
{
    let said = notes_of_log(alloc, log)?;
    let verdict = judged(alloc, trace, &said)?;
    Ok(is_explained(&verdict))
}

/// Whether some order of a model explains a log.
///
/// Errors: memory.
fn is_explained_by<A: Allocator + Copy>(
    alloc: A,
    log: &Log<A>,
    model: AskedModel,
) -> Result<bool, AllocError>
    ensures yes { IfOk result (λ b. b ≡ true → IsExplainedBy (log_so_far log.now) model) }
    ensures no { IfOk result (λ b. b ≡ false → IsExplainedBy (log_so_far log.now) model → ⊥) }
{
    let trace = trace_of_log(alloc, log)?;
    match model {
        AskedModel::Rules(rules) => is_ordered_by(alloc, &trace, rules),
        AskedModel::Rvwmo => is_weakly_ordered(alloc, log, &trace),
    }
}

/// Whether some order of a model explains the operations of a log that are kept.
///
/// Errors: memory.
fn is_part_explained<A: Allocator + Copy>(
    alloc: A,
    log: &Log<A>,
    model: AskedModel,
    kept: &[bool],
) -> Result<bool, AllocError>
    ensures yes { IfOk result (λ b. b ≡ true
        → IsExplainedBy (part_of (log_so_far log.now) kept.now) model) }
    ensures no { IfOk result (λ b. b ≡ false
        → IsExplainedBy (part_of (log_so_far log.now) kept.now) model → ⊥) }
{
    let part = part_of(alloc, log, kept)?;
    is_explained_by(alloc, &part, model)
}

/// The judge of parts of a log by a model.
#[derive(Clone, Copy)]
pub(crate) struct LogJudge<'a, A: Allocator> {
    pub(crate) log: &'a Log<A>,
    pub(crate) model: AskedModel,
}

impl<'a, A: Allocator + Copy> PartJudge<A> for LogJudge<'a, A> {
    ghost breaks = { λ judge kept.
        IsExplainedBy (part_of (log_so_far judge.log.now) kept) judge.model → ⊥ };

    ghost stands = { λ judge kept.
        IsExplainedBy (part_of (log_so_far judge.log.now) kept) judge.model };

    fn is_broken(&self, alloc: A, kept: &[bool], left: &mut u32) -> Result<bool, AllocError> {
        *left -= 1;
        let is_explained = is_part_explained(alloc, self.log, self.model, kept)?;
        Ok(!is_explained)
    }
}
