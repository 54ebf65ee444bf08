//! Which step of its processor's program each operation of a report is.

ghost use Rattle.std.specs.Prelude.{◌≡◌, ◌≤◌, List, IfOk, length, unwrap_or};
ghost use Rattle.std.specs.BTreeMap.{get};
ghost use Rattle.std.specs.Ordering.{nat_cmp};
ghost use Rattle.model_text.specs.Traces.{ArePlaces};
ghost use Rattle.report_model.specs.declared.row.ProgramStep.{ProgramStep};
ghost use Rattle.report_model.specs.Indexes.{issues_of_steps, name_issued, names_of};
ghost use Rattle.report_model.specs.Rows.{event_limit};

use crate::entry::Named;
use crate::row::{ProgramStep, step_at};
use model_text::placing::place_of;
use std::alloc::{AllocError, Allocator};
use std::collections::BTreeMap;

/// How many steps a processor made so far.
fn made_by<A: Allocator>(counts: &BTreeMap<u32, u32, A>, p: u32) -> u32
    ensures { result ≡ unwrap_or (get nat_cmp counts.now p) 0 }
{
    counts.get(&p).copied().unwrap_or(0)
}

/// The numbers of the issues of steps.
///
/// Errors: out of memory.
pub(crate) fn issues_of_steps<A: Allocator>(
    alloc: A,
    steps: &[ProgramStep],
) -> Result<Vec<usize, A>, AllocError>
    ensures { IfOk result (λ issues. issues.items ≡ issues_of_steps steps.now) }
{
    steps.iter().map(|step| step.issued as usize).collect(alloc)
}

/// The names of steps.
///
/// Errors: out of memory.
pub(crate) fn names_of<A: Allocator + Copy>(
    alloc: A,
    steps: &[ProgramStep],
) -> Result<Vec<Named, A>, AllocError>
    requires { length steps.now ≤ 25165952 }
    ensures { IfOk result (λ names. names.items ≡ names_of steps.now) }
{
    let mut counts = BTreeMap::new(alloc);
    let mut names = Vec::new(alloc);
    for j in 0..steps.len() {
        let processor = step_at(steps, j).source;
        let index = made_by(&counts, processor);
        names.push(Named { processor, index })?;
        counts.insert(processor, index + 1)?;
    }
    Ok(names)
}

/// The name of the operation whose issue has a number, by the places of the issues.
pub(crate) fn name_issued(names: &[Named], issues: &[usize], places: &[usize], n: usize) -> Named
    requires places { ArePlaces issues.now (length places.now) places.now }
    ensures { (steps : List ProgramStep) → names.now ≡ names_of steps
        → issues.now ≡ issues_of_steps steps → length places.now ≡ event_limit issues.now
        → result ≡ name_issued steps n }
{
    match names.get(place_of(issues, places, n)) {
        Some(name) => *name,
        None => Named {
            processor: 0,
            index: 0,
        },
    }
}
