//! The answers of all processors.

ghost use Rattle.std.specs.Prelude.{◌≡◌, IfOk, map};
ghost use Rattle.core_laws.specs.Machine.{shown};

use crate::reached::Reached;
use machine_core::Answer;
use std::alloc::{AllocError, Allocator};

/// The answers of each processor, by tile.
///
/// Errors: out of memory.
pub fn answers_of<A: Allocator + Copy, S: Reached>(
    alloc: A,
    reached: &S,
) -> Result<Vec<&[Answer], A>, AllocError>
    ensures { IfOk result
        (λ rows. map (λ own. own.now) rows.items ≡ (shown (S.core reached.now)).answers) }
{
    reached.reports_well();
    let mut rows = Vec::new(alloc);
    for processor in 0..reached.torus().tiles() {
        if let Some(answers) = reached.answers(processor) {
            rows.push(answers)?;
        }
    }
    Ok(rows)
}
