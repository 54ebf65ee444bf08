//! The columns of the choices: one for each ejection channel, in channel order.

ghost use Rattle.std.specs.Prelude.{◌≡◌, IfOk};
ghost use Rattle.network_judge.specs.Table.{ejects};
ghost use Rattle.network_judge.specs.Columns.{AreColumns, AreColumnEnds};

use crate::table::Kind;
use std::alloc::{AllocError, Allocator};

/// Whether a kind is that of ejection channels.
fn ejects(kind: Kind) -> bool
    ensures { result ≡ ejects kind }
{
    match kind {
        Kind::Injection => false,
        Kind::Hop => false,
        Kind::Ejection => true,
    }
}

/// The column of each channel: how many ejection channels come before it.
///
/// Errors: out of memory.
pub fn columns_of<A: Allocator + Copy>(
    alloc: A,
    kinds: &[Kind],
) -> Result<Vec<usize, A>, AllocError>
    ensures { IfOk result (λ columns. AreColumns kinds.now columns.items) }
{
    let mut columns = Vec::with_capacity(alloc, kinds.len())?;
    let mut before = 0;
    for x in 0..kinds.len() {
        columns.push(before)?;
        if ejects(kinds[x]) {
            before += 1;
        }
    }
    Ok(columns)
}

/// The ejection channel of each column.
///
/// Errors: out of memory.
pub fn ends_of<A: Allocator + Copy>(alloc: A, kinds: &[Kind]) -> Result<Vec<usize, A>, AllocError>
    ensures { IfOk result (λ ends. AreColumnEnds kinds.now ends.items) }
{
    let mut ends = Vec::new(alloc);
    for x in 0..kinds.len() {
        if ejects(kinds[x]) {
            ends.push(x)?;
        }
    }
    Ok(ends)
}
