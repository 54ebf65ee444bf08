//! From where on the operations before an answer count for it.

ghost use Rattle.std.specs.Prelude.{◌≡◌, ◌≤◌, IfOk, length, slice_index};
ghost use Rattle.trace_text.specs.Traced.{opening_of};
ghost use Rattle.trace_why.specs.Values.{AreApartAnd, IsStart};

use crate::answers::last_over;
use std::alloc::{AllocError, Allocator};
use trace_text::TraceText;

/// The event from which on answers count for an operation on a word that is issued at event n, and the
/// word that it finds there if none counts: of the operations that are over then the last one is issued
/// there, or there is none.
pub(crate) fn start<A: Allocator + Copy>(
    alloc: A,
    trace: &TraceText<A>,
    n: usize,
    address: u32,
) -> Result<(usize, Vec<u64, A>), AllocError>
    requires { n ≤ length trace.now.events }
    ensures start { IfOk result
        (λ s. IsStart (opening_of trace.now) trace.now.events address n s.1.items s.0) }
    ensures only { IfOk result (λ s. AreApartAnd
        (λ v. v ≡ slice_index (opening_of trace.now) address) s.1.items) }
{
    let mut values = Vec::new(alloc);
    if let Some(over) = last_over(trace.events(), n, address) {
        return Ok((over.event, values));
    }
    values.push(trace.opening(address))?;
    Ok((0, values))
}
