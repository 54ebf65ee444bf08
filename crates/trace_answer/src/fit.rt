//! Whether an order of a trace is within the limits of a report.

ghost use Rattle.std.specs.Prelude.{◌≡◌, ◌≤◌, ◌≢◌, IfOk, IfErr};
ghost use Rattle.trace_answer.specs.Fitting.{AreFit, IsFit, IsUnfit, processors_of};

use crate::unfit::Unfit;
use std::alloc::Allocator;
use trace_laws::Call;
use trace_text::{Issued, TraceText};

/// How many processors there are, if they and their operations are within the limits.
fn processors<A: Allocator>(trace: &TraceText<A>, order: &[Call]) -> Result<u32, Unfit>
    ensures value { IfOk result (λ n. n ≡ processors_of trace.now.issued) }
    ensures fit { IfOk result (λ _. AreFit trace.now.issued) }
    ensures unfit { IfErr result (IsUnfit trace.now order.now) }
{
    let issued = trace.issued();
    let mut count = 0u32;
    for i in 0..issued.len() {
        let operation = issued[i];
        if operation.processor >= 64 {
            return Err(Unfit::Processors);
        }
        if operation.index >= 4096 {
            return Err(Unfit::Indexes);
        }
        count = count.max(operation.processor + 1);
    }
    Ok(count)
}

/// How many processors there are, if all is within the limits.
pub(crate) fn fitting<A: Allocator>(trace: &TraceText<A>, order: &[Call]) -> Result<u32, Unfit>
    ensures value { IfOk result (λ n. n ≡ processors_of trace.now.issued) }
    ensures fit { IfOk result (λ _. IsFit trace.now order.now) }
    ensures unfit { IfErr result (IsUnfit trace.now order.now) }
{
    if trace.words() > 65536 {
        return Err(Unfit::Words);
    }
    if order.len() > 65536 {
        return Err(Unfit::Operations);
    }
    if trace.events().len() > 196608 - order.len() {
        return Err(Unfit::Events);
    }
    processors(trace, order)
}
