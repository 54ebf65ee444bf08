//! The numbers of the events of a report.

ghost use Rattle.std.specs.Prelude.{◌≡◌, ◌≤◌, ℕ, IfOk, Some, length, nat_le, count_by, option_map};
ghost use Rattle.trace_answer.specs.Numbers.{waits_of, number_behind, NeverFalls};
ghost use Rattle.trace_answer.specs.Times.{time_of};

use crate::times::{Times, time_of};
use std::alloc::{AllocError, Allocator};
use trace_laws::Call;

/// How many events of the trace come before each service.
pub(crate) fn waits_of<A: Allocator + Copy>(
    alloc: A,
    times: &[Times],
    order: &[Call],
) -> Result<Vec<u32, A>, AllocError>
    requires { (id : ℕ) → (time_of times.now id).issued ≤ 196608 }
    ensures { IfOk result (λ waits. waits.items ≡ waits_of times.now order.now) }
{
    let mut waits = Vec::new(alloc);
    let mut least = 0u32;
    for i in 0..order.len() {
        let call = order[i];
        least = least.max(time_of(times, call.id).issued + 1);
        waits.push(least)?;
    }
    Ok(waits)
}

/// How many services wait for no more events than these.
fn ready(waits: &[u32], at: u32) -> usize
    requires { NeverFalls waits.now }
    ensures value { result ≡ count_by (λ w. nat_le w at) waits.now }
    ensures bound { result ≤ length waits.now }
{
    let mut low = 0;
    let mut high = waits.len();
    while low < high {
        let middle = low + (high - low) / 2;
        if waits[middle] <= at {
            low = middle + 1;
        } else {
            high = middle;
        }
    }
    low
}

/// The number of the event of a trace that so many come before.
pub(crate) fn number_behind(waits: &[u32], at: u32) -> u32
    requires rising { NeverFalls waits.now }
    requires few { length waits.now ≤ 65536 }
    requires low { at ≤ 196608 }
    ensures { result ≡ number_behind waits.now at }
{
    at + ready(waits, at) as u32 + 1
}

/// The number of an answer, if there is one.
pub(crate) fn answer_number(waits: &[u32], at: Option<u32>) -> Option<u32>
    requires rising { NeverFalls waits.now }
    requires few { length waits.now ≤ 65536 }
    requires low { (n : ℕ) → at ≡ Some n → n ≤ 196608 }
    ensures { result ≡ option_map (number_behind waits.now) at }
{
    match at {
        Some(n) => Some(number_behind(waits, n)),
        None => None,
    }
}
