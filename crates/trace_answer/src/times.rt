//! When the operations of a trace were issued and answered.

ghost use Rattle.std.specs.Prelude.{◌≡◌, ◌≤◌, ◌<◌, ℕ, IfOk, length};
ghost use Rattle.trace_laws.specs.declared.event.Call.{Call};
ghost use Rattle.trace_laws.specs.Traces.{IsTrace, TraceIssuesAt};
ghost use Rattle.trace_answer.specs.Times.{AreTimes, times_noted, time_of};

use std::alloc::{AllocError, Allocator};
use trace_laws::Event;

/// When an operation of a trace was issued and answered: how many events came before.
#[derive(Clone, Copy)]
pub struct Times {
    pub issued: u32,
    /// `None` where it wasn't answered.
    pub answered: Option<u32>,
}

/// Notes an event.
fn note<A: Allocator>(times: &mut Vec<Times, A>, at: u32, event: Event)
    ensures { times.new.items ≡ times_noted times.old.items at event }
{
    match event {
        Event::Issue(call) => {
            if call.id < times.len() as u64 {
                times[call.id as usize].issued = at;
            }
        }
        Event::Answer(id, _reply) => {
            if id < times.len() as u64 {
                times[id as usize].answered = Some(at);
            }
        }
    }
}

/// The times of so many operations of a trace.
pub(crate) fn times_of<A: Allocator + Copy>(
    alloc: A,
    events: &[Event],
    count: usize,
) -> Result<Vec<Times, A>, AllocError>
    requires few { length events.now ≤ 196608 }
    requires trace { (words : ℕ) × IsTrace words events.now }
    requires counted { (i : ℕ) (c : Call) → TraceIssuesAt events.now i c → c.id < count }
    ensures { IfOk result (λ times. AreTimes events.now count times.items) }
{
    let none = Times {
        issued: 0,
        answered: None,
    };
    let mut times = vec![in alloc; none; count]?;
    for i in 0..events.len() {
        note(&mut times, i as u32, events[i]);
    }
    Ok(times)
}

/// The times of the operation of a number.
pub(crate) fn time_of(times: &[Times], id: u64) -> Times
    ensures { result ≡ time_of times.now id }
{
    let none = Times {
        issued: 0,
        answered: None,
    };
    if id >= times.len() as u64 {
        return none;
    }
    times[id as usize]
}
