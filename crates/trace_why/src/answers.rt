//! The answers to the operations on a word.

ghost use Rattle.std.specs.Prelude.{◌≡◌, ◌<◌, ◌≤◌, ◌⊎◌, ℕ, Some, MatchOption, OnOk, IfErr, IfSome};
ghost use Rattle.std.specs.Prelude.{Contains, length};
ghost use Rattle.packet.specs.declared.kinds.Reply.{Reply};
ghost use Rattle.trace_laws.specs.Traces.{IsTrace};
ghost use Rattle.trace_why.specs.declared.calls.CallAt.{CallAt};
ghost use Rattle.trace_why.specs.Calls.{IsAnsweredOn, IsOver};
ghost use Rattle.trace_why.specs.Values.{left_word, AreApart, AreApartAnd, AreLeftBetween};
ghost use Rattle.trace_why.specs.Values.{IsLeftBefore, IsOverfullWord};

use crate::calls::{CallAt, issue_before};
use crate::untold::Untold;
use crate::values::add;
use packet::{Op, Reply, apply};
use std::alloc::Allocator;
use trace_laws::Event;

/// The operation on a word that event i answers, and its reply.
fn answered_on(events: &[Event], i: usize, address: u32) -> Option<(CallAt, Reply)>
    requires trace { (words : ℕ) × IsTrace words events.now }
    requires inside { i < length events.now }
    ensures { MatchOption result
        ((c : CallAt) (reply : Reply) → IsAnsweredOn events.now i address c reply → ⊥)
        (λ r. IsAnsweredOn events.now i address r.0 r.1) }
{
    if let Event::Answer(id, reply) = events[i]
        && let Some(found) = issue_before(events, i, id)
        && found.call.operation.address == address
    {
        return Some((found, reply));
    }
    None
}

/// Of two operations, if there are two, the one that is issued later.
fn later(first: Option<CallAt>, second: Option<(CallAt, Reply)>) -> Option<CallAt>
    ensures { IfSome result
        (λ c. (first ≡ Some c) ⊎ ((reply : Reply) × (second ≡ Some (c, reply)))) }
{
    let Some((found, _)) = second else {
        return first;
    };
    match first {
        Some(other) if other.event > found.event => Some(other),
        _ => Some(found),
    }
}

/// Of the operations on a word that are answered before event n the one that is issued last.
pub(crate) fn last_over(events: &[Event], n: usize, address: u32) -> Option<CallAt>
    requires trace { (words : ℕ) × IsTrace words events.now }
    requires inside { n ≤ length events.now }
    ensures { IfSome result (IsOver events.now n address) }
{
    let mut last = None;
    for i in 0..n {
        last = later(last, answered_on(events, i, address));
    }
    last
}

/// The word that an operation left which was answered so.
fn left_word(op: Op, reply: Reply) -> u64
    ensures { result ≡ left_word op reply }
{
    match reply {
        Reply::Old(word) => apply(op, word).0,
        Reply::Ok => apply(op, 0).0,
    }
}

/// Adds the word that each operation left which an event from one up to event k answers.
pub(crate) fn add_answers<A: Allocator>(
    events: &[Event],
    from: usize,
    k: usize,
    address: u32,
    values: &mut Vec<u64, A>,
    bound: usize,
) -> Result<(), Untold>
    requires trace { (words : ℕ) × IsTrace words events.now }
    requires inside { k ≤ length events.now }
    requires apart { AreApart values.old.items }
    ensures kept { OnOk result
        ((v : ℕ) → Contains values.old.items v → Contains values.new.items v) }
    ensures all { OnOk result (AreLeftBetween events.now from k address values.new.items) }
    ensures only { OnOk result (AreApartAnd
        (λ v. Contains values.old.items v ⊎ IsLeftBefore events.now k address v)
        values.new.items) }
    ensures untold { IfErr result (IsOverfullWord
        (λ v. Contains values.old.items v ⊎ IsLeftBefore events.now k address v) bound) }
{
    for i in from..k {
        if let Some((found, reply)) = answered_on(events, i, address) {
            add(values, left_word(found.call.operation.op, reply), bound)?;
        }
    }
    Ok(())
}
