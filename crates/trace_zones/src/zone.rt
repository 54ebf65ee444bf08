//! Sets of words that at most one operation may enter.

ghost use Rattle.std.specs.Prelude.{◌≡◌, ◌≤◌, ◌<◌, ℕ, true, false, Some, MatchOption, length};
ghost use Rattle.std.specs.List.Sorted.{IsNonDecreasing};
ghost use Rattle.trace_laws.specs.declared.event.Call.{Call};
ghost use Rattle.trace_laws.specs.Traces.{TraceIssuesAt};
ghost use Rattle.trace_zones.specs.Conflicts.{IsSetReader, IsSetLeaver, IsSetLeftBy, IsSetWriter};
ghost use Rattle.trace_zones.specs.Conflicts.{IsSetWitness, EntersOnly};
ghost use Rattle.trace_zones.specs.Zones.{IsZone, MayEnter, is_listed};

use crate::rules::{avoids, finds, has, leaves, may_enter};
use crate::told::{issue_at, told_at};
use std::alloc::Allocator;
use trace_laws::{Call, Event};

/// Words that rise, the event that issues the only operation which may enter their set, if there is one, and an event
/// that issues an operation which found one of them.
#[derive(Drop)]
pub struct Zone<A: Allocator> {
    pub words: Vec<u64, A>,
    pub entry: Option<usize>,
    pub reader: usize,
}

/// The operation that event i issues, if it is on word `word`.
fn issue_on(events: &[Event], word: usize, i: usize) -> Option<Call>
    ensures { MatchOption result
        ((c : Call) → TraceIssuesAt events.now i c → c.operation.address ≡ word → ⊥)
        (λ c. TraceIssuesAt events.now i c × (c.operation.address ≡ word)) }
{
    match issue_at(events, i) {
        Some(call) => {
            if call.operation.address as usize == word {
                Some(call)
            } else {
                None
            }
        }
        None => None,
    }
}

/// Whether event i issues an operation that may enter a set.
fn may_enter_at(
    events: &[Event],
    partners: &[Option<usize>],
    word: usize,
    set: &[u64],
    i: usize,
) -> bool
    requires sorted { IsNonDecreasing set.now }
    ensures { result ≡ false → (c : Call) → TraceIssuesAt events.now i c
        → MayEnter events.now word (is_listed set.now) c → ⊥ }
{
    match issue_on(events, word, i) {
        Some(call) => may_enter(
            set,
            call.operation.op,
            told_at(events, partners, i, call.id),
        ),
        None => false,
    }
}

/// Whether this event is the entry.
fn is_entry(entry: Option<usize>, i: usize) -> bool
    ensures { result ≡ true → entry ≡ Some i }
{
    match entry {
        Some(event) => event == i,
        None => false,
    }
}

/// Whether event i is not the entry, and issues an operation that may enter a set.
fn may_enter_else(
    events: &[Event],
    partners: &[Option<usize>],
    word: usize,
    set: &[u64],
    entry: Option<usize>,
    i: usize,
) -> bool
    requires { IsNonDecreasing set.now }
    ensures { result ≡ false → (c : Call) → TraceIssuesAt events.now i c
        → MayEnter events.now word (is_listed set.now) c → entry ≡ Some i }
{
    !is_entry(entry, i) && may_enter_at(events, partners, word, set, i)
}

/// Whether no operation may enter a set but the one that this event issues.
pub(crate) fn is_alone(
    events: &[Event],
    partners: &[Option<usize>],
    word: usize,
    set: &[u64],
    entry: Option<usize>,
) -> bool
    requires { IsNonDecreasing set.now }
    ensures { result ≡ true → EntersOnly events.now word (is_listed set.now) entry }
{
    for i in 0..events.len() {
        if may_enter_else(events, partners, word, set, entry, i) {
            return false;
        }
    }
    true
}

/// Whether a set is a zone, of which the event of the entry is known.
pub(crate) fn is_zone<A: Allocator>(
    initial: u64,
    events: &[Event],
    partners: &[Option<usize>],
    word: usize,
    zone: &Zone<A>,
) -> bool
    requires sorted { IsNonDecreasing zone.now.words.items }
    ensures { result ≡ true → IsZone initial events.now word (is_listed zone.now.words.items) }
{
    is_alone(events, partners, word, &zone.words, zone.entry)
        && (zone.entry.is_none() || !has(&zone.words, initial))
}

/// Whether event i issues an operation that was answered and found a word of a set.
pub(crate) fn is_reader(
    events: &[Event],
    partners: &[Option<usize>],
    word: usize,
    set: &[u64],
    i: usize,
) -> bool
    requires sorted { IsNonDecreasing set.now }
    ensures { result ≡ true → IsSetReader events.now word (is_listed set.now) i }
{
    match issue_on(events, word, i) {
        Some(call) => {
            let known = told_at(events, partners, i, call.id);
            known.is_some() && finds(set, call.operation.op, known)
        }
        None => false,
    }
}

/// Whether event i issues an operation that was answered and left a word of a set.
pub(crate) fn is_leaver(
    events: &[Event],
    partners: &[Option<usize>],
    word: usize,
    set: &[u64],
    i: usize,
) -> bool
    requires sorted { IsNonDecreasing set.now }
    ensures { result ≡ true → IsSetLeaver events.now word (is_listed set.now) i }
{
    match issue_on(events, word, i) {
        Some(call) => {
            let known = told_at(events, partners, i, call.id);
            known.is_some() && leaves(set, call.operation.op, known)
        }
        None => false,
    }
}

/// Whether event i issues an operation that was answered, found a word of a set and left another.
pub(crate) fn leaves_it(
    events: &[Event],
    partners: &[Option<usize>],
    word: usize,
    set: &[u64],
    i: usize,
) -> bool
    requires sorted { IsNonDecreasing set.now }
    ensures { result ≡ true → IsSetLeftBy events.now word (is_listed set.now) i }
{
    match issue_on(events, word, i) {
        Some(call) => {
            let known = told_at(events, partners, i, call.id);
            let op = call.operation.op;
            known.is_some() && finds(set, op, known) && avoids(set, op, known)
        }
        None => false,
    }
}

/// Whether event i issues the only operation that may enter a set, which was found, and was entered.
pub(crate) fn is_writer<A: Allocator>(
    initial: u64,
    events: &[Event],
    partners: &[Option<usize>],
    word: usize,
    zone: &Zone<A>,
    i: usize,
) -> bool
    requires sorted { IsNonDecreasing zone.now.words.items }
    ensures { result ≡ true
        → IsSetWriter initial events.now word (is_listed zone.now.words.items) i }
{
    if !is_entry(zone.entry, i) {
        return false;
    }
    let Some(_call) = issue_at(events, i) else {
        return false;
    };
    if has(&zone.words, initial) {
        return false;
    }
    if !is_reader(events, partners, word, &zone.words, zone.reader) {
        return false;
    }
    is_alone(events, partners, word, &zone.words, zone.entry)
}

/// Whether event i issues an operation that sees a set.
pub(crate) fn is_witness<A: Allocator>(
    initial: u64,
    events: &[Event],
    partners: &[Option<usize>],
    word: usize,
    zone: &Zone<A>,
    i: usize,
) -> bool
    requires sorted { IsNonDecreasing zone.now.words.items }
    ensures { result ≡ true
        → IsSetWitness initial events.now word (is_listed zone.now.words.items) i }
{
    is_reader(events, partners, word, &zone.words, i)
        || is_leaver(events, partners, word, &zone.words, i)
        || is_writer(initial, events, partners, word, zone, i)
}
