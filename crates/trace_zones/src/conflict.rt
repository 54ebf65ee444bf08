//! Certificates that no order explains a trace.

ghost use Rattle.std.specs.Prelude.{◌≡◌, ◌≤◌, ◌<◌, ℕ, true, length};
ghost use Rattle.std.specs.List.Sorted.{IsNonDecreasing};
ghost use Rattle.trace_zones.specs.declared.conflict.Conflict.TheVariants.{Crossed, Early};
ghost use Rattle.trace_zones.specs.declared.conflict.Conflict.TheVariants.{Unwritten, Twice};
ghost use Rattle.trace_zones.specs.Conflicts.{IsBefore, IsConflict, IsOverBefore};
ghost use Rattle.trace_zones.specs.Zones.{AreApartSets, is_listed};

use crate::rules::{has, rises};
use crate::told::{issue_at, told_at};
use crate::zone::{
    Zone, is_alone, is_leaver, is_reader, is_witness, is_writer, is_zone, leaves_it,
};
use std::alloc::Allocator;
use trace_laws::Event;

/// How one set is seen before another, by the events that issue the operations.
#[derive(Clone, Copy)]
pub enum Before {
    /// An operation that sees the one is answered before another is issued that sees the other.
    Times { first: usize, second: usize },
    /// An operation found the one and left the other.
    Atomic { event: usize },
    /// The word is in the one at first, and an operation sees the other.
    Opening { event: usize },
}

/// Why no order explains a trace, on one word.
#[derive(Drop)]
pub enum Conflict<A: Allocator> {
    /// Each of two zones is seen before the other.
    Crossed {
        one: Zone<A>,
        other: Zone<A>,
        before: Before,
        behind: Before,
    },
    /// What was found is written by an operation that was issued later.
    Early {
        zone: Zone<A>,
        writer: usize,
    },
    /// What was found no operation may have written.
    Unwritten {
        zone: Zone<A>,
    },
    /// Two operations found a zone and left it.
    Twice {
        zone: Zone<A>,
        first: usize,
        second: usize,
    },
}

/// Whether event i issues an operation that is answered before event j.
fn is_over_before(events: &[Event], partners: &[Option<usize>], i: usize, j: usize) -> bool
    ensures { result ≡ true → IsOverBefore events.now i j }
{
    match issue_at(events, i) {
        Some(call) => match told_at(events, partners, i, call.id) {
            Some(known) => known.event < j,
            None => false,
        },
        None => false,
    }
}

/// Whether one set is seen before another, as it is said.
fn is_before<A: Allocator>(
    initial: u64,
    events: &[Event],
    partners: &[Option<usize>],
    word: usize,
    one: &Zone<A>,
    other: &Zone<A>,
    before: Before,
) -> bool
    requires one { IsNonDecreasing one.now.words.items }
    requires other { IsNonDecreasing other.now.words.items }
    ensures { result ≡ true → IsBefore initial events.now word (is_listed one.now.words.items)
        (is_listed other.now.words.items) before }
{
    match before {
        Before::Times { first, second } => {
            is_over_before(events, partners, first, second)
                && is_witness(initial, events, partners, word, one, first)
                && is_witness(initial, events, partners, word, other, second)
        }
        Before::Atomic { event } => {
            is_reader(events, partners, word, &one.words, event)
                && is_leaver(events, partners, word, &other.words, event)
        }
        Before::Opening { event } => {
            has(&one.words, initial) && is_witness(initial, events, partners, word, other, event)
        }
    }
}

/// Whether no value is in both sets.
fn are_apart(one: &[u64], other: &[u64]) -> bool
    requires { IsNonDecreasing other.now }
    ensures { result ≡ true → AreApartSets (is_listed one.now) (is_listed other.now) }
{
    for i in 0..one.len() {
        if has(other, one[i]) {
            return false;
        }
    }
    true
}

/// Whether two zones are in conflict, as it is said.
fn are_crossed<A: Allocator>(
    initial: u64,
    events: &[Event],
    partners: &[Option<usize>],
    word: usize,
    one: &Zone<A>,
    other: &Zone<A>,
    before: Before,
    behind: Before,
) -> bool
    ensures { result ≡ true
        → IsConflict initial events.now word (Crossed one.now other.now before behind) }
{
    rises(&one.words)
        && rises(&other.words)
        && are_apart(&one.words, &other.words)
        && is_zone(initial, events, partners, word, one)
        && is_zone(initial, events, partners, word, other)
        && is_before(initial, events, partners, word, one, other, before)
        && is_before(initial, events, partners, word, other, one, behind)
}

/// Whether what was found no operation may have written.
fn is_unwritten<A: Allocator>(
    initial: u64,
    events: &[Event],
    partners: &[Option<usize>],
    word: usize,
    zone: &Zone<A>,
) -> bool
    ensures { result ≡ true → IsConflict initial events.now word (Unwritten zone.now) }
{
    rises(&zone.words)
        && is_reader(events, partners, word, &zone.words, zone.reader)
        && !has(&zone.words, initial)
        && is_alone(events, partners, word, &zone.words, None)
}

/// Whether what was found is written by an operation that was issued later.
fn is_early<A: Allocator>(
    initial: u64,
    events: &[Event],
    partners: &[Option<usize>],
    word: usize,
    zone: &Zone<A>,
    writer: usize,
) -> bool
    ensures { result ≡ true → IsConflict initial events.now word (Early zone.now writer) }
{
    if !rises(&zone.words) {
        return false;
    }
    if !is_reader(events, partners, word, &zone.words, zone.reader) {
        return false;
    }
    if !is_writer(initial, events, partners, word, zone, writer) {
        return false;
    }
    is_over_before(events, partners, zone.reader, writer)
}

/// Whether two operations found a zone and left it.
fn is_left_twice<A: Allocator>(
    initial: u64,
    events: &[Event],
    partners: &[Option<usize>],
    word: usize,
    zone: &Zone<A>,
    first: usize,
    second: usize,
) -> bool
    ensures { result ≡ true → IsConflict initial events.now word (Twice zone.now first second) }
{
    first != second
        && rises(&zone.words)
        && is_zone(initial, events, partners, word, zone)
        && leaves_it(events, partners, word, &zone.words, first)
        && leaves_it(events, partners, word, &zone.words, second)
}

/// Whether a certificate holds: then no order explains the trace.
pub fn conflict_holds<A: Allocator>(
    initial: u64,
    events: &[Event],
    partners: &[Option<usize>],
    word: usize,
    conflict: &Conflict<A>,
) -> bool
    ensures { result ≡ true → IsConflict initial events.now word conflict.now }
{
    match conflict {
        Conflict::Crossed {
            one,
            other,
            before,
            behind,
        } => are_crossed(
            initial, events, partners, word, one, other, *before, *behind,
        ),
        Conflict::Early { zone, writer } => {
            is_early(initial, events, partners, word, zone, *writer)
        }
        Conflict::Unwritten { zone } => is_unwritten(initial, events, partners, word, zone),
        Conflict::Twice {
            zone,
            first,
            second,
        } => is_left_twice(initial, events, partners, word, zone, *first, *second),
    }
}
