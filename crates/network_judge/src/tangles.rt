//! Where packets on the way to a span pass another.

ghost use Rattle.std.specs.Prelude.{◌≡◌, ◌≤◌, ◌<◌, ℕ, length, List, slice_index, IfOk, IfNone};
ghost use Rattle.std.specs.Prelude.{IfSome};
ghost use Rattle.network_judge.specs.Table.{table_of, columns_of, IsFull};
ghost use Rattle.network_judge.specs.Columns.{AreColumns};
ghost use Rattle.network_judge.specs.Spans.{span_at, IsSpanNoted, AreOwners, IsLastMet, MeetsNone};
ghost use Rattle.network_judge.specs.Spans.{IsTangle, IsUntangled};

use crate::check::next_of;
use crate::spans::Span;
use crate::{Join, Kind};
use std::alloc::{AllocError, Allocator};

/// A channel at a step of a walk.
#[derive(Clone, Copy)]
pub struct Met {
    /// The step.
    pub step: usize,
    /// The channel.
    pub channel: usize,
}

/// Packets on the way to a span pass another.
#[derive(Clone, Copy)]
pub struct Tangle {
    /// The place of the first.
    pub place: usize,
    /// The step of its route.
    pub step: usize,
    /// The channel.
    pub channel: usize,
    /// The place of the other.
    pub owner: usize,
}

/// Notes a number at a span's channels.
fn note(
    kinds: &[Kind],
    joins: &[Join],
    choices: &[u32],
    columns: &[usize],
    width: usize,
    owners: &mut [usize],
    span: Span,
    number: usize,
)
    requires full { IsFull (table_of kinds.now joins.now choices.now) }
    requires columns { AreColumns kinds.now columns.now }
    requires width { width ≡ columns_of (table_of kinds.now joins.now choices.now) }
    ensures { IsSpanNoted (table_of kinds.now joins.now choices.now) span number owners.old
        owners.new }
{
    let mut at = span.from;
    for step in 0..span.end {
        if step >= span.start && at < owners.len() {
            owners[at] = number;
        }
        match next_of(kinds, joins, choices, columns, width, at, span.to) {
            None => return,
            Some(next) => at = next,
        }
    }
}

/// The number of each span at its channels, counted from 1.
///
/// Errors: out of memory.
fn owners_of<A: Allocator + Copy>(
    alloc: A,
    kinds: &[Kind],
    joins: &[Join],
    choices: &[u32],
    columns: &[usize],
    width: usize,
    spans: &[Span],
) -> Result<Vec<usize, A>, AllocError>
    requires full { IsFull (table_of kinds.now joins.now choices.now) }
    requires columns { AreColumns kinds.now columns.now }
    requires width { width ≡ columns_of (table_of kinds.now joins.now choices.now) }
    ensures { IfOk result (λ owners. AreOwners (table_of kinds.now joins.now choices.now)
        spans.now (length spans.now) owners.items) }
{
    let mut owners = vec![in alloc; 0usize; kinds.len()]?;
    for place in 0..spans.len() {
        let span = spans[place];
        let number = place + 1;
        note(
            kinds,
            joins,
            choices,
            columns,
            width,
            &mut owners,
            span,
            number,
        );
    }
    Ok(owners)
}

/// The number noted at a channel, or 0.
fn owner_at(owners: &[usize], x: usize) -> usize
    ensures { result ≡ slice_index owners.now x }
{
    if x < owners.len() { owners[x] } else { 0 }
}

/// The last channel on the way to a span that has an owner, if one has.
fn last_met(
    kinds: &[Kind],
    joins: &[Join],
    choices: &[u32],
    columns: &[usize],
    width: usize,
    owners: &[usize],
    span: Span,
) -> Option<Met>
    requires full { IsFull (table_of kinds.now joins.now choices.now) }
    requires columns { AreColumns kinds.now columns.now }
    requires width { width ≡ columns_of (table_of kinds.now joins.now choices.now) }
    ensures some { IfSome result
        (IsLastMet (table_of kinds.now joins.now choices.now) owners.now span) }
    ensures none { IfNone result
        (MeetsNone (table_of kinds.now joins.now choices.now) owners.now span) }
{
    let mut at = span.from;
    let mut found = None;
    for step in 0..span.start {
        if owner_at(owners, at) != 0 {
            found = Some(Met { step, channel: at });
        }
        match next_of(kinds, joins, choices, columns, width, at, span.to) {
            None => return found,
            Some(next) => at = next,
        }
    }
    found
}

/// A span on the way to which packets pass another, and where they do so last; none where packets
/// pass none.
///
/// Errors: out of memory.
pub fn first_tangle<A: Allocator + Copy>(
    alloc: A,
    kinds: &[Kind],
    joins: &[Join],
    choices: &[u32],
    columns: &[usize],
    width: usize,
    spans: &[Span],
) -> Result<Option<Tangle>, AllocError>
    requires full { IsFull (table_of kinds.now joins.now choices.now) }
    requires columns { AreColumns kinds.now columns.now }
    requires width { width ≡ columns_of (table_of kinds.now joins.now choices.now) }
    ensures some { IfOk result (λ found. IfSome found
        (IsTangle (table_of kinds.now joins.now choices.now) spans.now)) }
    ensures none { IfOk result (λ found. IfNone found
        (IsUntangled (table_of kinds.now joins.now choices.now) spans.now)) }
{
    let owners = owners_of(alloc, kinds, joins, choices, columns, width, spans)?;
    for place in 0..spans.len() {
        if let Some(met) = last_met(kinds, joins, choices, columns, width, &owners, spans[place]) {
            return Ok(Some(Tangle {
                place,
                step: met.step,
                channel: met.channel,
                owner: owner_at(&owners, met.channel) - 1,
            }));
        }
    }
    Ok(None)
}
