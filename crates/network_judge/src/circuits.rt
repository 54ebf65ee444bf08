//! Circles of parts of routes.

ghost use Rattle.std.specs.Prelude.{◌≡◌, ◌≤◌, ◌<◌, ◌++◌, ℕ, length, List, drop, take, IfOk, IfNone};
ghost use Rattle.std.specs.Prelude.{IfSome, OnOk};
ghost use Rattle.network_judge.specs.declared.table.Reply.{Reply};
ghost use Rattle.network_judge.specs.Table.{table_of, columns_of, IsFull};
ghost use Rattle.network_judge.specs.Columns.{AreColumns};
ghost use Rattle.network_judge.specs.Verdicts.{AllArrive};
ghost use Rattle.network_judge.specs.Replies.{AreReplies};
ghost use Rattle.network_judge.specs.Cycles.{IsCycle};
ghost use Rattle.network_judge.specs.Spans.{end_of, AreOfDistinctChannels, IsCircle, IsClearCircle};
ghost use Rattle.network_judge.specs.Spans.{starts};
ghost use Rattle.network_judge.specs.Spans.{before_step, span_at, IsAround};

use crate::spans::{Span, span_at, step_of};
use crate::tangles::first_tangle;
use crate::{By, Join, Kind, Link};
use std::alloc::{AllocError, Allocator};

/// The links of a cycle, or where a channel has two of them, those from the first on to before the
/// second.
///
/// Errors: out of memory.
pub fn without_repeats<'a, A: Allocator + Copy>(
    alloc: A,
    kinds: &[Kind],
    joins: &[Join],
    choices: &[u32],
    links: &'a [Link],
) -> Result<&'a [Link], AllocError>
    requires arrive { AllArrive (table_of kinds.now joins.now choices.now) }
    ensures cycle { IfOk result (λ circle. (replies : List Reply)
        → IsCycle (table_of kinds.now joins.now choices.now) replies links.now
        → IsCycle (table_of kinds.now joins.now choices.now) replies circle.now) }
    ensures distinct { IfOk result (λ circle. (replies : List Reply)
        → AreReplies (table_of kinds.now joins.now choices.now) replies
        → IsCycle (table_of kinds.now joins.now choices.now) replies links.now
        → AreOfDistinctChannels circle.now) }
{
    let mut places = vec![in alloc; 0usize; kinds.len()]?;
    for place in 0..links.len() {
        let x = links[place].channel;
        if x >= kinds.len() {
            return Ok(links);
        }
        let earlier = places[x];
        if earlier > 0 {
            return Ok(&links[earlier - 1..place]);
        }
        places[x] = place + 1;
    }
    Ok(links)
}

/// Where the packets of a link go: to its ejection channel, or they are answered at their end.
fn end_of(link: Link) -> usize
    ensures { result ≡ end_of link }
{
    match link.by {
        By::To(to) => to,
        By::Replied => link.channel,
    }
}

/// The parts at a cycle's links, if each has one.
///
/// Errors: out of memory.
pub fn spans_of<A: Allocator + Copy>(
    alloc: A,
    kinds: &[Kind],
    joins: &[Join],
    choices: &[u32],
    columns: &[usize],
    width: usize,
    links: &[Link],
) -> Result<Option<Vec<Span, A>>, AllocError>
    requires full { IsFull (table_of kinds.now joins.now choices.now) }
    requires columns { AreColumns kinds.now columns.now }
    requires width { width ≡ columns_of (table_of kinds.now joins.now choices.now) }
    requires arrive { AllArrive (table_of kinds.now joins.now choices.now) }
    ensures some { IfOk result (λ found. IfSome found (λ spans. (replies : List Reply)
        → AreReplies (table_of kinds.now joins.now choices.now) replies
        → IsCycle (table_of kinds.now joins.now choices.now) replies links.now
        → AreOfDistinctChannels links.now
        → IsCircle (table_of kinds.now joins.now choices.now) replies spans.items)) }
    ensures none { IfOk result (λ found. IfNone found ((replies : List Reply)
        → AreReplies (table_of kinds.now joins.now choices.now) replies
        → IsCycle (table_of kinds.now joins.now choices.now) replies links.now → ⊥)) }
{
    let mut spans = Vec::new(alloc);
    for place in 0..links.len() {
        let link = links[place];
        match span_at(
            kinds,
            joins,
            choices,
            columns,
            width,
            end_of(link),
            link.channel,
        ) {
            None => return Ok(None),
            Some(span) => spans.push(span)?,
        }
    }
    Ok(Some(spans))
}

/// The spans around from that at a place on.
///
/// Errors: out of memory.
fn turned<A: Allocator + Copy>(
    alloc: A,
    spans: &[Span],
    place: usize,
) -> Result<Vec<Span, A>, AllocError>
    requires { place ≤ length spans.now }
    ensures { IfOk result (λ new. new.items ≡ drop place spans.now ++ take place spans.now) }
{
    let mut new = Vec::with_capacity(alloc, spans.len())?;
    new.extend_from_slice(&spans[place..])?;
    new.extend_from_slice(&spans[..place])?;
    Ok(new)
}

/// Ends the spans at a place, before a step of the span there.
///
/// Errors: out of memory.
fn end_before<A: Allocator>(
    spans: &mut Vec<Span, A>,
    place: usize,
    end: usize,
) -> Result<(), AllocError>
    requires { place < length spans.old.items }
    ensures { OnOk result (spans.new.items ≡ take place spans.old.items
        ++ before_step (span_at spans.old.items place) end) }
{
    let span = spans[place];
    spans.truncate(place);
    if span.start < end {
        spans.push(Span { end, ..span })?;
    }
    Ok(())
}

/// The place in a circle of so many, counted from one of them on.
fn place_from(count: usize, first: usize, place: usize) -> usize
    requires first { first < count }
    requires place { place < count }
    ensures low { result < count }
    ensures around { IsAround count first place result }
{
    if place < first {
        count - first + place
    } else {
        place - first
    }
}

/// The spans once one of them begins earlier, where its packets pass another, which ends there; or
/// none where packets pass none.
///
/// Errors: out of memory.
pub fn sooner<A: Allocator + Copy>(
    alloc: A,
    kinds: &[Kind],
    joins: &[Join],
    choices: &[u32],
    columns: &[usize],
    width: usize,
    spans: &[Span],
) -> Result<Option<Vec<Span, A>>, AllocError>
    requires full { IsFull (table_of kinds.now joins.now choices.now) }
    requires columns { AreColumns kinds.now columns.now }
    requires width { width ≡ columns_of (table_of kinds.now joins.now choices.now) }
    ensures less { IfOk result (λ found. IfSome found (λ new.
        starts new.items < starts spans.now)) }
    ensures circle { IfOk result (λ found. IfSome found (λ new. (replies : List Reply)
        → IsCircle (table_of kinds.now joins.now choices.now) replies spans.now
        → IsCircle (table_of kinds.now joins.now choices.now) replies new.items)) }
    ensures clear { IfOk result (λ found. IfNone found ((replies : List Reply)
        → IsCircle (table_of kinds.now joins.now choices.now) replies spans.now
        → IsClearCircle (table_of kinds.now joins.now choices.now) replies spans.now)) }
{
    let tangle = match first_tangle(alloc, kinds, joins, choices, columns, width, spans)? {
        None => return Ok(None),
        Some(tangle) => tangle,
    };
    let other = spans[tangle.owner];
    let x = tangle.channel;
    let end = match step_of(
        kinds, joins, choices, columns, width, other.from, other.to, x,
    ) {
        None => return Ok(None),
        Some(end) => end,
    };
    let first = spans[tangle.place];
    let mut new = turned(alloc, spans, tangle.place)?;
    new[0] = Span {
        start: tangle.step,
        ..first
    };
    let place = place_from(spans.len(), tangle.place, tangle.owner);
    end_before(&mut new, place, end)?;
    Ok(Some(new))
}
