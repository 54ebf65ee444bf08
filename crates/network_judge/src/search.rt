//! The search for a jam, from a cycle.

ghost use Rattle.std.specs.Prelude.{◌≡◌, ◌<◌, ◌++◌, ◌-◌, IfOk, IfSome, IsSome, OnOk};
ghost use Rattle.network_judge.specs.Table.{table_of, columns_of, IsFull};
ghost use Rattle.network_judge.specs.Columns.{AreColumns};
ghost use Rattle.network_judge.specs.Verdicts.{AllArrive};
ghost use Rattle.network_judge.specs.Replies.{AreReplies};
ghost use Rattle.network_judge.specs.Cycles.{IsCycle};
ghost use Rattle.network_judge.specs.Jams.{IsJam};
ghost use Rattle.network_judge.specs.Spans.{fills_on, span_fills};

use crate::check::is_jam;
use crate::circuits::{sooner, spans_of, without_repeats};
use crate::columns::{columns_of, ends_of};
use crate::spans::Span;
use crate::{Fill, Join, Kind, Link, Reply};
use std::alloc::{AllocError, Allocator};

/// Adds the channels of a span, each with its packets.
fn push_fills<A: Allocator>(items: &mut Vec<Fill, A>, span: Span) -> Result<(), AllocError>
    ensures { OnOk result (items.new.items
        ≡ items.old.items ++ fills_on span span.start (span.end - span.start)) }
{
    for step in span.start..span.end {
        items.push(Fill {
            from: span.from,
            to: span.to,
            step,
        })?;
    }
    Ok(())
}

/// The channels of the spans, each with its packets.
///
/// Errors: out of memory.
fn items_of<A: Allocator + Copy>(alloc: A, spans: &[Span]) -> Result<Vec<Fill, A>, AllocError>
    ensures { IfOk result (λ items. items.items ≡ span_fills spans.now) }
{
    let mut items = Vec::new(alloc);
    for place in 0..spans.len() {
        push_fills(&mut items, spans[place])?;
    }
    Ok(items)
}

/// A jam of a network with a cycle in which all walks arrive: channels, the last to be filled
/// first. None only of links that are no cycle.
///
/// Errors: out of memory.
pub fn find_jam<A: Allocator + Copy>(
    alloc: A,
    kinds: &[Kind],
    joins: &[Join],
    replies: &[Reply],
    choices: &[u32],
    links: &[Link],
) -> Result<Option<Vec<Fill, A>>, AllocError>
    requires full { IsFull (table_of kinds.now joins.now choices.now) }
    requires arrive { AllArrive (table_of kinds.now joins.now choices.now) }
    ensures jam { IfOk result (λ found. IfSome found (λ items.
        IsJam (table_of kinds.now joins.now choices.now) replies.now items.items)) }
    ensures found { IfOk result (λ found.
        AreReplies (table_of kinds.now joins.now choices.now) replies.now
        → IsCycle (table_of kinds.now joins.now choices.now) replies.now links.now
        → IsSome found) }
{
    let columns = columns_of(alloc, kinds)?;
    let width = ends_of(alloc, kinds)?.len();
    let circle = without_repeats(alloc, kinds, joins, choices, links)?;
    let mut spans = match spans_of(alloc, kinds, joins, choices, &columns, width, circle)? {
        None => return Ok(None),
        Some(spans) => spans,
    };
    while let Some(new) = sooner(alloc, kinds, joins, choices, &columns, width, &spans)? {
        spans = new;
    }
    let items = items_of(alloc, &spans)?;
    if is_jam(alloc, kinds, joins, replies, choices, &items)? {
        Ok(Some(items))
    } else {
        Ok(None)
    }
}
