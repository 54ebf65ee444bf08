//! Writes some operations of a trace as a trace text.

ghost use Rattle.std.specs.Prelude.{◌≡◌, ◌++◌, Some, IfOk, OnOk, slice_get, slice_index};
ghost use Rattle.std.specs.List.{flat_map};
ghost use Rattle.lexer.specs.Joined.{line_of_words};
ghost use Rattle.trace_answer.specs.Written.{AreCounts, event_text, init_words, is_opener};
ghost use Rattle.trace_answer.specs.Written.{opening_at, openings, part_text};
ghost use Rattle.trace_answer.specs.declared.counts.Key.TheVariants.{Processor, Address};

use crate::counts::{Key, counts_before, is_kept_at};
use crate::line::LineText;
use crate::part::kept_events;
use crate::part_lines::{answer_line, init_line, issue_line, words_line};
use std::alloc::{AllocError, Allocator};
use trace_laws::Event;
use trace_text::{Issued, TraceText};

/// The operation of a number.
fn issued_of(issued: &[Issued], k: u64) -> Option<Issued>
    ensures { result ≡ slice_get issued.now k }
{
    issued.get(k as usize).copied()
}

/// How many come before the operation of a number, 0 where there is none.
fn count_at(counts: &[u64], k: u64) -> u64
    ensures { result ≡ slice_index counts.now k }
{
    counts.get(k as usize).copied().unwrap_or(0)
}

/// Whether the text of a part names the opening word for the operation of a number.
fn is_opener<A: Allocator>(
    trace: &TraceText<A>,
    kept: &[bool],
    counts: &[u64],
    k: usize,
    issued: Issued,
) -> bool
    requires counts { AreCounts trace.now.issued kept.now Address counts.now }
    requires there { slice_get trace.now.issued k ≡ Some issued }
    ensures { result ≡ is_opener trace.now kept.now k issued }
{
    is_kept_at(kept, k)
        && count_at(counts, k as u64) == 0
        && trace.opening(issued.operation.address) != 0
}

/// Adds the opening word that the text of a part names for the operation of a number, if it does.
fn add_opening<A: Allocator>(
    openings: &mut Vec<(u32, u64), A>,
    trace: &TraceText<A>,
    kept: &[bool],
    counts: &[u64],
    k: usize,
) -> Result<(), AllocError>
    requires { AreCounts trace.now.issued kept.now Address counts.now }
    ensures { OnOk result (openings.new.items ≡ openings.old.items
        ++ opening_at trace.now kept.now k (slice_get trace.now.issued k)) }
{
    let Some(issued) = issued_of(trace.issued(), k as u64) else {
        return Ok(());
    };
    if !is_opener(trace, kept, counts, k, issued) {
        return Ok(());
    }
    let address = issued.operation.address;
    openings.push((address, trace.opening(address)))?;
    Ok(())
}

/// The opening words that the text of a part names, in the order in which its operations do.
///
/// Errors: memory.
pub(crate) fn openings<A: Allocator + Copy>(
    alloc: A,
    trace: &TraceText<A>,
    kept: &[bool],
) -> Result<Vec<(u32, u64), A>, AllocError>
    ensures { IfOk result (λ all. all.items ≡ openings trace.now kept.now) }
{
    let counts = counts_before(alloc, trace.issued(), kept, Key::Address)?;
    let mut all = Vec::new(alloc);
    for k in 0..trace.issued().len() {
        add_opening(&mut all, trace, kept, &counts, k)?;
    }
    Ok(all)
}

/// Adds a line.
fn put_line<A: Allocator>(text: &mut Vec<u8, A>, line: LineText) -> Result<(), AllocError>
    ensures { OnOk result (text.new.items ≡ text.old.items ++ line.bytes) }
{
    text.extend_from_slice(line.as_str().as_bytes())
}

/// Adds the lines of opening words.
fn put_openings<A: Allocator>(
    text: &mut Vec<u8, A>,
    openings: &[(u32, u64)],
) -> Result<(), AllocError>
    ensures { OnOk result (text.new.items
        ≡ text.old.items ++ flat_map (λ o. line_of_words (init_words o.0 o.1)) openings.now) }
{
    let mut left = openings;
    while let [first, rest @ ..] = left {
        put_line(text, init_line(first.0, first.1))?;
        left = rest;
    }
    Ok(())
}

/// Adds the line of an event.
fn put_event<A: Allocator>(
    text: &mut Vec<u8, A>,
    trace: &TraceText<A>,
    kept: &[bool],
    counts: &[u64],
    event: Event,
) -> Result<(), AllocError>
    requires { AreCounts trace.now.issued kept.now Processor counts.now }
    ensures { OnOk result (text.new.items
        ≡ text.old.items ++ event_text trace.now kept.now event) }
{
    match event {
        Event::Issue(call) => match issued_of(trace.issued(), call.id) {
            Some(issued) => put_line(text, issue_line(issued.processor, issued.operation)),
            None => Ok(()),
        },
        Event::Answer(id, reply) => match issued_of(trace.issued(), id) {
            Some(issued) => put_line(
                text,
                answer_line(issued.processor, count_at(counts, id), reply),
            ),
            None => Ok(()),
        },
    }
}

/// Adds the lines of events.
fn put_events<A: Allocator>(
    text: &mut Vec<u8, A>,
    trace: &TraceText<A>,
    kept: &[bool],
    counts: &[u64],
    events: &[Event],
) -> Result<(), AllocError>
    requires { AreCounts trace.now.issued kept.now Processor counts.now }
    ensures { OnOk result (text.new.items
        ≡ text.old.items ++ flat_map (event_text trace.now kept.now) events.now) }
{
    let mut left = events;
    while let [event, rest @ ..] = left {
        put_event(text, trace, kept, counts, *event)?;
        left = rest;
    }
    Ok(())
}

/// The trace text of a part, which names these opening words.
///
/// Errors: memory.
pub(crate) fn part_text<A: Allocator + Copy>(
    alloc: A,
    trace: &TraceText<A>,
    kept: &[bool],
    named: &[(u32, u64)],
) -> Result<Vec<u8, A>, AllocError>
    requires { named.now ≡ openings trace.now kept.now }
    ensures { IfOk result (λ text. text.items ≡ part_text trace.now kept.now) }
{
    let counts = counts_before(alloc, trace.issued(), kept, Key::Processor)?;
    let events = kept_events(alloc, kept, trace.events())?;
    let mut text = Vec::new(alloc);
    text.extend_from_slice(b"trace 1\n".as_slice())?;
    put_line(&mut text, words_line(trace.words()))?;
    put_openings(&mut text, named)?;
    put_events(&mut text, trace, kept, &counts, &events)?;
    Ok(text)
}
