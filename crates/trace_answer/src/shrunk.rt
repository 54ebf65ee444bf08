//! What is left of a trace where a small part without an order is asked for.

ghost use Rattle.std.specs.Prelude.{◌≡◌, ◌⊎◌, ◌+◌, ◌<◌, ◌^◌, IfOk, MatchOption};
ghost use Rattle.trace_answer.specs.Parts.{IsExplained, IsOpenTrace};
ghost use Rattle.trace_answer.specs.Shrunk.{IsShrunk};

use crate::broken::broken_at;
use crate::smallest::{SmallPart, smallest_trace};
use crate::written::{openings, part_text};
use std::alloc::{AllocError, Allocator, Global};
use trace_text::TraceText;

/// A small part of a trace that no order explains, with its text.
#[derive(Drop)]
pub struct ShrunkTrace<A: Allocator = Global> {
    /// Which operations it keeps, and why it is no smaller.
    pub part: SmallPart<A>,
    /// Its trace text.
    pub text: Vec<u8, A>,
    /// The line of that text up to which no order explains it: the first such line, or one of which it isn't decided
    /// whether it is the first.
    pub line: u64,
}

/// The line of an event in a text that names so many opening words.
///
/// Errors: memory, of which no text of so many lines has enough.
fn line_of(openings: usize, event: usize) -> Result<u64, AllocError>
    requires { openings < 2 ^ 63 }
    ensures { IfOk result (λ line. line ≡ 3 + openings + event) }
{
    let lines = openings as u64 + 3;
    match lines.checked_add(event as u64) {
        Some(line) => Ok(line),
        None => Err(AllocError),
    }
}

/// What is left of a trace, with at most so many configurations of a word at once: a small part that no order explains;
/// `None` where an order explains the trace, or that isn't decided. The search begins near the answer of a line.
///
/// Errors: memory.
pub fn shrunk_trace<A: Allocator + Copy>(
    alloc: A,
    trace: &TraceText<A>,
    line: u64,
    bound: usize,
) -> Result<Option<ShrunkTrace<A>>, AllocError>
    ensures { IfOk result (λ found. MatchOption found
        (IsExplained trace.now ⊎ IsOpenTrace trace.now bound) (IsShrunk trace.now bound)) }
{
    let Some(part) = smallest_trace(alloc, trace, line, bound)? else {
        return Ok(None);
    };
    let event = broken_at(alloc, trace, &part.kept, bound)?;
    let named = openings(alloc, trace, &part.kept)?;
    let text = part_text(alloc, trace, &part.kept, &named)?;
    let line = line_of(named.len(), event)?;
    Ok(Some(ShrunkTrace { part, text, line }))
}
