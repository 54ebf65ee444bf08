//! The log that entries of a text are.

ghost use Rattle.std.specs.Prelude.{◌≡◌, ◌<◌, Some, length, slice_get};
ghost use Rattle.lexer.specs.Outcome.{Gives};
ghost use Rattle.model_text.specs.Views.{log_so_far};
ghost use Rattle.report_model.specs.LogEntries.{log_of_lines};

use crate::entry::{LineEntry, take};
use crate::numbered::begin;
use lexer::Refusal;
use model_text::text::ended;
use model_text::{Log, LogReason};
use std::alloc::Allocator;
use trace_lines::LineReason;

/// The entry at a place.
fn line_at(entries: &[LineEntry], place: usize) -> LineEntry
    requires { place < length entries.now }
    ensures { slice_get entries.now place ≡ Some result }
{
    entries[place]
}

/// The log that the entries of a text are, over a memory of so many words, 1 to 2^32.
///
/// Errors: the line of the first entry that is refused, and why; 0 where the number of words is, or
/// out of memory.
pub fn log_of_lines<A: Allocator + Copy>(
    alloc: A,
    words: u64,
    entries: &[LineEntry],
) -> Result<Log<A>, Refusal<LogReason>>
    ensures { Gives (LogReason.Line LineReason.Memory) log_so_far result
        (log_of_lines words entries.now) }
{
    let Ok(mut log) = Log::none(alloc) else {
        return Err(Refusal::at(0, LogReason::Line(LineReason::Memory)));
    };
    if let Err(reason) = begin(&mut log, words) {
        return Err(Refusal::at(0, reason));
    }
    for place in 0..entries.len() {
        let lined = line_at(entries, place);
        if let Err(reason) = take(&mut log, alloc, lined.line, lined.entry) {
            return Err(Refusal::at(lined.line, reason));
        }
    }
    ended(log, entries.len() as u64 + 1)
}
