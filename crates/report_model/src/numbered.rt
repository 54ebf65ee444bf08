//! The log that entries are.

ghost use Rattle.std.specs.Prelude.{◌≡◌, ◌<◌, Some, length, slice_get};
ghost use Rattle.lexer.specs.Outcome.{Gives, Makes};
ghost use Rattle.model_text.specs.Views.{log_so_far};
ghost use Rattle.report_model.specs.LogEntries.{begun_log, log_of_entries};

use crate::entry::{LogEntry, take};
use lexer::Refusal;
use model_text::text::ended;
use model_text::{Log, LogReason};
use std::alloc::Allocator;
use trace_lines::LineReason;

/// The entry at a place.
fn entry_at(entries: &[LogEntry], place: usize) -> LogEntry
    requires { place < length entries.now }
    ensures { slice_get entries.now place ≡ Some result }
{
    entries[place]
}

/// Begins a log of a memory of so many words.
pub(crate) fn begin<A: Allocator + Copy>(log: &mut Log<A>, words: u64) -> Result<(), LogReason>
    ensures { Makes (LogReason.Line LineReason.Memory) (log_so_far log.new) result
        (begun_log (log_so_far log.old) words) }
{
    log.head.begin();
    log.head.set_count(u128::from(words))?;
    Ok(())
}

/// The log that entries are, over a memory of so many words, 1 to 2^32.
///
/// Errors: the number of the first entry that is refused, from 1, and why; 0 where the number of words
/// is, or out of memory.
pub fn log_of_entries<A: Allocator + Copy>(
    alloc: A,
    words: u64,
    entries: &[LogEntry],
) -> Result<Log<A>, Refusal<LogReason>>
    ensures { Gives (LogReason.Line LineReason.Memory) log_so_far result
        (log_of_entries words entries.now) }
{
    let Ok(mut log) = Log::none(alloc) else {
        return Err(Refusal::at(0, LogReason::Line(LineReason::Memory)));
    };
    if let Err(reason) = begin(&mut log, words) {
        return Err(Refusal::at(0, reason));
    }
    for place in 0..entries.len() {
        let entry = entry_at(entries, place);
        if let Err(reason) = take(&mut log, alloc, place as u64 + 1, entry) {
            return Err(Refusal::at(place as u64 + 1, reason));
        }
    }
    ended(log, entries.len() as u64 + 1)
}
