//! The log that records are.

ghost use Rattle.std.specs.Prelude.{◌≡◌, ◌<◌, Some, length, slice_get};
ghost use Rattle.lexer.specs.Outcome.{Gives, Makes};
ghost use Rattle.model_text.specs.Views.{log_so_far};
ghost use Rattle.report_model.specs.Records.{after_model_record, log_of_records};

use crate::entry::take;
use crate::numbered::begin;
use crate::record::LogRecord;
use lexer::Refusal;
use model_text::text::ended;
use model_text::{Log, LogReason};
use std::alloc::Allocator;
use trace_lines::LineReason;

/// The record at a place.
fn record_at(records: &[LogRecord], place: usize) -> LogRecord
    requires { place < length records.now }
    ensures { slice_get records.now place ≡ Some result }
{
    records[place]
}

/// Takes a record, the one of this number.
fn take_record<A: Allocator + Copy>(
    log: &mut Log<A>,
    alloc: A,
    number: u64,
    given: LogRecord,
) -> Result<(), LogReason>
    ensures { Makes (LogReason.Line LineReason.Memory) (log_so_far log.new) result
        (after_model_record (log_so_far log.old) number given) }
{
    match given.entry() {
        Some(entry) => take(log, alloc, number, entry),
        None => Err(LogReason::UnknownKeyword),
    }
}

/// The log that records are, over a memory of so many words, 1 to 2^32.
///
/// Errors: the number of the first record that is refused, from 1, and why; 0 where the number of words
/// is, or out of memory.
pub fn log_of_records<A: Allocator + Copy>(
    alloc: A,
    words: u64,
    records: &[LogRecord],
) -> Result<Log<A>, Refusal<LogReason>>
    ensures { Gives (LogReason.Line LineReason.Memory) log_so_far result
        (log_of_records words records.now) }
{
    let Ok(mut log) = Log::none(alloc) else {
        return Err(Refusal::at(0, LogReason::Line(LineReason::Memory)));
    };
    if let Err(reason) = begin(&mut log, words) {
        return Err(Refusal::at(0, reason));
    }
    for place in 0..records.len() {
        let given = record_at(records, place);
        if let Err(reason) = take_record(&mut log, alloc, place as u64 + 1, given) {
            return Err(Refusal::at(place as u64 + 1, reason));
        }
    }
    ended(log, records.len() as u64 + 1)
}
