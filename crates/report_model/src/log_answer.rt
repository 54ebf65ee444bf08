//! Which memory models the log of some entries obeys.

ghost use Rattle.std.specs.Prelude.{IfOk, IfErr};
ghost use Rattle.report_model.specs.LogAnswers.{IsAnswerToEntries, IsNoAnswerToEntries};
ghost use Rattle.report_model.specs.LogAnswers.{IsAnswerToLines, IsNoAnswerToLines};
ghost use Rattle.report_model.specs.LogAnswers.{IsAnswerToRecords, IsNoAnswerToRecords};

use crate::entry::{LineEntry, LogEntry};
use crate::lined::log_of_lines;
use crate::numbered::log_of_entries;
use crate::record::LogRecord;
use crate::records::log_of_records;
use model_answer::{Answer, NoAnswer, Options, answer_to_log};
use std::alloc::Allocator;

/// Which memory models the log that entries are obeys, over a memory of so many words, as
/// `model_answer` says it of a text: an entry's number, from 1, stands for its line.
///
/// Errors: which entry is refused first and why, a reply that isn't what its operation does to its
/// word, or out of memory.
pub fn answer_to_entries<A: Allocator + Copy>(
    alloc: A,
    words: u64,
    entries: &[LogEntry],
    options: Options,
) -> Result<Answer<A>, NoAnswer>
    ensures answer { IfOk result (IsAnswerToEntries words entries.now options) }
    ensures none { IfErr result (IsNoAnswerToEntries words entries.now) }
{
    let log = match log_of_entries(alloc, words, entries) {
        Ok(log) => log,
        Err(refusal) => return Err(NoAnswer::Refused(refusal)),
    };
    match answer_to_log(alloc, &log, options) {
        Ok(answer) => Ok(answer),
        Err(why) => Err(why),
    }
}

/// Which memory models the log that records are obeys, over a memory of so many words, as `model_answer`
/// says it of a text: a record's number, from 1, stands for its line.
///
/// Errors: which record is refused first and why, a reply that isn't what its operation does to its
/// word, or out of memory.
pub fn answer_to_records<A: Allocator + Copy>(
    alloc: A,
    words: u64,
    records: &[LogRecord],
    options: Options,
) -> Result<Answer<A>, NoAnswer>
    ensures answer { IfOk result (IsAnswerToRecords words records.now options) }
    ensures none { IfErr result (IsNoAnswerToRecords words records.now) }
{
    let log = match log_of_records(alloc, words, records) {
        Ok(log) => log,
        Err(refusal) => return Err(NoAnswer::Refused(refusal)),
    };
    match answer_to_log(alloc, &log, options) {
        Ok(answer) => Ok(answer),
        Err(why) => Err(why),
    }
}

/// Which memory models the log that entries of a text are obeys, each entry with its line, over a memory of
/// so many words, as `model_answer` says it.
///
/// Errors: the line of the first entry that is refused and why, a reply that isn't what its operation does
/// to its word, or out of memory.
pub fn answer_to_lines<A: Allocator + Copy>(
    alloc: A,
    words: u64,
    entries: &[LineEntry],
    options: Options,
) -> Result<Answer<A>, NoAnswer>
    ensures answer { IfOk result (IsAnswerToLines words entries.now options) }
    ensures none { IfErr result (IsNoAnswerToLines words entries.now) }
{
    let log = match log_of_lines(alloc, words, entries) {
        Ok(log) => log,
        Err(refusal) => return Err(NoAnswer::Refused(refusal)),
    };
    match answer_to_log(alloc, &log, options) {
        Ok(answer) => Ok(answer),
        Err(why) => Err(why),
    }
}
