//! Reads a log text.

ghost use Rattle.std.specs.Prelude.{◌≡◌};
ghost use Rattle.std.specs.Str.Lines.{lines};
ghost use Rattle.lexer.specs.Outcome.{Gives};
ghost use Rattle.model_text.specs.Lines.{log_of, log_ended, first_untold};
ghost use Rattle.model_text.specs.Views.{log_so_far};

use crate::log::Log;
use crate::logged::Logged;
use crate::reason::LogReason;
use crate::sources::is_told;
use crate::words::log_words;
use lexer::{Refusal, next_line};
use std::alloc::Allocator;
use trace_lines::LineReason;

/// The first operation of which no line says what it read, or where it stands among the writes.
fn first_untold(made: &[Logged]) -> Option<Logged>
    ensures { result ≡ first_untold made.now }
{
    for i in 0..made.len() {
        let logged = made[i];
        if !is_told(logged.source) {
            return Some(logged);
        }
    }
    None
}

/// A log whose last line has the number before this one.
///
/// Errors: what the log lacks, at this line; or an operation of which no line says what it read.
pub fn ended<A: Allocator + Copy>(log: Log<A>, number: u64) -> Result<Log<A>, Refusal<LogReason>>
    ensures { Gives (LogReason.Line LineReason.Memory) log_so_far result
        (log_ended (log_so_far log) number) }
{
    if let Some(reason) = log.head.missing() {
        return Err(Refusal::at(number, LogReason::Line(reason)));
    }
    match first_untold(&log.made) {
        None => Ok(log),
        Some(logged) => Err(Refusal::at(logged.line, LogReason::SourceMissing)),
    }
}

/// Reads a log text.
///
/// Errors: where and why its first bad line is refused, or that a request for memory was.
pub fn read_log<A: Allocator + Copy>(alloc: A, text: &[u8]) -> Result<Log<A>, Refusal<LogReason>>
    ensures { Gives (LogReason.Line LineReason.Memory) log_so_far result (log_of (lines text.now)) }
{
    let Ok(mut log) = Log::none(alloc) else {
        return Err(Refusal::at(0, LogReason::Line(LineReason::Memory)));
    };
    let mut number = 1u64;
    let mut rest = text;
    while let Some((line, after)) = next_line(rest) {
        let (words, count) = log_words(line);
        if let Err(reason) = log.take(alloc, number, &words[..count]) {
            return Err(Refusal::at(number, reason));
        }
        number += 1;
        rest = after;
    }
    ended(log, number)
}
