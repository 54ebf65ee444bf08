//! Reads a log whose replies alone count.

ghost use Rattle.std.specs.Prelude.{◌≡◌};
ghost use Rattle.std.specs.Str.Lines.{lines};
ghost use Rattle.lexer.specs.Outcome.{Gives};
ghost use Rattle.model_text.specs.Views.{log_so_far};
ghost use Rattle.model_replies.specs.Reading.{first_unreplied, lacks_reply, reads_word};
ghost use Rattle.model_replies.specs.Reading.{values_ended, values_of};

use lexer::{Refusal, next_line};
use memory_models::Kind;
use model_text::trace::kind_of_step;
use model_text::words::log_words;
use model_text::{Log, LogReason, Logged};
use std::alloc::Allocator;
use trace_lines::LineReason;

/// Whether an operation of a kind reads its word.
fn reads_word(kind: Kind) -> bool
    ensures { result ≡ reads_word kind }
{
    match kind {
        Kind::Load => true,
        Kind::Atomic => true,
        Kind::Store => false,
        Kind::Fence => false,
    }
}

/// Whether an operation reads its word, and no line gives its reply.
fn lacks_reply(logged: Logged) -> bool
    ensures { result ≡ lacks_reply logged }
{
    reads_word(kind_of_step(logged.operation)) && logged.told.is_none()
}

/// The first operation that reads its word without a reply.
fn first_unreplied(made: &[Logged]) -> Option<Logged>
    ensures { result ≡ first_unreplied made.now }
{
    for i in 0..made.len() {
        let logged = made[i];
        if lacks_reply(logged) {
            return Some(logged);
        }
    }
    None
}

/// A log whose last line has the number before this one.
///
/// Errors: what the log lacks, at this line; or an operation that reads its word without a reply.
fn ended<A: Allocator + Copy>(log: Log<A>, number: u64) -> Result<Log<A>, Refusal<LogReason>>
    ensures { Gives (LogReason.Line LineReason.Memory) log_so_far result
        (values_ended (log_so_far log) number) }
{
    if let Some(reason) = log.head.missing() {
        return Err(Refusal::at(number, LogReason::Line(reason)));
    }
    match first_unreplied(&log.made) {
        None => Ok(log),
        Some(logged) => Err(Refusal::at(logged.line, LogReason::ReplyMissing)),
    }
}

/// Reads a log text of which the replies alone count: each operation that reads its word has one. Lines
/// on orders and sources must be right, and may be missing.
///
/// Errors: where and why its first bad line is refused, or that a request for memory was.
pub fn read_values<A: Allocator + Copy>(alloc: A, text: &[u8]) -> Result<Log<A>, Refusal<LogReason>>
    ensures { Gives (LogReason.Line LineReason.Memory) log_so_far result
        (values_of (lines text.now)) }
{
    let Ok(mut log) = Log::none(alloc) else {
        return Err(Refusal::at(0, LogReason::Line(LineReason::Memory)));
    };
    let mut number = 1u64;
    let mut rest = text;
    while let Some((line, after)) = next_line(rest) {
        let (words, count) = log_words(line);
        if let Err(reason) = log.take(alloc, number, &words[..count]) {
            return Err(Refusal::at(number, reason));
        }
        number += 1;
        rest = after;
    }
    ended(log, number)
}
