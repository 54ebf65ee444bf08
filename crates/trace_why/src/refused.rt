//! The sentence that tells a reader why a trace text is refused.

ghost use Rattle.std.specs.Prelude.{IfSome, option_map};
ghost use Rattle.std.specs.Str.Lines.{lines};
ghost use Rattle.lexer.specs.Named.{IsAbout};
ghost use Rattle.trace_why.specs.Refused.{TellsTraceRefusal, refusal_in};

use crate::wording::wording_of;
use lexer::{Named, QuotedWords, Refusal};
use std::alloc::Allocator;
use std::fmt;
use trace_lines::LineReason;
use trace_text::{TraceReason, read_trace_or_why};

/// Why a trace text is refused, as a reader sees it: `trace.txt:7: answer 1 4: processor 1 has issued 3
/// operations`.
#[derive(Clone, Copy)]
pub struct TraceSentence<'a> {
    /// The name of the text.
    pub name: &'a str,
    pub text: &'a [u8],
    /// The line that is refused, from 1; 0 where a request for memory was refused.
    pub line: u64,
    pub reason: TraceReason,
}

/// Why a trace text is refused: where and why its reader refuses it, or that a request for memory was
/// refused. `None` exactly where it has no fault and memory was there.
pub fn trace_sentence<'a, A: Allocator + Copy>(
    alloc: A,
    trace: Named<'a>,
) -> Option<TraceSentence<'a>>
    ensures tells { TellsTraceRefusal (lines trace.entry.text.now) (option_map refusal_in result) }
    ensures text { IfSome result (λ s. IsAbout trace.entry s.name.now s.text.now) }
{
    match read_trace_or_why(alloc, trace.text) {
        Ok(_) => None,
        Err(refusal) => Some(TraceSentence {
            name: trace.name,
            text: trace.text,
            line: refusal.line,
            reason: refusal.reason,
        }),
    }
}

impl<'a> fmt::Display for TraceSentence<'a> {
    fn fmt<W: fmt::Write>(&self, f: &mut fmt::Formatter<W>) -> fmt::Result {
        f.write_str(self.name)?;
        if self.line != 0 {
            write!(f, ":{}", self.line)?;
        }
        f.write_str(": ")?;
        let words = QuotedWords::of_line(self.text, self.line);
        if let TraceReason::Line(LineReason::NoTitle) = self.reason {
            write!(f, "{words}: ")?;
        }
        let refusal = Refusal {
            line: self.line,
            reason: self.reason,
        };
        write!(f, "{}", wording_of(self.text, words, refusal))
    }
}
