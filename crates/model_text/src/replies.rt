//! Replies of a log.

ghost use Rattle.std.specs.Prelude.{◌≡◌, map};
ghost use Rattle.lexer.specs.Outcome.{Makes};
ghost use Rattle.model_text.specs.Sources.{after_replied_line, add_reply};
ghost use Rattle.model_text.specs.Views.{log_so_far};

use crate::form::two_numbers;
use crate::log::Log;
use crate::logged::{Logged, Told};
use crate::reason::{LogKeyword, LogReason};
use crate::sources::{Found, set_logged};
use std::alloc::Allocator;
use trace_lines::{LineReason, reply_read, told_of, unwanted_reply};

impl<A: Allocator + Copy> Log<A> {
    /// Takes the processor, the index and the reply of a `replied` line.
    pub(crate) fn take_replied(&mut self, line: u64, values: &[&[u8]]) -> Result<(), LogReason>
        ensures { Makes (LogReason.Line LineReason.Memory) (log_so_far self.new) result
            (after_replied_line (log_so_far self.old) line
            (map (λ value. value.now) values.now)) }
    {
        match values {
            [processor, index, reply] => {
                let (p, index) = two_numbers(1, processor, index)?;
                let told = told_of(reply)?;
                let found = self.found(p, index)?;
                self.add_reply(line, found, told)
            }
            _ => Err(LogReason::WordCount(LogKeyword::Replied)),
        }
    }

    /// An operation has a reply.
    pub fn add_reply(
        &mut self,
        line: u64,
        found: Found,
        told: Option<u128>,
    ) -> Result<(), LogReason>
        ensures { Makes (LogReason.Line LineReason.Memory) (log_so_far self.new) result
            (add_reply (log_so_far self.old) line found told) }
    {
        if let Some(reason) = unwanted_reply(found.operation.op.code(), told) {
            return Err(LogReason::Line(reason));
        }
        if found.logged.told.is_some() {
            return Err(LogReason::RepliedTwice);
        }
        let reply = reply_read(told)?;
        set_logged(
            &mut self.made,
            found.number,
            Logged {
                line: found.logged.line,
                processor: found.logged.processor,
                operation: found.logged.operation,
                word: found.logged.word,
                source: found.logged.source,
                told: Some(Told { line, reply }),
            },
        );
        Ok(())
    }
}
