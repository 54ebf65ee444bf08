//! What each line of a log makes of what the lines before it gave.

ghost use Rattle.std.specs.Prelude.{◌≡◌, ◌==◌, codes, length, map, not};
ghost use Rattle.lexer.specs.Outcome.{Makes};
ghost use Rattle.trace_lines.specs.Head.{after_title, after_init_line, after_words_line};
ghost use Rattle.model_text.specs.Lines.{after_words_of_log, after_keyword, head_logged};
ghost use Rattle.model_text.specs.Views.{log_so_far};

use crate::log::Log;
use crate::reason::LogReason;
use std::alloc::Allocator;
use trace_lines::LineReason;

impl<A: Allocator + Copy> Log<A> {
    /// Takes what the words of a line give.
    pub fn take(&mut self, alloc: A, line: u64, words: &[&[u8]]) -> Result<(), LogReason>
        ensures { Makes (LogReason.Line LineReason.Memory) (log_so_far self.new) result
            (after_words_of_log (log_so_far self.old) line (map (λ word. word.now) words.now)) }
    {
        match words {
            [] => Ok(()),
            [[b'#', ..], ..] => Ok(()),
            [keyword, values @ ..] => self.take_keyword(alloc, line, keyword, values),
        }
    }

    /// Takes a line by its keyword.
    fn take_keyword(
        &mut self,
        alloc: A,
        line: u64,
        keyword: &[u8],
        values: &[&[u8]],
    ) -> Result<(), LogReason>
        ensures { Makes (LogReason.Line LineReason.Memory) (log_so_far self.new) result
            (after_keyword (log_so_far self.old) line keyword.now
            (map (λ value. value.now) values.now)) }
    {
        if !self.head.begun() {
            return self.take_title(keyword, values);
        }
        if keyword == b"made".as_slice() {
            return self.take_made(alloc, line, values);
        }
        if keyword == b"wrote".as_slice() {
            return self.take_wrote(values);
        }
        if keyword == b"read".as_slice() {
            return self.take_read(values);
        }
        if keyword == b"served".as_slice() {
            return self.take_served(values);
        }
        if keyword == b"replied".as_slice() {
            return self.take_replied(line, values);
        }
        if keyword == b"depends".as_slice() {
            return self.take_depends(values);
        }
        if keyword == b"final".as_slice() {
            return self.take_final(alloc, line, values);
        }
        if keyword == b"init".as_slice() {
            return self.take_init(values);
        }
        if keyword == b"words".as_slice() {
            return self.take_words(values);
        }
        Err(LogReason::UnknownKeyword)
    }

    /// Takes the first line.
    fn take_title(&mut self, keyword: &[u8], values: &[&[u8]]) -> Result<(), LogReason>
        ensures { Makes (LogReason.Line LineReason.Memory) (log_so_far self.new) result
            (head_logged (log_so_far self.old) (after_title self.old.head (codes "log")
            keyword.now (map (λ value. value.now) values.now))) }
    {
        self.head.take_title(b"log".as_slice(), keyword, values)?;
        Ok(())
    }

    /// Takes the number of words.
    fn take_words(&mut self, values: &[&[u8]]) -> Result<(), LogReason>
        ensures { Makes (LogReason.Line LineReason.Memory) (log_so_far self.new) result
            (head_logged (log_so_far self.old) (after_words_line self.old.head
            (map (λ value. value.now) values.now))) }
    {
        self.head.take_words(values)?;
        Ok(())
    }

    /// Takes the address and the value of an opening word.
    fn take_init(&mut self, values: &[&[u8]]) -> Result<(), LogReason>
        ensures { Makes (LogReason.Line LineReason.Memory) (log_so_far self.new) result
            (head_logged (log_so_far self.old) (after_init_line self.old.head
            (not (length self.old.made.items == 0)) (map (λ value. value.now) values.now))) }
    {
        self.head.take_init(!self.made.is_empty(), values)?;
        Ok(())
    }
}
