//! What operations of a log read, and where they stand among the writes.

ghost use Rattle.std.specs.Prelude.{◌≡◌, map, slice_get, slice_set};
ghost use Rattle.lexer.specs.Outcome.{Makes};
ghost use Rattle.model_text.specs.Sources.{found, found_of, with_logged, after_wrote_line};
ghost use Rattle.model_text.specs.Sources.{add_write, after_served_line, after_read_line, read_opening};
ghost use Rattle.model_text.specs.Sources.{read_write, add_served, add_source, is_told, last_source};
ghost use Rattle.model_text.specs.Sources.{source_wrong, load_wrong, write_wrong};
ghost use Rattle.model_text.specs.Views.{log_so_far};

use crate::form::two_numbers;
use crate::log::Log;
use crate::logged::{Logged, Source};
use crate::reason::{LogKeyword, LogReason};
use packet::{Op, Operation};
use std::alloc::Allocator;
use trace_lines::LineReason;

/// An operation that a line names.
#[derive(Clone, Copy)]
pub struct Found {
    /// Its number.
    pub number: usize,
    /// What the lines so far give of it.
    pub logged: Logged,
    /// What it is; no fence.
    pub operation: Operation,
}

/// Whether a line says what an operation read, or where it stands among the writes.
pub(crate) fn is_told(source: Source) -> bool
    ensures { result ≡ is_told source }
{
    match source {
        Source::Untold => false,
        Source::Own => true,
        Source::Opening => true,
        Source::Write(_) => true,
        Source::Last => true,
    }
}

/// Why a line may not say what an operation read.
fn load_wrong(found: Found) -> Option<LogReason>
    ensures { result ≡ load_wrong found }
{
    if !matches!(found.operation.op, Op::Load) {
        return Some(LogReason::NotLoad);
    }
    if is_told(found.logged.source) {
        return Some(LogReason::SourceTwice);
    }
    None
}

/// Why an operation may not be the next write.
fn write_wrong(found: Found) -> Option<LogReason>
    ensures { result ≡ write_wrong found }
{
    if matches!(found.operation.op, Op::Load) {
        return Some(LogReason::NotWrite);
    }
    if is_told(found.logged.source) {
        return Some(LogReason::SourceTwice);
    }
    None
}

/// Why a load may not have read what an operation wrote.
fn source_wrong(found: Found, write: Found) -> Option<LogReason>
    ensures { result ≡ source_wrong found write }
{
    if matches!(write.operation.op, Op::Load) {
        return Some(LogReason::NotWrite);
    }
    if write.logged.word != found.logged.word {
        return Some(LogReason::OtherWord);
    }
    load_wrong(found)
}

/// What a load read that comes behind these writes of its word.
pub(crate) fn last_source(writes: &[usize]) -> Source
    ensures { result ≡ last_source writes.now }
{
    match writes {
        [] => Source::Opening,
        [.., last] => Source::Write(*last),
    }
}

/// Puts an operation at a number, where there is one.
pub(crate) fn set_logged(made: &mut [Logged], number: usize, logged: Logged)
    ensures { made.new ≡ slice_set made.old number logged }
{
    if number < made.len() {
        made[number] = logged;
    }
}

impl<A: Allocator + Copy> Log<A> {
    /// The operation of a processor at an index, from 0.
    pub fn found(&self, p: u128, index: u128) -> Result<Found, LogReason>
        ensures { result ≡ found (log_so_far self.now) p index }
    {
        let p = self.head.processor(p)?;
        self.found_of(p as usize, index)
    }

    /// The operation of a processor below 4096 at an index, from 0.
    fn found_of(&self, p: usize, index: u128) -> Result<Found, LogReason>
        ensures { result ≡ found_of (log_so_far self.now) p index }
    {
        let row = self.rows.row(p);
        let too_few = LogReason::NotMade(row.len());
        let Some(number) = number_at_index(row, index) else {
            return Err(too_few);
        };
        let Some(logged) = logged_of(&self.made, number) else {
            return Err(too_few);
        };
        match logged.operation {
            None => Err(LogReason::FenceNamed),
            Some(operation) => Ok(Found {
                number,
                logged,
                operation,
            }),
        }
    }

    /// Takes the processor and the index of a `wrote` line.
    pub(crate) fn take_wrote(&mut self, values: &[&[u8]]) -> Result<(), LogReason>
        ensures { Makes (LogReason.Line LineReason.Memory) (log_so_far self.new) result
            (after_wrote_line (log_so_far self.old) (map (λ value. value.now) values.now)) }
    {
        match values {
            [processor, index] => {
                let (p, index) = two_numbers(1, processor, index)?;
                let found = self.found(p, index)?;
                self.add_write(found)
            }
            _ => Err(LogReason::WordCount(LogKeyword::Wrote)),
        }
    }

    /// A write is the next one of its word.
    pub fn add_write(&mut self, found: Found) -> Result<(), LogReason>
        ensures { Makes (LogReason.Line LineReason.Memory) (log_so_far self.new) result
            (add_write (log_so_far self.old) found) }
    {
        if let Some(reason) = write_wrong(found) {
            return Err(reason);
        }
        if self.orders.add(found.logged.word, found.number).is_err() {
            return Err(LogReason::Line(LineReason::Memory));
        }
        self.set_source(found, Source::Own);
        Ok(())
    }

    /// What an operation read, or that it has its place.
    fn set_source(&mut self, found: Found, source: Source)
        ensures { log_so_far self.new
            ≡ with_logged (log_so_far self.old) found.number
            (record (found.logged) { source = source }) }
    {
        set_logged(
            &mut self.made,
            found.number,
            Logged {
                line: found.logged.line,
                processor: found.logged.processor,
                operation: found.logged.operation,
                word: found.logged.word,
                source,
                told: found.logged.told,
            },
        );
    }

    /// A load read from a source.
    pub fn add_source(&mut self, found: Found, source: Source) -> Result<(), LogReason>
        ensures { Makes (LogReason.Line LineReason.Memory) (log_so_far self.new) result
            (add_source (log_so_far self.old) found source) }
    {
        if let Some(reason) = load_wrong(found) {
            return Err(reason);
        }
        self.set_source(found, source);
        Ok(())
    }

    /// Takes the processor and the index of a `served` line.
    pub(crate) fn take_served(&mut self, values: &[&[u8]]) -> Result<(), LogReason>
        ensures { Makes (LogReason.Line LineReason.Memory) (log_so_far self.new) result
            (after_served_line (log_so_far self.old) (map (λ value. value.now) values.now)) }
    {
        match values {
            [processor, index] => {
                let (p, index) = two_numbers(1, processor, index)?;
                let found = self.found(p, index)?;
                self.add_served(found)
            }
            _ => Err(LogReason::WordCount(LogKeyword::Served)),
        }
    }

    /// A load stands behind the writes of its word so far.
    pub fn add_served(&mut self, found: Found) -> Result<(), LogReason>
        ensures { Makes (LogReason.Line LineReason.Memory) (log_so_far self.new) result
            (add_served (log_so_far self.old) found) }
    {
        let source = last_source(self.orders.row(found.logged.word));
        self.add_source(found, source)
    }

    /// Takes the load and the source of a `read` line.
    pub(crate) fn take_read(&mut self, values: &[&[u8]]) -> Result<(), LogReason>
        ensures { Makes (LogReason.Line LineReason.Memory) (log_so_far self.new) result
            (after_read_line (log_so_far self.old) (map (λ value. value.now) values.now)) }
    {
        match values {
            [processor, index, word] => self.take_opening(processor, index, word),
            [processor, index, word, writer, place] => {
                if *word != b"from".as_slice() {
                    return Err(LogReason::NotSource);
                }
                let (p, index) = two_numbers(1, processor, index)?;
                let (q, place) = two_numbers(4, writer, place)?;
                let found = self.found(p, index)?;
                let write = self.found(q, place)?;
                self.read_write(found, write)
            }
            _ => Err(LogReason::WordCount(LogKeyword::Read)),
        }
    }

    /// Takes a load that read the opening word.
    fn take_opening(&mut self, processor: &[u8], index: &[u8], word: &[u8]) -> Result<(), LogReason>
        ensures { Makes (LogReason.Line LineReason.Memory) (log_so_far self.new) result
            (read_opening (log_so_far self.old) processor.now index.now word.now) }
    {
        if word != b"opening".as_slice() {
            return Err(LogReason::NotSource);
        }
        let (p, index) = two_numbers(1, processor, index)?;
        let found = self.found(p, index)?;
        self.add_source(found, Source::Opening)
    }

    /// A load read what an operation wrote.
    pub fn read_write(&mut self, found: Found, write: Found) -> Result<(), LogReason>
        ensures { Makes (LogReason.Line LineReason.Memory) (log_so_far self.new) result
            (read_write (log_so_far self.old) found write) }
    {
        if let Some(reason) = source_wrong(found, write) {
            return Err(reason);
        }
        self.set_source(found, Source::Write(write.number));
        Ok(())
    }
}

/// The number at an index of a row.
pub(crate) fn number_at_index(row: &[usize], index: u128) -> Option<usize>
    ensures { result ≡ slice_get row.now index }
{
    if index >= row.len() as u128 {
        return None;
    }
    row.get(index as usize).copied()
}

/// The operation of a number.
fn logged_of(made: &[Logged], number: usize) -> Option<Logged>
    ensures { result ≡ slice_get made.now number }
{
    made.get(number).copied()
}
