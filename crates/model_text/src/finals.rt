//! The words that addresses held at the end.

ghost use Rattle.std.specs.Prelude.{◌≡◌, ◌<◌, ◌^◌, IfNone, length, map};
ghost use Rattle.lexer.specs.Outcome.{Makes};
ghost use Rattle.model_text.specs.Finals.{add_final, after_final_line, final_read, final_wrong, is_final};
ghost use Rattle.model_text.specs.Traces.{ArePlaces, last_spot, numbers_of_log};
ghost use Rattle.model_text.specs.Views.{log_so_far};

use crate::form::two_numbers;
use crate::log::Log;
use crate::logged::{Logged, Source, Told};
use crate::reason::{LogKeyword, LogReason};
use crate::trace::trace_spot;
use packet::{Op, Operation, Reply};
use std::alloc::Allocator;
use trace_lines::LineReason;

/// Whether a step of a log is a final word, and no operation of a processor.
pub fn is_final(step: Logged) -> bool
    ensures { result ≡ is_final step }
{
    match step.source {
        Source::Untold => false,
        Source::Own => false,
        Source::Opening => false,
        Source::Write(_) => false,
        Source::Last => true,
    }
}

/// The place in the trace of the last write of a word.
pub(crate) fn last_spot<A: Allocator>(
    log: &Log<A>,
    numbers: &[usize],
    places: &[usize],
    w: usize,
) -> usize
    requires numbers { numbers.now ≡ numbers_of_log (log_so_far log.now) }
    requires places { ArePlaces numbers.now (length log.now.made.items) places.now }
    ensures { result ≡ last_spot (log_so_far log.now) w }
{
    match log.orders.row(w) {
        [] => w,
        [.., last] => trace_spot(log, numbers, places, *last),
    }
}

impl<A: Allocator + Copy> Log<A> {
    /// Takes the address and the word of a `final` line.
    pub(crate) fn take_final(
        &mut self,
        alloc: A,
        line: u64,
        values: &[&[u8]],
    ) -> Result<(), LogReason>
        ensures { Makes (LogReason.Line LineReason.Memory) (log_so_far self.new) result
            (after_final_line (log_so_far self.old) line (map (λ value. value.now) values.now)) }
    {
        match values {
            [address, value] => {
                let (address, value) = two_numbers(1, address, value)?;
                self.final_word(alloc, line, address, value)
            }
            _ => Err(LogReason::WordCount(LogKeyword::Final)),
        }
    }

    /// Why a final word is refused; the first check that it fails.
    fn final_wrong(&self, address: u128, value: u128) -> Option<LogReason>
        ensures reason { result ≡ final_wrong (log_so_far self.now) address value }
        ensures address { IfNone result (address < 2 ^ 32) }
        ensures value { IfNone result (value < 2 ^ 64) }
    {
        let words = self.head.words();
        if words == 0 {
            return Some(LogReason::Line(LineReason::WordsFirst));
        }
        if address >= u128::from(words) {
            return Some(LogReason::Line(LineReason::AddressLimits(1, words)));
        }
        if value > u128::from(u64::MAX) {
            return Some(LogReason::Line(LineReason::ValueLimits(2)));
        }
        if self.finals.contains_key(&(address as u32)) {
            return Some(LogReason::FinalTwice);
        }
        None
    }

    /// An address held a word at the end.
    fn final_word(
        &mut self,
        alloc: A,
        line: u64,
        address: u128,
        value: u128,
    ) -> Result<(), LogReason>
        ensures { Makes (LogReason.Line LineReason.Memory) (log_so_far self.new) result
            (final_read (log_so_far self.old) line address value) }
    {
        if let Some(reason) = self.final_wrong(address, value) {
            return Err(reason);
        }
        self.place(alloc, address as u32)?;
        self.add_final(alloc, line, address as u32, value as u64)
    }

    /// Adds the load of a final word, by a processor of its own.
    fn add_final(&mut self, alloc: A, line: u64, address: u32, value: u64) -> Result<(), LogReason>
        ensures { Makes (LogReason.Line LineReason.Memory) (log_so_far self.new) result
            (add_final (log_so_far self.old) line address value) }
    {
        let processor = self.rows.count();
        if processor >= 1 << 21 {
            return Err(LogReason::AddressesLimits);
        }
        let word = self.number_of_address(address);
        if self.finals.insert(address, value).is_err() {
            return Err(LogReason::Line(LineReason::Memory));
        }
        if self.rows.begin(alloc).is_err() {
            return Err(LogReason::Line(LineReason::Memory));
        }
        self.add_logged(Logged {
            line,
            processor: processor as u32,
            operation: Some(Operation {
                address,
                op: Op::Load,
            }),
            word,
            source: Source::Last,
            told: Some(Told {
                line,
                reply: Reply::Old(value),
            }),
        })
    }
}
