//! What of the lines so far a rule asks, and what is written of them.

ghost use Rattle.std.specs.Prelude.{◌≡◌, ◌%◌, ◌^◌, ◌<◌, length, slice_get, slice_index};
ghost use Rattle.std.specs.Prelude.{slice_set, vec_len};
ghost use Rattle.report_check.specs.Seen.{key_of as key};
ghost use Rattle.report_check.specs.Broken.{has_line_feed as line_feed, is_same as same};
ghost use Rattle.report_check.specs.Lists.{same_reply};
ghost use Rattle.report_check.specs.Shows.{bank_of};

use crate::checker::{Checker, Served};
use packet::Reply;
use report_lines::AnswerLine;
use std::alloc::Allocator;

impl<A: Allocator> Checker<A> {
    /// The entry of that bank and place.
    pub fn kept_at(&self, bank: u32, place: usize) -> Option<Served>
        ensures { result ≡ slice_get (bank_of self.now.banks.items bank) place }
    {
        let served = self.banks.get(bank as usize)?.get(place)?;
        Some(*served)
    }

    /// How many entries the bank has.
    pub fn count_at(&self, bank: u32) -> usize
        ensures { result ≡ length (bank_of self.now.banks.items bank) }
    {
        match self.banks.get(bank as usize) {
            None => 0,
            Some(entries) => entries.len(),
        }
    }

    /// How many order lines the bank has.
    pub fn ordered_at(&self, bank: u32) -> u64
        ensures { result ≡ slice_index self.now.ordered.items bank }
    {
        match self.ordered.get(bank as usize) {
            None => 0,
            Some(count) => *count,
        }
    }

    /// The word of an address, 0 where there is none.
    pub fn word_at(&self, address: u32) -> u64
        ensures { result ≡ slice_index self.now.memory.items address }
    {
        match self.memory.get(address as usize) {
            None => 0,
            Some(word) => *word,
        }
    }
}

/// Writes a number at a place, if there is one.
pub fn write_at<A: Allocator>(numbers: &mut Vec<u64, A>, place: u32, number: u64)
    ensures sized { vec_len numbers.new ≡ vec_len numbers.old }
    ensures written { numbers.new.items ≡ slice_set numbers.old.items place number }
{
    if (place as usize) < numbers.len() {
        numbers[place as usize] = number;
    }
}

/// The home of an address.
pub fn home_of(address: u32, tiles: u32) -> u32
    ensures { result ≡ address % tiles }
{
    if tiles == 0 { address } else { address % tiles }
}

/// The order of answers: by processor, and then by index.
pub fn key_of(answer: &AnswerLine) -> u64
    ensures value { result ≡ key answer.now }
    ensures small { result < 2 ^ 63 }
{
    4096 * u64::from(answer.processor) + u64::from(answer.index)
}

/// Whether two replies are the same.
pub fn is_same_reply(first: Reply, second: Reply) -> bool
    ensures { result ≡ same_reply first second }
{
    match first {
        Reply::Ok => match second {
            Reply::Ok => true,
            Reply::Old(_) => false,
        },
        Reply::Old(word) => match second {
            Reply::Ok => false,
            Reply::Old(other) => word == other,
        },
    }
}

/// Whether two tests come out the same.
pub fn is_same(first: bool, second: bool) -> bool
    ensures { result ≡ same first second }
{
    if first { second } else { !second }
}

/// Whether a line ends in a text.
pub fn has_line_feed(text: &[u8]) -> bool
    ensures { result ≡ line_feed text.now }
{
    let mut rest = text;
    while let [byte, more @ ..] = rest {
        if *byte == b'\n' {
            return true;
        }
        rest = more;
    }
    false
}
