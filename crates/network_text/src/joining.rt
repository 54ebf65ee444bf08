//! What a line `join` gives.

ghost use Rattle.std.specs.Prelude.{◌≡◌, ℕ, ◌+◌, ◌*◌, ◌<◌, ◌≤◌, ◌++◌, length, map, nat_le, nat_lt};
ghost use Rattle.std.specs.Prelude.{IfNone, OnOk};
ghost use Rattle.std.specs.List.{All, list_all};
ghost use Rattle.lexer.specs.Outcome.{Makes};
ghost use Rattle.network_text.specs.declared.reason.NetworkReason.{NetworkReason};
ghost use Rattle.network_text.specs.AllPairs.{every_join};
ghost use Rattle.network_text.specs.Ranges.{channels_of, lacks_any, with_receivers, after_lists};
ghost use Rattle.network_text.specs.Ranges.{after_join_words};
ghost use Rattle.network_text.specs.Network.{after_joins, after_join_all};
ghost use Rattle.network_text.specs.Reading.{reading_of, IsRead};

use crate::all_pairs::{End, put_every_join};
use crate::ranges::{ChannelRange, channels_of, listed_at, size_of};
use crate::reading::Reading;
use crate::reason::{Keyword, NetworkReason};
use crate::taking::MOST_JOINS;
use lexer::index;
use network_judge::Join;
use std::alloc::{AllocError, Allocator};

/// Whether each range ends below this.
fn are_below(ranges: &[ChannelRange], count: usize) -> bool
    ensures { result ≡ list_all (λ range. nat_lt range.last count) ranges.now }
{
    ranges.iter().all(|range| range.last < count)
}

/// Joins each channel of these ranges with each of those, of which there are some.
fn put_with<A: Allocator + Copy>(
    alloc: A,
    joins: &mut Vec<Join, A>,
    senders: &[ChannelRange],
    receivers: &[ChannelRange],
) -> Result<(), AllocError>
    requires senders { All (λ range. range.last < 65536) senders.now }
    requires receivers { All (λ range. range.last < 65536) receivers.now }
    ensures { OnOk result (joins.new.items
        ≡ joins.old.items ++ every_join (channels_of senders.now) (channels_of receivers.now)) }
{
    if receivers.is_empty() {
        return Ok(());
    }
    let senders = channels_of(alloc, senders)?;
    let receivers = channels_of(alloc, receivers)?;
    put_every_join(joins, &senders, &receivers)
}

/// Joins each channel of these ranges with each of those.
///
/// Errors: out of memory.
fn put_joins<A: Allocator + Copy>(
    alloc: A,
    joins: &mut Vec<Join, A>,
    senders: &[ChannelRange],
    receivers: &[ChannelRange],
) -> Result<(), AllocError>
    requires senders { All (λ range. range.last < 65536) senders.now }
    requires receivers { All (λ range. range.last < 65536) receivers.now }
    ensures { OnOk result (joins.new.items
        ≡ joins.old.items ++ every_join (channels_of senders.now) (channels_of receivers.now)) }
{
    if senders.is_empty() {
        return Ok(());
    }
    put_with(alloc, joins, senders, receivers)
}

/// How many pairs ranges give, as far as a line `join` may.
fn pairs_between(senders: &[ChannelRange], receivers: &[ChannelRange]) -> usize
    requires senders { All (λ range. range.last < 65536) senders.now }
    requires receivers { All (λ range. range.last < 65536) receivers.now }
    ensures room { (n : ℕ) → nat_le (n + result) 4194304
        ≡ nat_le (n + length (channels_of senders.now) * length (channels_of receivers.now))
        4194304 }
    ensures few { result ≤ 4194305 * 4194305 }
{
    let first = size_of(senders);
    let second = size_of(receivers);
    first * second
}

impl<A: Allocator + Copy> Reading<A> {
    /// Why the word at this place names no channels, where it doesn't.
    fn lacks_any(&self, place: u32, ranges: &[ChannelRange]) -> Option<NetworkReason>
        requires { IsRead self.now }
        ensures value { result ≡ lacks_any (length self.now.kinds.items) place ranges.now }
        ensures there { IfNone result (All (λ range. range.last < 65536) ranges.now) }
    {
        if self.kinds.is_empty() {
            return Some(NetworkReason::ChannelsFirst);
        }
        if !are_below(ranges, self.kinds.len()) {
            return Some(NetworkReason::ChannelLimits(place, self.kinds.len()));
        }
        None
    }

    /// Whether there is room for a pair of each channel of these ranges with each of those.
    fn has_room(&self, senders: &[ChannelRange], receivers: &[ChannelRange]) -> bool
        requires senders { All (λ range. range.last < 65536) senders.now }
        requires receivers { All (λ range. range.last < 65536) receivers.now }
        ensures { result ≡ nat_le (length self.now.joins.items
            + length (channels_of senders.now) * length (channels_of receivers.now)) 4194304 }
    {
        self.joins.len() + pairs_between(senders, receivers) <= MOST_JOINS
    }

    /// Takes each pair of a channel of these ranges and one of those.
    fn take_joins(
        &mut self,
        alloc: A,
        senders: &[ChannelRange],
        receivers: &[ChannelRange],
    ) -> Result<(), NetworkReason>
        requires { IsRead self.old }
        ensures value { Makes NetworkReason.Memory (reading_of self.new) result
            (after_joins (reading_of self.old) senders.now receivers.now) }
        ensures read { OnOk result (IsRead self.new) }
    {
        if let Some(reason) = self.lacks_any(1, senders) {
            return Err(reason);
        }
        if let Some(reason) = self.lacks_any(2, receivers) {
            return Err(reason);
        }
        if !self.has_room(senders, receivers) {
            return Err(NetworkReason::JoinsLimits);
        }
        put_joins(alloc, &mut self.joins, senders, receivers)?;
        Ok(())
    }

    /// Takes the list of receivers after `join`, behind the senders.
    #[tactic(auto, using(crate::proofs::Joined::list_refused, crate::proofs::Joined::list_taken))]
    fn join_with(
        &mut self,
        alloc: A,
        senders: &[ChannelRange],
        to: &[u8],
    ) -> Result<(), NetworkReason>
        requires { IsRead self.old }
        ensures value { Makes NetworkReason.Memory (reading_of self.new) result
            (with_receivers (reading_of self.old).table.kinds (after_joins (reading_of self.old))
            to.now senders.now) }
        ensures read { OnOk result (IsRead self.new) }
    {
        match listed_at(alloc, &self.kinds, End::Receiver, 2, to) {
            Ok(receivers) => self.take_joins(alloc, senders, &receivers),
            Err(reason) => Err(reason),
        }
    }

    /// Takes the two lists after `join`.
    #[tactic(auto, using(crate::proofs::Joined::list_refused, crate::proofs::Joined::list_taken))]
    fn join_lists(&mut self, alloc: A, from: &[u8], to: &[u8]) -> Result<(), NetworkReason>
        requires { IsRead self.old }
        ensures value { Makes NetworkReason.Memory (reading_of self.new) result
            (after_lists (reading_of self.old).table.kinds (after_joins (reading_of self.old))
            from.now to.now) }
        ensures read { OnOk result (IsRead self.new) }
    {
        match listed_at(alloc, &self.kinds, End::Sender, 1, from) {
            Ok(senders) => self.join_with(alloc, &senders, to),
            Err(reason) => Err(reason),
        }
    }

    /// Takes the two words after `join`; two numbers take no memory of their own.
    fn join_line(&mut self, alloc: A, from: &[u8], to: &[u8]) -> Result<(), NetworkReason>
        requires { IsRead self.old }
        ensures value { Makes NetworkReason.Memory (reading_of self.new) result
            (after_lists (reading_of self.old).table.kinds (after_joins (reading_of self.old))
            from.now to.now) }
        ensures read { OnOk result (IsRead self.new) }
    {
        match (index(from), index(to)) {
            (Some(from), Some(to)) => self.take_join(from, to),
            (None, _) => self.join_lists(alloc, from, to),
            (Some(_), None) => self.join_lists(alloc, from, to),
        }
    }

    /// Takes the words after `join`.
    pub(crate) fn join_words(&mut self, alloc: A, values: &[&[u8]]) -> Result<(), NetworkReason>
        requires { IsRead self.old }
        ensures value { Makes NetworkReason.Memory (reading_of self.new) result
            (after_join_words (reading_of self.old).table.kinds (after_joins (reading_of self.old))
            (after_join_all (reading_of self.old)) (map (λ value. value.now) values.now)) }
        ensures read { OnOk result (IsRead self.new) }
    {
        match values {
            [word] => {
                if *word == b"all".as_slice() {
                    return self.take_join_all(alloc);
                }
                Err(NetworkReason::NumberCount(Keyword::Join))
            }
            [from, to] => self.join_line(alloc, from, to),
            _ => Err(NetworkReason::NumberCount(Keyword::Join)),
        }
    }
}
