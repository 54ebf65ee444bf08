//! What a line gives, by its numbers.

ghost use Rattle.std.specs.Prelude.{◌≡◌, ◌<◌, true, length, slice_get, OnOk, IfSome};
ghost use Rattle.lexer.specs.Outcome.{Makes};
ghost use Rattle.network_text.specs.Network.{after_channels, after_inject, after_eject, after_join};
ghost use Rattle.network_text.specs.Network.{after_join_all, after_choice, after_next, after_reply};
ghost use Rattle.network_text.specs.Network.{after_length};
ghost use Rattle.network_text.specs.Network.{cell_of, taken_cell};
ghost use Rattle.network_judge.specs.Table.{is_receiver};
ghost use Rattle.network_text.specs.Reading.{reading_of, IsRead};

use crate::all_pairs::{End, channels_with, put_every_join};
use crate::reading::{Reading, has_reply, is_hop};
use crate::reason::NetworkReason;
use network_judge::{Join, Kind, Reply};
use std::alloc::Allocator;

/// The most channels of a network.
const MOST_CHANNELS: u32 = 65536;

/// The most choices: channels times ejection channels.
const MOST_CHOICES: usize = 1 << 27;

/// The most source-destination pairs that packets go between.
pub(crate) const MOST_JOINS: usize = 4194304;

/// The most flits of a packet.
const MOST_FLITS: u32 = 2147483647;

impl<A: Allocator + Copy> Reading<A> {
    /// Takes the number of channels.
    pub(crate) fn take_channels(&mut self, alloc: A, count: u32) -> Result<(), NetworkReason>
        requires { IsRead self.old }
        ensures value { Makes NetworkReason.Memory (reading_of self.new) result
            (after_channels (reading_of self.old) count) }
        ensures read { OnOk result (IsRead self.new) }
    {
        if !self.kinds.is_empty() {
            return Err(NetworkReason::ChannelsTwice);
        }
        if !(1 <= count && count <= MOST_CHANNELS) {
            return Err(NetworkReason::ChannelsLimits);
        }
        self.kinds = vec![in alloc; Kind::Hop; count as usize]?;
        Ok(())
    }

    /// Takes an injection channel.
    pub(crate) fn take_inject(&mut self, channel: u32) -> Result<(), NetworkReason>
        requires { IsRead self.old }
        ensures value { Makes NetworkReason.Memory (reading_of self.new) result
            (after_inject (reading_of self.old) channel) }
        ensures read { OnOk result (IsRead self.new) }
    {
        let x = channel as usize;
        if let Some(reason) = self.lacks(1, x) {
            return Err(reason);
        }
        if !is_hop(self.kinds[x]) {
            return Err(NetworkReason::KindTwice);
        }
        self.kinds[x] = Kind::Injection;
        Ok(())
    }

    /// Takes an ejection channel.
    pub(crate) fn take_eject(&mut self, channel: u32) -> Result<(), NetworkReason>
        requires { IsRead self.old }
        ensures value { Makes NetworkReason.Memory (reading_of self.new) result
            (after_eject (reading_of self.old) channel) }
        ensures read { OnOk result (IsRead self.new) }
    {
        let x = channel as usize;
        if let Some(reason) = self.lacks(1, x) {
            return Err(reason);
        }
        if self.begun {
            return Err(NetworkReason::EjectionLate);
        }
        if !is_hop(self.kinds[x]) {
            return Err(NetworkReason::KindTwice);
        }
        if self.kinds.len() * (self.ejections + 1) > MOST_CHOICES {
            return Err(NetworkReason::EjectionsLimits);
        }
        self.kinds[x] = Kind::Ejection;
        self.ejections += 1;
        Ok(())
    }

    /// Takes a source-destination pair that packets go between.
    pub(crate) fn take_join(&mut self, from: u32, to: u32) -> Result<(), NetworkReason>
        requires { IsRead self.old }
        ensures value { Makes NetworkReason.Memory (reading_of self.new) result
            (after_join (reading_of self.old) from to) }
        ensures read { OnOk result (IsRead self.new) }
    {
        let from = from as usize;
        let to = to as usize;
        if let Some(reason) = self.lacks(1, from) {
            return Err(reason);
        }
        if let Some(reason) = self.lacks(2, to) {
            return Err(reason);
        }
        if self.joins.len() >= MOST_JOINS {
            return Err(NetworkReason::JoinsLimits);
        }
        if self.joins.push(Join { from, to }).is_err() {
            return Err(NetworkReason::Memory);
        }
        Ok(())
    }

    /// Takes each pair of a sender so far and a receiver so far.
    pub(crate) fn take_join_all(&mut self, alloc: A) -> Result<(), NetworkReason>
        requires { IsRead self.old }
        ensures value { Makes NetworkReason.Memory (reading_of self.new) result
            (after_join_all (reading_of self.old)) }
        ensures read { OnOk result (IsRead self.new) }
    {
        if self.kinds.is_empty() {
            return Err(NetworkReason::ChannelsFirst);
        }
        let senders = channels_with(alloc, &self.kinds, End::Sender)?;
        let receivers = channels_with(alloc, &self.kinds, End::Receiver)?;
        if self.joins.len() + senders.len() * receivers.len() > MOST_JOINS {
            return Err(NetworkReason::AllJoinsLimits);
        }
        put_every_join(&mut self.joins, &senders, &receivers)?;
        Ok(())
    }

    /// The place of the choice behind a channel for packets to an ejection channel.
    fn cell(&self, x: usize, j: usize) -> usize
        requires read { IsRead self.now }
        requires begun { self.now.begun ≡ true }
        requires channel { x < length self.now.kinds.items }
        requires ejects { is_receiver (slice_get self.now.kinds.items j) ≡ true }
        ensures cell { result ≡ cell_of (reading_of self.now) x j }
        ensures within { result < length self.now.choices.items }
    {
        x * self.ejections + self.columns[j]
    }

    /// The place of the choice behind a channel for packets to an ejection channel, where one is given.
    pub fn taken_cell(&self, x: usize, j: usize) -> Option<usize>
        requires { IsRead self.now }
        ensures value { result ≡ taken_cell (reading_of self.now) x j }
        ensures within { IfSome result (λ cell. cell < length self.now.choices.items) }
    {
        if !self.begun {
            return None;
        }
        if x >= self.kinds.len() {
            return None;
        }
        if !self.ejects(j) {
            return None;
        }
        let cell = self.cell(x, j);
        if self.choices[cell] as usize == self.kinds.len() {
            return None;
        }
        Some(cell)
    }

    /// Takes the choice at a place.
    fn take_choice(&mut self, cell: usize, choice: u32) -> Result<(), NetworkReason>
        requires read { IsRead self.old }
        requires cell { cell < length self.old.choices.items }
        ensures value { Makes NetworkReason.Memory (reading_of self.new) result
            (after_choice (reading_of self.old) cell choice) }
        ensures read { OnOk result (IsRead self.new) }
    {
        if self.choices[cell] as usize != self.kinds.len() {
            return Err(NetworkReason::ChoiceTwice);
        }
        self.choices[cell] = choice;
        Ok(())
    }

    /// Takes a choice.
    pub(crate) fn take_next(
        &mut self,
        alloc: A,
        channel: u32,
        to: u32,
        choice: u32,
    ) -> Result<(), NetworkReason>
        requires { IsRead self.old }
        ensures value { Makes NetworkReason.Memory (reading_of self.new) result
            (after_next (reading_of self.old) channel to choice) }
        ensures read { OnOk result (IsRead self.new) }
    {
        let x = channel as usize;
        let j = to as usize;
        if let Some(reason) = self.lacks(1, x) {
            return Err(reason);
        }
        if let Some(reason) = self.lacks(2, j) {
            return Err(reason);
        }
        if !self.ejects(j) {
            return Err(NetworkReason::NotEjection(2));
        }
        if let Some(reason) = self.lacks(3, choice as usize) {
            return Err(reason);
        }
        self.begin(alloc)?;
        let cell = self.cell(x, j);
        self.take_choice(cell, choice)
    }

    /// Takes where packets from an ejection channel are answered.
    pub(crate) fn take_reply(&mut self, from: u32, to: u32) -> Result<(), NetworkReason>
        requires { IsRead self.old }
        ensures value { Makes NetworkReason.Memory (reading_of self.new) result
            (after_reply (reading_of self.old) from to) }
        ensures read { OnOk result (IsRead self.new) }
    {
        let from = from as usize;
        let to = to as usize;
        if let Some(reason) = self.lacks(1, from) {
            return Err(reason);
        }
        if !self.ejects(from) {
            return Err(NetworkReason::NotEjection(1));
        }
        if let Some(reason) = self.lacks(2, to) {
            return Err(reason);
        }
        if !self.injects(to) {
            return Err(NetworkReason::NotInjection(2));
        }
        if has_reply(&self.replies, from, to) {
            return Err(NetworkReason::ReplyTwice);
        }
        if self.replies.push(Reply { from, to }).is_err() {
            return Err(NetworkReason::Memory);
        }
        Ok(())
    }
    /// Takes how many flits each packet has.
    pub(crate) fn take_length(&mut self, flits: u32) -> Result<(), NetworkReason>
        requires { IsRead self.old }
        ensures value { Makes NetworkReason.Memory (reading_of self.new) result
            (after_length (reading_of self.old) flits) }
        ensures read { OnOk result (IsRead self.new) }
    {
        if self.kinds.is_empty() {
            return Err(NetworkReason::ChannelsFirst);
        }
        if self.flits.is_some() {
            return Err(NetworkReason::LengthTwice);
        }
        if !(1 <= flits && flits <= MOST_FLITS) {
            return Err(NetworkReason::LengthLimits);
        }
        self.flits = Some(flits);
        Ok(())
    }
}
