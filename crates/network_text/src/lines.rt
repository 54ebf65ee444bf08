//! What a line gives, by its words.

ghost use Rattle.std.specs.Prelude.{◌≡◌, ℕ, map, Err, IfErr, IfOk, OnOk, Result};
ghost use Rattle.network_text.specs.declared.reason.NetworkReason.{NetworkReason};
ghost use Rattle.lexer.specs.Outcome.{Makes};
ghost use Rattle.network_text.specs.Network.{Reading as ReadSpec};
ghost use Rattle.network_text.specs.Network.{after_channels, after_inject, after_eject};
ghost use Rattle.network_text.specs.Network.{after_next, after_reply, after_length};
ghost use Rattle.network_text.specs.Network.{after_keyword, after_words};
ghost use Rattle.network_text.specs.Shapes.{after_one, after_two, after_three, number_at, three_at};
ghost use Rattle.network_text.specs.Reading.{reading_of, IsRead};

use crate::reading::Reading;
use crate::reason::{Keyword, NetworkReason};
use lexer::index;
use std::alloc::Allocator;

/// The number that a word spells where one belongs, of the word at this place of its line.
pub fn number_at(place: u32, word: &[u8]) -> Result<u32, NetworkReason>
    ensures { result ≡ number_at place word.now }
{
    match index(word) {
        Some(index) => Ok(index),
        None => Err(NetworkReason::NotNumber(place)),
    }
}

/// The one number behind a keyword.
fn one_index(keyword: Keyword, values: &[&[u8]]) -> Result<u32, NetworkReason>
    ensures number { IfOk result (λ x. (f : ℕ → Result ReadSpec NetworkReason)
        → after_one keyword f (map (λ value. value.now) values.now) ≡ f x) }
    ensures reason { IfErr result (λ e. (f : ℕ → Result ReadSpec NetworkReason)
        → after_one keyword f (map (λ value. value.now) values.now) ≡ Err e) }
{
    match values {
        [a] => number_at(1, a),
        _ => Err(NetworkReason::NumberCount(keyword)),
    }
}

/// The two numbers behind a keyword.
fn two_indexes(keyword: Keyword, values: &[&[u8]]) -> Result<(u32, u32), NetworkReason>
    ensures numbers { IfOk result (λ r. (f : ℕ → ℕ → Result ReadSpec NetworkReason)
        → after_two keyword f (map (λ value. value.now) values.now) ≡ f r.0 r.1) }
    ensures reason { IfErr result (λ e. (f : ℕ → ℕ → Result ReadSpec NetworkReason)
        → after_two keyword f (map (λ value. value.now) values.now) ≡ Err e) }
{
    match values {
        [a, b] => match (number_at(1, a), number_at(2, b)) {
            (Ok(x), Ok(y)) => Ok((x, y)),
            (Err(reason), _) => Err(reason),
            (Ok(_), Err(reason)) => Err(reason),
        },
        _ => Err(NetworkReason::NumberCount(keyword)),
    }
}

/// The numbers that the three words behind a keyword spell.
pub(crate) fn three_numbers(a: &[u8], b: &[u8], c: &[u8]) -> Result<(u32, u32, u32), NetworkReason>
    ensures numbers { IfOk result (λ r. (f : ℕ → ℕ → ℕ → Result ReadSpec NetworkReason)
        → three_at f a.now b.now c.now ≡ f r.0 r.1 r.2) }
    ensures reason { IfErr result (λ e. (f : ℕ → ℕ → ℕ → Result ReadSpec NetworkReason)
        → three_at f a.now b.now c.now ≡ Err e) }
{
    match (number_at(1, a), number_at(2, b), number_at(3, c)) {
        (Ok(x), Ok(j), Ok(y)) => Ok((x, j, y)),
        (Err(reason), _, _) => Err(reason),
        (Ok(_), Err(reason), _) => Err(reason),
        (Ok(_), Ok(_), Err(reason)) => Err(reason),
    }
}

/// The three numbers behind a keyword.
fn three_indexes(keyword: Keyword, values: &[&[u8]]) -> Result<(u32, u32, u32), NetworkReason>
    ensures numbers { IfOk result (λ r. (f : ℕ → ℕ → ℕ → Result ReadSpec NetworkReason)
        → after_three keyword f (map (λ value. value.now) values.now) ≡ f r.0 r.1 r.2) }
    ensures reason { IfErr result (λ e. (f : ℕ → ℕ → ℕ → Result ReadSpec NetworkReason)
        → after_three keyword f (map (λ value. value.now) values.now) ≡ Err e) }
{
    match values {
        [a, b, c] => three_numbers(a, b, c),
        _ => Err(NetworkReason::NumberCount(keyword)),
    }
}

impl<A: Allocator + Copy> Reading<A> {
    /// Takes what the words of a line give.
    ///
    /// Errors: why the line is refused.
    pub fn take(&mut self, alloc: A, words: &[&[u8]]) -> Result<(), NetworkReason>
        requires { IsRead self.old }
        ensures value { Makes NetworkReason.Memory (reading_of self.new) result
            (after_words (reading_of self.old) (map (λ word. word.now) words.now)) }
        ensures read { OnOk result (IsRead self.new) }
    {
        match words {
            [] => Ok(()),
            [[b'#', ..], ..] => Ok(()),
            [word, values @ ..] => match Keyword::of(word) {
                Some(keyword) => self.take_keyword(alloc, keyword, values),
                None => Err(NetworkReason::UnknownKeyword),
            },
        }
    }

    /// Takes a line by its keyword.
    fn take_keyword(
        &mut self,
        alloc: A,
        keyword: Keyword,
        values: &[&[u8]],
    ) -> Result<(), NetworkReason>
        requires { IsRead self.old }
        ensures value { Makes NetworkReason.Memory (reading_of self.new) result
            (after_keyword (reading_of self.old) keyword (map (λ value. value.now) values.now)) }
        ensures read { OnOk result (IsRead self.new) }
    {
        match keyword {
            Keyword::Channels => self.channels_line(alloc, values),
            Keyword::Inject => self.inject_line(values),
            Keyword::Eject => self.eject_line(values),
            Keyword::Join => self.join_words(alloc, values),
            Keyword::Next => self.next_line(alloc, values),
            Keyword::Reply => self.reply_line(values),
            Keyword::Length => self.length_line(values),
            Keyword::Router => self.router_line(alloc, values),
            Keyword::Link => self.link_line(alloc, values),
            Keyword::Name => self.name_line(alloc, values),
            Keyword::Escape => Err(NetworkReason::UnknownKeyword),
        }
    }

    /// Takes the number after `channels`.
    fn channels_line(&mut self, alloc: A, values: &[&[u8]]) -> Result<(), NetworkReason>
        requires { IsRead self.old }
        ensures value { Makes NetworkReason.Memory (reading_of self.new) result
            (after_one Keyword.Channels (after_channels (reading_of self.old))
            (map (λ value. value.now) values.now)) }
        ensures read { OnOk result (IsRead self.new) }
    {
        let count = one_index(Keyword::Channels, values)?;
        self.take_channels(alloc, count)
    }

    /// Takes the number after `inject`.
    fn inject_line(&mut self, values: &[&[u8]]) -> Result<(), NetworkReason>
        requires { IsRead self.old }
        ensures value { Makes NetworkReason.Memory (reading_of self.new) result
            (after_one Keyword.Inject (after_inject (reading_of self.old))
            (map (λ value. value.now) values.now)) }
        ensures read { OnOk result (IsRead self.new) }
    {
        let x = one_index(Keyword::Inject, values)?;
        self.take_inject(x)
    }

    /// Takes the number after `eject`.
    fn eject_line(&mut self, values: &[&[u8]]) -> Result<(), NetworkReason>
        requires { IsRead self.old }
        ensures value { Makes NetworkReason.Memory (reading_of self.new) result
            (after_one Keyword.Eject (after_eject (reading_of self.old))
            (map (λ value. value.now) values.now)) }
        ensures read { OnOk result (IsRead self.new) }
    {
        let x = one_index(Keyword::Eject, values)?;
        self.take_eject(x)
    }

    /// Takes the numbers after `next`.
    fn next_line(&mut self, alloc: A, values: &[&[u8]]) -> Result<(), NetworkReason>
        requires { IsRead self.old }
        ensures value { Makes NetworkReason.Memory (reading_of self.new) result
            (after_three Keyword.Next (after_next (reading_of self.old))
            (map (λ value. value.now) values.now)) }
        ensures read { OnOk result (IsRead self.new) }
    {
        let (x, j, y) = three_indexes(Keyword::Next, values)?;
        self.take_next(alloc, x, j, y)
    }

    /// Takes the numbers after `reply`.
    fn reply_line(&mut self, values: &[&[u8]]) -> Result<(), NetworkReason>
        requires { IsRead self.old }
        ensures value { Makes NetworkReason.Memory (reading_of self.new) result
            (after_two Keyword.Reply (after_reply (reading_of self.old))
            (map (λ value. value.now) values.now)) }
        ensures read { OnOk result (IsRead self.new) }
    {
        let (x, y) = two_indexes(Keyword::Reply, values)?;
        self.take_reply(x, y)
    }
    /// Takes the number after `length`.
    fn length_line(&mut self, values: &[&[u8]]) -> Result<(), NetworkReason>
        requires { IsRead self.old }
        ensures value { Makes NetworkReason.Memory (reading_of self.new) result
            (after_one Keyword.Length (after_length (reading_of self.old))
            (map (λ value. value.now) values.now)) }
        ensures read { OnOk result (IsRead self.new) }
    {
        let flits = one_index(Keyword::Length, values)?;
        self.take_length(flits)
    }
}
