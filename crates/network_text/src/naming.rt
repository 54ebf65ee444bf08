//! What a line gives that names a router or a channel.

ghost use Rattle.std.specs.Prelude.{◌≡◌, ◌<◌, true, ℕ, map, length, Err, IfErr, IfOk, OnOk, Result};
ghost use Rattle.network_text.specs.declared.reason.NetworkReason.{NetworkReason};
ghost use Rattle.lexer.specs.Outcome.{Makes};
ghost use Rattle.network_text.specs.Network.{Reading as ReadSpec};
ghost use Rattle.network_text.specs.Network.{after_router, after_link, after_name, names_at, begun_names};
ghost use Rattle.network_text.specs.Network.{with_names};
ghost use Rattle.std.specs.List.{list_all};
ghost use Rattle.std.specs.Char.{is_ascii_graphic};
ghost use Rattle.network_text.specs.Shapes.{is_name, are_few, are_names};
ghost use Rattle.network_text.specs.Shapes.{after_router_words, after_link_words, after_name_words};
ghost use Rattle.network_text.specs.Reading.{reading_of, IsRead};

use crate::lines::{number_at, three_numbers};
use crate::reading::{GivenNames, Reading, UNNAMED};
use crate::reason::{Keyword, NetworkReason};
use std::alloc::{AllocError, Allocator};

/// The most bytes of a word of a name.
const MOST_BYTES: usize = 40;

/// Routers have numbers below this, and so have channels.
const MOST_NUMBERS: usize = 65536;

/// Whether all bytes are visible ASCII.
fn are_visible(bytes: &[u8]) -> bool
    ensures { result ≡ list_all is_ascii_graphic bytes.now }
{
    bytes.iter().all(|byte| byte.is_ascii_graphic())
}

/// Whether a word may stand in a name.
fn is_name(word: &[u8]) -> bool
    ensures { result ≡ is_name word.now }
{
    if word.len() > MOST_BYTES {
        return false;
    }
    are_visible(word)
}

/// Whether there are one to four words.
fn are_few(words: &[&[u8]]) -> bool
    ensures { result ≡ are_few (map (λ word. word.now) words.now) }
{
    match words {
        [] => false,
        [_] => true,
        [_, _] => true,
        [_, _, _] => true,
        [_, _, _, _] => true,
        _ => false,
    }
}

/// Whether the first four of some words may be a name.
fn are_names(words: &[&[u8]]) -> bool
    requires { are_few (map (λ word. word.now) words.now) ≡ true }
    ensures { result ≡ are_names (map (λ word. word.now) words.now) }
{
    match words {
        [a] => is_name(a),
        [a, b] => is_name(a) && is_name(b),
        [a, b, c] => is_name(a) && is_name(b) && is_name(c),
        [a, b, c, d] => is_name(a) && is_name(b) && is_name(c) && is_name(d),
        _ => true,
    }
}

/// The number of the router behind `router`.
fn router_number(values: &[&[u8]]) -> Result<u32, NetworkReason>
    ensures number { IfOk result (λ x. (f : ℕ → Result ReadSpec NetworkReason)
        → after_router_words f (map (λ value. value.now) values.now) ≡ f x) }
    ensures reason { IfErr result (λ e. (f : ℕ → Result ReadSpec NetworkReason)
        → after_router_words f (map (λ value. value.now) values.now) ≡ Err e) }
{
    match values {
        [number, name] => match (number_at(1, number), is_name(name)) {
            (Ok(number), true) => Ok(number),
            (Ok(_), false) => Err(NetworkReason::NotName),
            (Err(reason), _) => Err(reason),
        },
        [number, name, x, y] => match (
            number_at(1, number),
            number_at(3, x),
            number_at(4, y),
            is_name(name),
        ) {
            (Ok(number), Ok(_), Ok(_), true) => Ok(number),
            (Ok(_), Ok(_), Ok(_), false) => Err(NetworkReason::NotName),
            (Err(reason), _, _, _) => Err(reason),
            (Ok(_), Err(reason), _, _) => Err(reason),
            (Ok(_), Ok(_), Err(reason), _) => Err(reason),
        },
        _ => Err(NetworkReason::NumberCount(Keyword::Router)),
    }
}

/// The channel behind `link`, and the routers at its ends.
fn link_numbers(values: &[&[u8]]) -> Result<(u32, u32, u32), NetworkReason>
    ensures numbers { IfOk result (λ r. (f : ℕ → ℕ → ℕ → Result ReadSpec NetworkReason)
        → after_link_words f (map (λ value. value.now) values.now) ≡ f r.0 r.1 r.2) }
    ensures reason { IfErr result (λ e. (f : ℕ → ℕ → ℕ → Result ReadSpec NetworkReason)
        → after_link_words f (map (λ value. value.now) values.now) ≡ Err e) }
{
    match values {
        [channel, from, to] => three_numbers(channel, from, to),
        [channel, from, to, number] => match (
            number_at(1, channel),
            number_at(2, from),
            number_at(3, to),
            number_at(4, number),
        ) {
            (Ok(channel), Ok(from), Ok(to), Ok(_)) => Ok((channel, from, to)),
            (Err(reason), _, _, _) => Err(reason),
            (Ok(_), Err(reason), _, _) => Err(reason),
            (Ok(_), Ok(_), Err(reason), _) => Err(reason),
            (Ok(_), Ok(_), Ok(_), Err(reason)) => Err(reason),
        },
        _ => Err(NetworkReason::NumberCount(Keyword::Link)),
    }
}

/// The channel behind `name`.
fn name_number(values: &[&[u8]]) -> Result<u32, NetworkReason>
    ensures number { IfOk result (λ x. (f : ℕ → Result ReadSpec NetworkReason)
        → after_name_words f (map (λ value. value.now) values.now) ≡ f x) }
    ensures reason { IfErr result (λ e. (f : ℕ → Result ReadSpec NetworkReason)
        → after_name_words f (map (λ value. value.now) values.now) ≡ Err e) }
{
    match values {
        [] => Err(NetworkReason::NumberCount(Keyword::Name)),
        [channel, words @ ..] => {
            if !are_few(words) {
                return Err(NetworkReason::NumberCount(Keyword::Name));
            }
            let channel = number_at(1, channel)?;
            if are_names(words) {
                Ok(channel)
            } else {
                Err(NetworkReason::NotName)
            }
        }
    }
}

impl<A: Allocator + Copy> Reading<A> {
    /// The names under a number.
    fn names_at(&self, x: usize) -> GivenNames
        ensures { result ≡ names_at (reading_of self.now) x }
    {
        if x < self.names.len() {
            self.names[x]
        } else {
            UNNAMED
        }
    }

    /// Has room for the names under so many numbers, without one, if none was given.
    ///
    /// Errors: out of memory.
    fn begin_names(&mut self, alloc: A, room: usize) -> Result<(), AllocError>
        requires read { IsRead self.old }
        requires room { room ≡ 65536 }
        ensures value { OnOk result
            (reading_of self.new ≡ begun_names room (reading_of self.old)) }
        ensures room { OnOk result (length self.new.names.items ≡ 65536) }
        ensures read { OnOk result (IsRead self.new) }
    {
        if !self.names.is_empty() {
            return Ok(());
        }
        self.names = vec![in alloc; UNNAMED; room]?;
        Ok(())
    }

    /// Has these names under a number.
    fn put_names(&mut self, alloc: A, x: usize, names: GivenNames) -> Result<(), NetworkReason>
        requires read { IsRead self.old }
        requires small { x < 65536 }
        ensures value { OnOk result (reading_of self.new
            ≡ with_names (reading_of self.old) x names) }
        ensures memory { IfErr result (λ e. e ≡ NetworkReason.Memory) }
        ensures read { OnOk result (IsRead self.new) }
    {
        self.begin_names(alloc, MOST_NUMBERS)?;
        self.names[x] = names;
        Ok(())
    }

    /// Takes a router.
    fn take_router(&mut self, alloc: A, router: u32) -> Result<(), NetworkReason>
        requires { IsRead self.old }
        ensures value { Makes NetworkReason.Memory (reading_of self.new) result
            (after_router (reading_of self.old) router) }
        ensures read { OnOk result (IsRead self.new) }
    {
        let x = router as usize;
        if self.kinds.is_empty() {
            return Err(NetworkReason::ChannelsFirst);
        }
        if x >= MOST_NUMBERS {
            return Err(NetworkReason::RouterLimits);
        }
        let names = self.names_at(x);
        if names.router {
            return Err(NetworkReason::RouterTwice);
        }
        let router = true;
        self.put_names(alloc, x, GivenNames { router, ..names })
    }

    /// Takes the routers at the ends of a channel.
    fn take_link(&mut self, alloc: A, channel: u32, from: u32, to: u32) -> Result<(), NetworkReason>
        requires { IsRead self.old }
        ensures value { Makes NetworkReason.Memory (reading_of self.new) result
            (after_link (reading_of self.old) channel from to) }
        ensures read { OnOk result (IsRead self.new) }
    {
        let x = channel as usize;
        if let Some(reason) = self.lacks(1, x) {
            return Err(reason);
        }
        if !self.names_at(from as usize).router {
            return Err(NetworkReason::NotRouter(2));
        }
        if !self.names_at(to as usize).router {
            return Err(NetworkReason::NotRouter(3));
        }
        let names = self.names_at(x);
        if names.link {
            return Err(NetworkReason::LinkTwice);
        }
        let link = true;
        self.put_names(alloc, x, GivenNames { link, ..names })
    }

    /// Takes the name of a channel.
    fn take_name(&mut self, alloc: A, channel: u32) -> Result<(), NetworkReason>
        requires { IsRead self.old }
        ensures value { Makes NetworkReason.Memory (reading_of self.new) result
            (after_name (reading_of self.old) channel) }
        ensures read { OnOk result (IsRead self.new) }
    {
        let x = channel as usize;
        if let Some(reason) = self.lacks(1, x) {
            return Err(reason);
        }
        let names = self.names_at(x);
        if names.name {
            return Err(NetworkReason::NameTwice);
        }
        let name = true;
        self.put_names(alloc, x, GivenNames { name, ..names })
    }

    /// Takes the words after `router`.
    pub(crate) fn router_line(&mut self, alloc: A, values: &[&[u8]]) -> Result<(), NetworkReason>
        requires { IsRead self.old }
        ensures value { Makes NetworkReason.Memory (reading_of self.new) result
            (after_router_words (after_router (reading_of self.old))
            (map (λ value. value.now) values.now)) }
        ensures read { OnOk result (IsRead self.new) }
    {
        let router = router_number(values)?;
        self.take_router(alloc, router)
    }

    /// Takes the words after `link`.
    pub(crate) fn link_line(&mut self, alloc: A, values: &[&[u8]]) -> Result<(), NetworkReason>
        requires { IsRead self.old }
        ensures value { Makes NetworkReason.Memory (reading_of self.new) result
            (after_link_words (after_link (reading_of self.old))
            (map (λ value. value.now) values.now)) }
        ensures read { OnOk result (IsRead self.new) }
    {
        let (channel, from, to) = link_numbers(values)?;
        self.take_link(alloc, channel, from, to)
    }

    /// Takes the words after `name`.
    pub(crate) fn name_line(&mut self, alloc: A, values: &[&[u8]]) -> Result<(), NetworkReason>
        requires { IsRead self.old }
        ensures value { Makes NetworkReason.Memory (reading_of self.new) result
            (after_name_words (after_name (reading_of self.old))
            (map (λ value. value.now) values.now)) }
        ensures read { OnOk result (IsRead self.new) }
    {
        let channel = name_number(values)?;
        self.take_name(alloc, channel)
    }
}
