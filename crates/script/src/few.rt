ghost use Rattle.std.specs.Prelude.{◌≡◌, ◌≤◌, ◌<◌, true, length, map, ◌-◌, ◌∷◌, [], take, IfOk, IfNone};
ghost use Rattle.std.specs.List.{list_all};
ghost use Rattle.torus.specs.Refusal.{mixed_of, is_radix, is_dims};
ghost use Rattle.torus.specs.Shape.{product, IsAccepted};
ghost use Rattle.lexer.specs.Outcome.{Agrees};
ghost use Rattle.script.specs.Settings.{few_indexes, one_index, spread, last_digits, uncounted, undated};
ghost use Rattle.script.specs.Settings.{are_dated, bad_radix, not_below};
ghost use Rattle.script.specs.Views.{few_list};

use crate::number::number_at;
use crate::reason::{Keyword, TextReason};
use torus::{Fault, Torus};

/// One number for each of one to three dimensions, or one for all.
#[derive(Clone, Copy)]
pub(crate) enum Few {
    One(u32),
    Two(u32, u32),
    Three(u32, u32, u32),
}

/// The one to three numbers after a keyword.
pub(crate) fn few_indexes(keyword: Keyword, values: &[&[u8]]) -> Result<Few, TextReason>
    ensures { Agrees few_list result
        (few_indexes keyword (map (λ value. value.now) values.now)) }
{
    match values {
        [a] => Ok(Few::One(number_at(1, a)?)),
        [a, b] => two_indexes(keyword, a, b),
        [a, b, c] => three_indexes(keyword, a, b, c),
        [] => Err(TextReason::NumberCount(keyword)),
        [_, _, _, _, ..] => Err(TextReason::NumberCount(keyword)),
    }
}

/// Two numbers.
fn two_indexes(keyword: Keyword, a: &[u8], b: &[u8]) -> Result<Few, TextReason>
    ensures { Agrees few_list result (few_indexes keyword (a.now ∷ b.now ∷ [])) }
{
    let a = number_at(1, a)?;
    let b = number_at(2, b)?;
    Ok(Few::Two(a, b))
}

/// Three numbers.
fn three_indexes(keyword: Keyword, a: &[u8], b: &[u8], c: &[u8]) -> Result<Few, TextReason>
    ensures { Agrees few_list result (few_indexes keyword (a.now ∷ b.now ∷ c.now ∷ [])) }
{
    match (number_at(1, a), number_at(2, b), number_at(3, c)) {
        (Ok(a), Ok(b), Ok(c)) => Ok(Few::Three(a, b, c)),
        (Err(reason), _, _) => Err(reason),
        (Ok(_), Err(reason), _) => Err(reason),
        (Ok(_), Ok(_), Err(reason)) => Err(reason),
    }
}

/// The one number after a keyword.
pub(crate) fn one_index(keyword: Keyword, values: &[&[u8]]) -> Result<u32, TextReason>
    ensures { result ≡ one_index keyword (map (λ value. value.now) values.now) }
{
    match values {
        [value] => number_at(1, value),
        _ => Err(TextReason::NumberCount(keyword)),
    }
}

/// Why the radix at a place is none.
fn no_radix(place: u32, radix: u32) -> Option<TextReason>
    ensures value { result ≡ bad_radix place (radix ∷ []) }
    ensures radix { IfNone result (is_radix radix ≡ true) }
{
    if is_radix(radix) {
        None
    } else {
        Some(TextReason::RadixLimits(place))
    }
}

/// Why the dateline at a place is not below its radix.
fn not_below(place: u32, dateline: u32, radix: u32) -> Option<TextReason>
    ensures value { result ≡ not_below place dateline radix }
    ensures below { IfNone result (dateline < radix) }
{
    if dateline < radix {
        None
    } else {
        Some(TextReason::DatelineLimits(place, radix))
    }
}

impl Few {
    /// How many numbers there are.
    fn len(self) -> u32
        ensures { result ≡ length (few_list self) }
    {
        match self {
            Few::One(_) => 1,
            Few::Two(_, _) => 2,
            Few::Three(_, _, _) => 3,
        }
    }

    /// The first of the numbers that is no radix, 2 to 8.
    pub(crate) fn bad_radix(self) -> Option<TextReason>
        ensures value { result ≡ bad_radix 1 (few_list self) }
        ensures radices { IfNone result (list_all is_radix (few_list self) ≡ true) }
    {
        match self {
            Few::One(a) => no_radix(1, a),
            Few::Two(a, b) => no_radix(1, a).or(no_radix(2, b)),
            Few::Three(a, b, c) => no_radix(1, a).or(no_radix(2, b)).or(no_radix(3, c)),
        }
    }

    /// The radix of each dimension, where one number stands for all of them.
    pub(crate) fn spread(self, dims: u32) -> Few
        requires { is_dims dims ≡ true }
        ensures list { few_list result ≡ spread dims (few_list self) }
        ensures radices { list_all is_radix (few_list self) ≡ true
            → list_all is_radix (few_list result) ≡ true }
    {
        match self {
            Few::One(a) => match dims {
                1 => Few::One(a),
                2 => Few::Two(a, a),
                _ => Few::Three(a, a, a),
            },
            Few::Two(a, b) => Few::Two(a, b),
            Few::Three(a, b, c) => Few::Three(a, b, c),
        }
    }

    /// The product of radices.
    fn product(self) -> u32
        requires { list_all is_radix (few_list self) ≡ true }
        ensures { result ≡ product (few_list self) }
    {
        match self {
            Few::One(a) => a,
            Few::Two(a, b) => a * b,
            Few::Three(a, b, c) => a * b * c,
        }
    }

    /// Why these radices do not go with a number of dimensions.
    pub(crate) fn uncounted(self, dims: u32) -> Option<TextReason>
        requires radices { list_all is_radix (few_list self) ≡ true }
        requires dims { is_dims dims ≡ true }
        ensures { result ≡ uncounted (few_list self) dims }
    {
        if self.len() != 1 && self.len() != dims {
            return Some(TextReason::RadixCount(self.len(), dims));
        }
        let tiles = self.spread(dims).product();
        if tiles > 64 {
            return Some(TextReason::TooManyTiles(tiles));
        }
        None
    }

    /// Why these are not the datelines of dimensions with these radices.
    pub(crate) fn undated(self, radices: Few) -> Option<TextReason>
        ensures value { result ≡ undated (few_list self) (few_list radices) }
        ensures dated { IfNone result (are_dated (few_list self) (few_list radices) ≡ true) }
    {
        match self {
            Few::One(x) => match radices {
                Few::One(a) => not_below(1, x, a),
                Few::Two(_, _) => Some(TextReason::DatelineCount(1, 2)),
                Few::Three(_, _, _) => Some(TextReason::DatelineCount(1, 3)),
            },
            Few::Two(x, y) => match radices {
                Few::One(_) => Some(TextReason::DatelineCount(2, 1)),
                Few::Two(a, b) => not_below(1, x, a).or(not_below(2, y, b)),
                Few::Three(_, _, _) => Some(TextReason::DatelineCount(2, 3)),
            },
            Few::Three(x, y, z) => match radices {
                Few::One(_) => Some(TextReason::DatelineCount(3, 1)),
                Few::Two(_, _) => Some(TextReason::DatelineCount(3, 2)),
                Few::Three(a, b, c) => {
                    not_below(1, x, a)
                        .or(not_below(2, y, b))
                        .or(not_below(3, z, c))
                }
            },
        }
    }

    /// The last digit of each dimension with these radices.
    pub(crate) fn last_digits(self) -> Few
        requires { list_all is_radix (few_list self) ≡ true }
        ensures { few_list result ≡ last_digits (few_list self) }
    {
        match self {
            Few::One(a) => Few::One(a - 1),
            Few::Two(a, b) => Few::Two(a - 1, b - 1),
            Few::Three(a, b, c) => Few::Three(a - 1, b - 1, c - 1),
        }
    }

    /// The numbers in an array, and how many they are.
    fn padded(self) -> ([u32; 3], usize)
        ensures count { result.1 ≤ 3 }
        ensures list { take result.1 result.0 ≡ few_list self }
    {
        match self {
            Few::One(a) => ([a, 0, 0], 1),
            Few::Two(a, b) => ([a, b, 0], 2),
            Few::Three(a, b, c) => ([a, b, c], 3),
        }
    }

    /// The torus of these radices and datelines.
    pub(crate) fn torus(self, datelines: Few) -> Result<Torus, Fault>
        ensures value { result ≡ mixed_of (few_list self) (few_list datelines) }
        ensures accepted { IfOk result IsAccepted }
    {
        let (radices, dims) = self.padded();
        let (datelines, count) = datelines.padded();
        let torus = Torus::mixed(&radices[..dims], &datelines[..count])?;
        let _ = torus.tiles();
        Ok(torus)
    }
}

/// Whether a number is a radix.
fn is_radix(radix: u32) -> bool
    ensures { result ≡ is_radix radix }
{
    2 <= radix && radix <= 8
}
