//! What the words of a line spell.

ghost use Rattle.std.specs.Prelude.{◌≡◌, map};
ghost use Rattle.lexer.specs.Spelled.{index_or_zero, first_index, second_index};
ghost use Rattle.lexer.specs.Spelled.{value_or_zero, first_value, second_value};

use crate::number::{index, value};

/// The number that a word spells, 2^31 from there on; 0 for any other word.
pub fn index_or_zero(word: &[u8]) -> u32
    ensures { result ≡ index_or_zero word.now }
{
    index(word).unwrap_or(0)
}

/// The number that the first of some words spells.
pub fn first_index(words: &[&[u8]]) -> u32
    ensures { result ≡ first_index (map (λ word. word.now) words.now) }
{
    match words {
        [] => 0,
        [word, ..] => index_or_zero(word),
    }
}

/// The number that the second of some words spells.
pub fn second_index(words: &[&[u8]]) -> u32
    ensures { result ≡ second_index (map (λ word. word.now) words.now) }
{
    match words {
        [] => 0,
        [_] => 0,
        [_, word, ..] => index_or_zero(word),
    }
}

/// The number that a word spells, 2^64 from there on; 0 for any other word.
pub fn value_or_zero(word: &[u8]) -> u128
    ensures { result ≡ value_or_zero word.now }
{
    value(word).unwrap_or(0)
}

/// The number up to 2^64 that the first of some words spells.
pub fn first_value(words: &[&[u8]]) -> u128
    ensures { result ≡ first_value (map (λ word. word.now) words.now) }
{
    match words {
        [] => 0,
        [word, ..] => value_or_zero(word),
    }
}

/// The number up to 2^64 that the second of some words spells.
pub fn second_value(words: &[&[u8]]) -> u128
    ensures { result ≡ second_value (map (λ word. word.now) words.now) }
{
    match words {
        [] => 0,
        [_] => 0,
        [_, word, ..] => value_or_zero(word),
    }
}
