//! What a line before a refused one gave already.

ghost use Rattle.std.specs.Prelude.{◌≡◌, map};
ghost use Rattle.std.specs.Str.Lines.{lines};
ghost use Rattle.sentences.specs.Before.{begin_with, open_address, given_twice, line_giving};
ghost use Rattle.sentences.specs.Before.{earlier_line};

use lexer::{Before, Sought, index_or_zero};
use script::{Keyword, TextReason};

/// What a line of a machine text gives, once.
#[derive(Clone, Copy)]
pub(crate) enum Gift {
    Setting(Keyword),
    /// The opening word of this address.
    Opening(u32),
}

impl Sought for Gift {
    ghost use Rattle.sentences.specs.Before.{words_give};

    ghost gives = { words_give };

    fn is_in(self, words: &[&[u8]]) -> bool {
        match self {
            Gift::Setting(keyword) => begin_with(keyword, words),
            Gift::Opening(address) => open_address(address, words),
        }
    }
}

/// Whether words begin with a keyword.
fn begin_with(keyword: Keyword, words: &[&[u8]]) -> bool
    ensures { result ≡ begin_with keyword (map (λ word. word.now) words.now) }
{
    match words {
        [] => false,
        [word, ..] => *word == keyword.word().as_bytes(),
    }
}

/// Whether words are those of the opening word of this address.
fn open_address(address: u32, words: &[&[u8]]) -> bool
    ensures { result ≡ open_address address (map (λ word. word.now) words.now) }
{
    match words {
        [] => false,
        [_] => false,
        [word, a, ..] => *word == b"init".as_slice() && index_or_zero(a) == address,
    }
}

/// What is given twice, by the reason for which the second line is refused.
fn given_twice(reason: TextReason) -> Option<Gift>
    ensures { result ≡ given_twice reason }
{
    match reason {
        TextReason::GivenTwice(keyword) => Some(Gift::Setting(keyword)),
        TextReason::InitTwice(address) => Some(Gift::Opening(address)),
        _ => None,
    }
}

/// The number of the first line before the line of a number that gives it; 0 where none does.
fn line_giving(before: Before<'_>, gift: Option<Gift>) -> u64
    ensures { result ≡ line_giving gift before.entry.stop (lines before.entry.text.now) }
{
    match gift {
        Some(gift) => before.line_that_gives(gift).unwrap_or(0),
        None => 0,
    }
}

/// The number of the line before a refused one that gave the same; 0 where the reason is another.
pub(crate) fn earlier_line(text: &[u8], line: u64, reason: TextReason) -> u64
    ensures { result ≡ earlier_line reason line (lines text.now) }
{
    line_giving(Before { text, stop: line }, given_twice(reason))
}
