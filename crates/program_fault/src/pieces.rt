//! The pieces of a sentence: words and numbers.

use std::fmt;

/// The greatest number below this one.
fn last_below(count: u64) -> u64 {
    count.saturating_sub(1)
}

/// Words and the number behind them, if there is one.
#[derive(Clone, Copy)]
pub(crate) struct Piece {
    words: &'static str,
    number: Option<u64>,
}

impl fmt::Display for Piece {
    fn fmt<W: fmt::Write>(&self, f: &mut fmt::Formatter<W>) -> fmt::Result {
        f.write_str(self.words)?;
        match self.number {
            None => Ok(()),
            Some(number) => write!(f, "{number}"),
        }
    }
}

/// Words without a number.
pub(crate) fn words(words: &'static str) -> Piece {
    Piece {
        words,
        number: None,
    }
}

/// Words and a number behind them.
pub(crate) fn number(words: &'static str, number: u64) -> Piece {
    Piece {
        words,
        number: Some(number),
    }
}

/// A sentence of three pieces.
#[derive(Clone, Copy)]
pub(crate) struct Sentence(pub(crate) Piece, pub(crate) Piece, pub(crate) Piece);

impl fmt::Display for Sentence {
    fn fmt<W: fmt::Write>(&self, f: &mut fmt::Formatter<W>) -> fmt::Result {
        write!(f, "{}{}{}", self.0, self.1, self.2)
    }
}

/// A sentence without numbers.
pub(crate) fn plain(text: &'static str) -> Sentence {
    Sentence(words(text), words(""), words(""))
}

/// A sentence with one number.
pub(crate) fn one(before: &'static str, found: u32, behind: &'static str) -> Sentence {
    Sentence(number(before, u64::from(found)), words(behind), words(""))
}

/// A sentence with two numbers and words behind them.
pub(crate) fn two(
    before: &'static str,
    first: u64,
    between: &'static str,
    second: u64,
    behind: &'static str,
) -> Sentence {
    Sentence(
        number(before, first),
        number(between, second),
        words(behind),
    )
}

/// A sentence that ends with a number that was wanted.
pub(crate) fn but(
    before: &'static str,
    found: u32,
    between: &'static str,
    wanted: u64,
) -> Sentence {
    two(before, u64::from(found), between, wanted, "")
}

/// A sentence that ends with the greatest number below a count.
pub(crate) fn up_to(
    before: &'static str,
    found: u32,
    between: &'static str,
    count: u64,
) -> Sentence {
    but(before, found, between, last_below(count))
}
