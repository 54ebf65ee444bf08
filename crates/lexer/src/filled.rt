//! Texts with gaps, and what fills them.

use crate::quoted::{Quoted, QuotedWords};
use std::fmt;

/// A text with gaps, and what fills them. Each capital letter is a gap: `dateline W: it is below its
/// radix, which is N`.
#[derive(Clone, Copy)]
pub struct Filled<'a> {
    pub text: &'static str,
    /// The words of the line, of which `A` to `G` are the first to the seventh.
    pub words: QuotedWords<'a>,
    /// The place of the word `W`, from 0.
    pub place: u32,
    /// The number `N`.
    pub number: u128,
    /// The number `M`.
    pub other: u128,
    /// The name `K`.
    pub name: &'static str,
}

impl<'a> Filled<'a> {
    /// The word that a letter stands for.
    fn word(&self, letter: u8) -> Quoted<'a> {
        if b'A' <= letter && letter <= b'G' {
            self.words.at((letter - b'A') as usize)
        } else {
            self.words.at(self.place as usize)
        }
    }

    /// Writes a letter of the text, or what belongs into its gap.
    fn put<W: fmt::Write>(&self, letter: u8, f: &mut fmt::Formatter<W>) -> fmt::Result {
        if letter < b'A' || letter > b'Z' {
            return f.write_char(letter as char);
        }
        match letter {
            b'K' => f.write_str(self.name),
            b'M' => write!(f, "{}", self.other),
            b'N' => write!(f, "{}", self.number),
            _ => write!(f, "{}", self.word(letter)),
        }
    }
}

impl<'a> fmt::Display for Filled<'a> {
    fn fmt<W: fmt::Write>(&self, f: &mut fmt::Formatter<W>) -> fmt::Result {
        for letter in self.text.as_bytes().iter() {
            self.put(*letter, f)?;
        }
        Ok(())
    }
}
