//! The words of a line, as they are quoted.

use crate::lines::line_at;
use crate::words::first_words;
use std::fmt;

/// How many bytes of a word are quoted at most.
const MOST: usize = 40;

/// A word of a text as it is quoted: bytes that are no visible ASCII as `\x` and two digits, and what
/// stands behind the first 40 bytes as two dots.
#[derive(Clone, Copy)]
pub struct Quoted<'a> {
    pub word: &'a [u8],
}

/// Writes a byte of a word.
fn put_byte<W: fmt::Write>(f: &mut fmt::Formatter<W>, byte: u8) -> fmt::Result {
    if b'!' <= byte && byte <= b'~' {
        f.write_char(byte as char)
    } else {
        write!(f, "\\x{byte:02x}")
    }
}

impl<'a> fmt::Display for Quoted<'a> {
    fn fmt<W: fmt::Write>(&self, f: &mut fmt::Formatter<W>) -> fmt::Result {
        let shown = self.word.len().min(MOST);
        for byte in self.word[..shown].iter() {
            put_byte(f, *byte)?;
        }
        let end = if shown < self.word.len() { ".." } else { "" };
        f.write_str(end)
    }
}

/// The first words of a line; those that it hasn't are empty. Prints as the words that it has, with a
/// space between two of them.
#[derive(Clone, Copy)]
pub struct QuotedWords<'a> {
    pub words: [&'a [u8]; 7],
}

impl<'a> QuotedWords<'a> {
    /// The words of the line of a number, which counts from 1; none where there is no such line.
    pub fn of_line(text: &'a [u8], wanted: u64) -> QuotedWords<'a> {
        let (words, _) = first_words(line_at(text, wanted).unwrap_or(b"".as_slice()));
        QuotedWords { words }
    }

    /// The word at a place, from 0, as it is quoted.
    pub fn at(&self, place: usize) -> Quoted<'a> {
        match self.words.get(place) {
            Some(word) => Quoted { word },
            None => Quoted { word: b"" },
        }
    }
}

impl<'a> fmt::Display for QuotedWords<'a> {
    fn fmt<W: fmt::Write>(&self, f: &mut fmt::Formatter<W>) -> fmt::Result {
        for (i, word) in self.words.iter().enumerate() {
            if word.is_empty() {
                return Ok(());
            }
            if i > 0 {
                f.write_char(' ')?;
            }
            write!(f, "{}", Quoted { word })?;
        }
        Ok(())
    }
}
