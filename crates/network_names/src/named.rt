//! A verdict in which channels have the names that the text of the network gives.

ghost use Rattle.std.specs.Prelude.{◌≡◌, ◌==◌, ◌≤◌, ◌<◌, ◌++◌, length, map, not, IfOk, OnOk};
ghost use Rattle.std.specs.Char.{is_ascii_digit};
ghost use Rattle.std.specs.List.{position_or_len, slice_split};
ghost use Rattle.std.specs.Str.Lines.{lines};
ghost use Rattle.lexer.specs.Numbers.{index_of};
ghost use Rattle.network_names.specs.Listed.{AreTitles};
ghost use Rattle.network_names.specs.Named.{is_channel_at, bracketed, title_of, digits_of};
ghost use Rattle.network_names.specs.Named.{titled, word_at, named_line, named_verdict};

use crate::called::{Titles, titles_of};
use lexer::next_line;
use network_judge::Kind;
use network_judge::walk::kind_at;
use std::alloc::{AllocError, Allocator};

/// Whether a number at word k of a verdict's line that begins with this word is a channel.
fn is_channel_at(chosen: bool, word: &[u8], k: usize) -> bool
    ensures { result ≡ is_channel_at chosen word.now k }
{
    if word == b"number".as_slice() {
        return k <= 1;
    }
    if word == b"dead".as_slice() {
        return k <= 1;
    }
    if word == b"round".as_slice() {
        return k <= 2;
    }
    if word == b"no".as_slice() {
        return k <= 4;
    }
    if word == b"fill".as_slice() {
        return chosen || k <= 2;
    }
    lexer::index(word).is_some()
}

/// Adds a name in brackets, behind a space; nothing where there is none.
fn put_bracketed<A: Allocator>(out: &mut Vec<u8, A>, name: &[u8]) -> Result<(), AllocError>
    ensures { OnOk result (out.new.items ≡ out.old.items ++ bracketed name.now) }
{
    if name.is_empty() {
        return Ok(());
    }
    out.extend_from_slice(b" (")?;
    out.extend_from_slice(name)?;
    out.extend_from_slice(b")")
}

/// How many digits a word begins with.
fn digits_of(word: &[u8]) -> usize
    ensures value { result ≡ digits_of word.now }
    ensures within { result ≤ length word.now }
{
    for (i, byte) in word.iter().enumerate() {
        if !byte.is_ascii_digit() {
            return i;
        }
    }
    word.len()
}

/// The words of a line of a verdict: a space stands between each two.
///
/// Errors: out of memory.
fn words_of<A: Allocator>(alloc: A, line: &[u8]) -> Result<Vec<&[u8], A>, AllocError>
    ensures { IfOk result
        (λ words. map (λ word. word.now) words.items ≡ slice_split (λ c. c == 32) line.now) }
{
    line.split(|byte| *byte == b' ').collect(alloc)
}

/// What names the channels in a verdict on a network.
#[derive(Drop)]
struct Namer<'a, A: Allocator> {
    alloc: A,
    /// What the text of the network calls its channels.
    titles: Titles<'a, A>,
    /// The kinds of the channels.
    kinds: &'a [Kind],
    /// Whether routers choose.
    chosen: bool,
}

impl<'a, A: Allocator + Copy> Namer<'a, A> {
    /// Adds what the text calls the channel whose number this is, in brackets.
    fn put_title(&self, out: &mut Vec<u8, A>, number: &[u8]) -> Result<(), AllocError>
        requires { AreTitles self.now.titles }
        ensures { OnOk result (out.new.items ≡ out.old.items
            ++ title_of self.now.titles.room (lines self.now.titles.text.now) self.now.kinds.now
            (index_of number.now)) }
    {
        match lexer::index(number) {
            Some(channel) => {
                let x = channel as usize;
                let kind = kind_at(self.kinds, x).unwrap_or(Kind::Hop);
                let mut name = Vec::new(self.alloc);
                self.titles.put_called(&mut name, kind, x)?;
                put_bracketed(out, &name)
            }
            None => Ok(()),
        }
    }

    /// Adds a word with the title of the channel whose number it begins with, behind that number.
    fn put_titled(&self, out: &mut Vec<u8, A>, word: &[u8]) -> Result<(), AllocError>
        requires { AreTitles self.now.titles }
        ensures { OnOk result (out.new.items ≡ out.old.items
            ++ titled (title_of self.now.titles.room (lines self.now.titles.text.now)
            self.now.kinds.now) word.now) }
    {
        let end = digits_of(word);
        out.extend_from_slice(&word[..end])?;
        self.put_title(out, &word[..end])?;
        out.extend_from_slice(&word[end..])
    }

    /// Adds the word at a place of a line, with its title if it is a channel there, behind a space but for the
    /// first.
    fn put_word(&self, out: &mut Vec<u8, A>, words: &[&[u8]], k: usize) -> Result<(), AllocError>
        requires titles { AreTitles self.now.titles }
        requires within { k < length words.now }
        ensures { OnOk result (out.new.items ≡ out.old.items
            ++ word_at (title_of self.now.titles.room (lines self.now.titles.text.now)
            self.now.kinds.now) self.now.chosen (map (λ word. word.now) words.now) k) }
    {
        if k != 0 {
            out.extend_from_slice(b" ")?;
        }
        if is_channel_at(self.chosen, words[0], k) {
            return self.put_titled(out, words[k]);
        }
        out.extend_from_slice(words[k])
    }

    /// Adds a line of a verdict with titles.
    fn put_line(&self, out: &mut Vec<u8, A>, line: &[u8]) -> Result<(), AllocError>
        requires { AreTitles self.now.titles }
        ensures { OnOk result (out.new.items ≡ out.old.items
            ++ named_line (title_of self.now.titles.room (lines self.now.titles.text.now)
            self.now.kinds.now) self.now.chosen line.now) }
    {
        let words = words_of(self.alloc, line)?;
        for k in 0..words.len() {
            self.put_word(out, &words, k)?;
        }
        out.extend_from_slice(b"\n")
    }
}

/// A verdict, and behind each number of a channel what the text of the network calls it, in brackets; names
/// are of numbers below `room`.
///
/// Errors: out of memory.
pub fn named_verdict<A: Allocator + Copy>(
    alloc: A,
    text: &[u8],
    room: usize,
    kinds: &[Kind],
    chosen: bool,
    verdict: &[u8],
) -> Result<Vec<u8, A>, AllocError>
    ensures { IfOk result (λ out.
        out.items ≡ named_verdict room (lines text.now) kinds.now chosen verdict.now) }
{
    let titles = titles_of(alloc, text, room)?;
    let namer = Namer {
        alloc,
        titles,
        kinds,
        chosen,
    };
    let mut out = Vec::new(alloc);
    let mut rest = verdict;
    while let Some((line, after)) = next_line(rest) {
        namer.put_line(&mut out, line)?;
        rest = after;
    }
    Ok(out)
}
