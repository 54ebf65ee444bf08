//! What the text of a network calls its channels.

ghost use Rattle.std.specs.Prelude.{◌≡◌, ◌<◌, ◌++◌, ℕ, [], length, map, slice_index_or};
ghost use Rattle.std.specs.Prelude.{IfOk, OnOk, Some};
ghost use Rattle.std.specs.Str.Lines.{lines};
ghost use Rattle.lexer.specs.Joined.{joined_on};
ghost use Rattle.network_names.specs.Called.{names_so, number_behind, number_named};
ghost use Rattle.network_names.specs.Called.{name_words, router_word};
ghost use Rattle.network_names.specs.Called.{router_name, ends_words, link_words, called};
ghost use Rattle.network_names.specs.Called.{AreNamingLines};
ghost use Rattle.network_names.specs.Listed.{AreTitles, noted};

use lexer::{first_index, first_words, index_or_zero, next_line};
use network_judge::Kind;
use network_text::Keyword;
use std::alloc::{AllocError, Allocator, Global};

/// What a line names.
#[derive(Clone, Copy)]
pub enum Naming {
    /// A router.
    Router,
    /// A channel, by the routers at its ends.
    Link,
    /// A channel.
    Name,
}

/// The lines of a text that name its routers and channels, by number: an empty line where none does.
#[derive(Drop)]
pub struct Titles<'a, A: Allocator = Global> {
    /// The text.
    pub text: &'a [u8],
    /// The lines of numbers below this are listed.
    pub room: usize,
    /// The line of each router.
    pub routers: Vec<&'a [u8], A>,
    /// The line of the routers at the ends of each channel.
    pub links: Vec<&'a [u8], A>,
    /// The line of each channel's name.
    pub names: Vec<&'a [u8], A>,
}

/// Whether a line of this keyword names so.
fn names_so(naming: Naming, keyword: Keyword) -> bool
    ensures { result ≡ names_so naming keyword }
{
    match (naming, keyword) {
        (Naming::Router, Keyword::Router) => true,
        (Naming::Link, Keyword::Link) => true,
        (Naming::Name, Keyword::Name) => true,
        _ => false,
    }
}

/// The number that a line of this keyword names so, by the words behind it.
fn number_behind(naming: Naming, keyword: Keyword, values: &[&[u8]]) -> Option<u32>
    ensures { result ≡ number_behind naming (Some keyword) (map (λ value. value.now) values.now) }
{
    if names_so(naming, keyword) {
        Some(first_index(values))
    } else {
        None
    }
}

/// The number that a line of these words names so.
fn number_named(naming: Naming, words: &[&[u8]]) -> Option<u32>
    ensures { result ≡ number_named naming (map (λ word. word.now) words.now) }
{
    match words {
        [] => None,
        [word, values @ ..] => match Keyword::of(word) {
            None => None,
            Some(keyword) => number_behind(naming, keyword, values),
        },
    }
}

/// Notes a line under the number that it names so, if none is noted there.
fn note<'a, A: Allocator>(naming: Naming, line: &'a [u8], found: &mut Vec<&'a [u8], A>)
    ensures size { length found.new.items ≡ length found.old.items }
    ensures each { (x : ℕ) → x < length found.old.items
        → slice_index_or (map (λ l. l.now) found.new.items) x []
        ≡ noted naming x line.now (slice_index_or (map (λ l. l.now) found.old.items) x []) }
{
    let (words, count) = first_words(line);
    if let Some(number) = number_named(naming, &words[..count]) {
        let x = number as usize;
        if x < found.len() && found[x].is_empty() {
            found[x] = line;
        }
    }
}

/// The lines of a text that name numbers below `room` so.
///
/// Errors: out of memory.
fn lines_naming<'a, A: Allocator + Copy>(
    alloc: A,
    text: &'a [u8],
    room: usize,
    naming: Naming,
) -> Result<Vec<&'a [u8], A>, AllocError>
    ensures { IfOk result (λ found.
        AreNamingLines room naming (lines text.now) (map (λ l. l.now) found.items)) }
{
    let mut found = vec![in alloc; b"".as_slice(); room]?;
    let mut rest = text;
    while let Some((line, after)) = next_line(rest) {
        note(naming, line, &mut found);
        rest = after;
    }
    Ok(found)
}

/// The lines of a text that name its routers and channels of numbers below `room`.
///
/// Errors: out of memory.
pub fn titles_of<'a, A: Allocator + Copy>(
    alloc: A,
    text: &'a [u8],
    room: usize,
) -> Result<Titles<'a, A>, AllocError>
    ensures titles { IfOk result AreTitles }
    ensures text { IfOk result (λ titles. titles.text.now ≡ text.now) }
    ensures room { IfOk result (λ titles. titles.room ≡ room) }
{
    Ok(Titles {
        text,
        room,
        routers: lines_naming(alloc, text, room, Naming::Router)?,
        links: lines_naming(alloc, text, room, Naming::Link)?,
        names: lines_naming(alloc, text, room, Naming::Name)?,
    })
}

/// The line of a number; an empty one where there is none.
fn line_of<'a>(found: &[&'a [u8]], x: usize) -> &'a [u8]
    ensures { result.now ≡ slice_index_or (map (λ l. l.now) found.now) x [] }
{
    if x < found.len() { found[x] } else { b"" }
}

/// Adds words, each behind a space.
fn put_joined<A: Allocator>(out: &mut Vec<u8, A>, words: &[&[u8]]) -> Result<(), AllocError>
    ensures { OnOk result
        (out.new.items ≡ out.old.items ++ joined_on (map (λ word. word.now) words.now)) }
{
    for word in words {
        out.push(b' ')?;
        out.extend_from_slice(word)?;
    }
    Ok(())
}

/// Adds the words of a name, by the words of its line.
fn put_name<A: Allocator>(out: &mut Vec<u8, A>, words: &[&[u8]]) -> Result<(), AllocError>
    ensures { OnOk result
        (out.new.items ≡ out.old.items ++ name_words (map (λ word. word.now) words.now)) }
{
    match words {
        [] => Ok(()),
        [_] => Ok(()),
        [_, _] => Ok(()),
        [_, _, word, more @ ..] => {
            out.extend_from_slice(word)?;
            put_joined(out, more)
        }
    }
}

/// The name of a router, by the words of its line.
fn router_word<'a>(words: &[&'a [u8]]) -> &'a [u8]
    ensures { result.now ≡ router_word (map (λ word. word.now) words.now) }
{
    match words {
        [] => b"",
        [_] => b"",
        [_, _] => b"",
        [_, _, name, ..] => name,
    }
}

/// Adds between which routers a channel goes.
fn put_ends<A: Allocator>(
    out: &mut Vec<u8, A>,
    kind: Kind,
    start: &[u8],
    end: &[u8],
) -> Result<(), AllocError>
    ensures { OnOk result (out.new.items ≡ out.old.items ++ ends_words kind start.now end.now) }
{
    match kind {
        Kind::Injection => {
            out.extend_from_slice(b"into ")?;
            out.extend_from_slice(end)
        }
        Kind::Hop => {
            out.extend_from_slice(start)?;
            out.extend_from_slice(b" to ")?;
            out.extend_from_slice(end)
        }
        Kind::Ejection => {
            out.extend_from_slice(b"out of ")?;
            out.extend_from_slice(start)
        }
    }
}

impl<'a, A: Allocator> Titles<'a, A> {
    /// The name of the router that a word numbers.
    fn router_name(&self, number: &[u8]) -> &'a [u8]
        requires { AreTitles self.now }
        ensures { result.now ≡ router_name self.now.room (lines self.now.text.now) number.now }
    {
        let (words, count) = first_words(line_of(&self.routers, index_or_zero(number) as usize));
        router_word(&words[..count])
    }

    /// Adds between which routers a channel goes, by the words of the line that gives them.
    fn put_link<B: Allocator>(
        &self,
        out: &mut Vec<u8, B>,
        kind: Kind,
        words: &[&[u8]],
    ) -> Result<(), AllocError>
        requires { AreTitles self.now }
        ensures { OnOk result (out.new.items ≡ out.old.items
            ++ link_words self.now.room (lines self.now.text.now) kind
            (map (λ word. word.now) words.now)) }
    {
        match words {
            [] => Ok(()),
            [_] => Ok(()),
            [_, _] => Ok(()),
            [_, _, _] => Ok(()),
            [_, _, start, end, ..] => {
                put_ends(out, kind, self.router_name(start), self.router_name(end))
            }
        }
    }

    /// Adds what the text calls a channel of this kind: its name, or else the routers that it goes between;
    /// nothing where it says neither.
    ///
    /// Errors: out of memory.
    pub fn put_called<B: Allocator>(
        &self,
        out: &mut Vec<u8, B>,
        kind: Kind,
        channel: usize,
    ) -> Result<(), AllocError>
        requires { AreTitles self.now }
        ensures { OnOk result (out.new.items ≡ out.old.items
            ++ called self.now.room (lines self.now.text.now) kind channel) }
    {
        let (words, count) = first_words(line_of(&self.names, channel));
        match &words[..count] {
            [_, ..] => put_name(out, &words[..count]),
            [] => {
                let (words, count) = first_words(line_of(&self.links, channel));
                self.put_link(out, kind, &words[..count])
            }
        }
    }
}
