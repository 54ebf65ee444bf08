//! What the text of a network calls a channel.

use crate::before::Wanted;
use lexer::{Before, Quoted, QuotedWords};
use network_judge::Kind;
use network_judge::walk::{is_receiver, is_sender};
use std::fmt;

/// A channel as a sentence names it: its number, and in brackets what the text calls it, or between which
/// of its routers it goes: `8 (1 out of 0,2)`, `24 (0,0 to 1,0)`.
#[derive(Clone, Copy)]
pub struct Title<'a> {
    /// The text; an empty one where it has no names.
    pub text: &'a [u8],
    /// What kind of channel it is.
    pub kind: Kind,
    /// The number of the channel.
    pub channel: usize,
}

/// The number of the line of a text that gives this; 0 where none does.
fn line_of(text: &[u8], wanted: Wanted) -> u64 {
    Before {
        text,
        stop: u64::MAX,
    }
    .line_that_gives(wanted)
    .unwrap_or(0)
}

/// The name of the router that stands at a place of the line on the ends of a channel.
fn router_at<'a>(text: &'a [u8], link: u64, place: usize) -> Quoted<'a> {
    let number = lexer::index(QuotedWords::of_line(text, link).at(place).word).unwrap_or(0);
    QuotedWords::of_line(text, line_of(text, Wanted::Router(number))).at(2)
}

/// Writes the words of a name, which are the first two words of its line and what stands behind.
fn put_name<W: fmt::Write>(f: &mut fmt::Formatter<W>, name: &QuotedWords<'_>) -> fmt::Result {
    write!(f, " ({}", name.at(2))?;
    for place in 3..6 {
        let word = name.at(place);
        if !word.word.is_empty() {
            write!(f, " {word}")?;
        }
    }
    f.write_str(")")
}

impl<'a> Title<'a> {
    /// Writes the routers at the ends of the channel.
    fn put_ends<W: fmt::Write>(&self, f: &mut fmt::Formatter<W>, link: u64) -> fmt::Result {
        let (start, end) = (router_at(self.text, link, 2), router_at(self.text, link, 3));
        if is_sender(Some(self.kind)) {
            write!(f, " (into {end})")
        } else if is_receiver(Some(self.kind)) {
            write!(f, " (out of {start})")
        } else {
            write!(f, " ({start} to {end})")
        }
    }
}

impl<'a> fmt::Display for Title<'a> {
    fn fmt<W: fmt::Write>(&self, f: &mut fmt::Formatter<W>) -> fmt::Result {
        write!(f, "{}", self.channel)?;
        let channel = u32::try_from(self.channel).unwrap_or(u32::MAX);
        let name = line_of(self.text, Wanted::Name(channel));
        if name != 0 {
            return put_name(f, &QuotedWords::of_line(self.text, name));
        }
        let link = line_of(self.text, Wanted::Link(channel));
        if link == 0 {
            Ok(())
        } else {
            self.put_ends(f, link)
        }
    }
}
