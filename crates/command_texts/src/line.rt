ghost use Rattle.std.specs.Prelude.{◌≡◌, ◌≤◌, ◌+◌, ◌++◌, ◌∷◌, codes, decimal, length};
ghost use Rattle.arrayvec.specs.ArrayString.{array_string_len};
ghost use Rattle.torus.specs.Shape.{tiles_of};
ghost use Rattle.dateline_route.specs.Walk.{IsChannel};
ghost use Rattle.command_texts.specs.Lines.{channel_line, place_line, dir_word, bit_word};

use arrayvec::ArrayString;
use channel_number::number_of;
use dateline_route::{Channel, Kind};
use itoa::Buffer;
use torus::{Dir, Torus};

/// One line of an output, its line feed with it.
pub(crate) type LineText = ArrayString<80>;

/// A line that begins with a word.
fn started(word: &str) -> LineText
    requires { length word.now ≤ 8 }
    ensures text { result.bytes ≡ word.now }
    ensures len { array_string_len result ≤ 8 }
{
    let mut line = ArrayString::new();
    line.push_str(word);
    line
}

/// Adds a space and a word.
fn put_word(line: &mut LineText, word: &str)
    requires { array_string_len line.old + length word.now + 1 ≤ 80 }
    ensures text { line.new.bytes ≡ line.old.bytes ++ (32 ∷ word.now) }
    ensures len { array_string_len line.new ≡ array_string_len line.old + length word.now + 1 }
{
    line.push_str(" ");
    line.push_str(word);
}

/// Adds a space and a number.
fn put_number(line: &mut LineText, n: u32)
    requires { array_string_len line.old + 11 ≤ 80 }
    ensures text { line.new.bytes ≡ line.old.bytes ++ (32 ∷ decimal n) }
    ensures len { array_string_len line.new ≤ array_string_len line.old + 11 }
{
    let mut digits = Buffer::new();
    put_word(line, digits.format(n));
}

/// The word for a direction.
fn dir_word(dir: Dir) -> &'static str
    ensures word { result.now ≡ dir_word dir }
    ensures short { length result.now ≤ 5 }
{
    match dir {
        Dir::Plus => "plus",
        Dir::Minus => "minus",
    }
}

/// The word for a bit.
fn bit_word(bit: bool) -> &'static str
    ensures word { result.now ≡ bit_word bit }
    ensures short { length result.now ≤ 1 }
{
    if bit { "1" } else { "0" }
}

/// The line of a channel of a route, with its number.
pub(crate) fn channel_line(torus: &Torus, channel: Channel) -> LineText
    requires { IsChannel torus.now channel }
    ensures { result.bytes ≡ channel_line torus.now channel }
{
    let mut line = match channel.kind {
        Kind::Injection => {
            let mut line = started("inject");
            put_number(&mut line, channel.tile);
            line
        }
        Kind::Hop { dim, dir, bit } => {
            let mut line = started("hop");
            put_number(&mut line, channel.tile);
            put_number(&mut line, dim);
            put_word(&mut line, dir_word(dir));
            put_word(&mut line, bit_word(bit));
            line
        }
        Kind::Ejection => {
            let mut line = started("eject");
            put_number(&mut line, channel.tile);
            line
        }
    };
    put_number(&mut line, number_of(torus, channel));
    line.push_str("\n");
    line
}

/// The line of the channel that stands at a place among those of its tile, with its number.
pub(crate) fn place_line(tile: u32, place: u32, number: u32) -> LineText
    ensures { result.bytes ≡ place_line tile place number }
{
    let mut line = started("channel");
    put_number(&mut line, tile);
    put_number(&mut line, place);
    put_number(&mut line, number);
    line.push_str("\n");
    line
}
