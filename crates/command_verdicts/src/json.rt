//! An answer as a JSON object on one line.

ghost use Rattle.std.specs.Prelude.{◌≡◌, ◌<◌, ◌++◌, IfOk, OnOk};
ghost use Rattle.std.specs.List.{flat_map};
ghost use Rattle.std.specs.Str.{is_utf8};
ghost use Rattle.std.specs.Str.Lines.{lines};
ghost use Rattle.command_verdicts.specs.Json.{byte_by_number, further_string, hex_digit, json_byte};
ghost use Rattle.command_verdicts.specs.Json.{json_object, json_string, json_strings};
ghost use Rattle.command_verdicts.specs.Json.{verdict_of_status};
ghost use Rattle.command_verdicts.specs.Json.{verdict_word};

use lexer::next_line;
use std::alloc::{AllocError, Allocator};

/// An answer in one word.
#[derive(Clone, Copy)]
pub enum Verdict {
    /// What is judged is as it has to be.
    Yes,
    /// It isn't.
    No,
    /// It isn't decided whether it is.
    Undecided,
    /// Nothing is judged: a text or a file has a fault, or memory was refused.
    Fault,
}

/// The word of a verdict.
fn verdict_word(verdict: Verdict) -> &'static str
    ensures { result.now ≡ verdict_word verdict }
{
    match verdict {
        Verdict::Yes => "yes",
        Verdict::No => "no",
        Verdict::Undecided => "undecided",
        Verdict::Fault => "fault",
    }
}

/// The verdict of an answer that the program ends with this status, where something was judged.
pub fn verdict_of_status(status: u8) -> Verdict
    ensures { result ≡ verdict_of_status status }
{
    if status == 0 {
        Verdict::Yes
    } else if status == 5 {
        Verdict::Undecided
    } else {
        Verdict::No
    }
}

/// Whether bytes are UTF-8.
fn is_utf8(bytes: &[u8]) -> bool
    ensures { result ≡ is_utf8 bytes.now }
{
    match std::str::from_utf8(bytes) {
        Ok(_) => true,
        Err(_) => false,
    }
}

/// A number below 16 as a digit to the base 16.
fn hex_digit(n: u8) -> u8
    requires { n < 16 }
    ensures { result ≡ hex_digit n }
{
    if n < 10 { 48 + n } else { 87 + n }
}

/// Adds a byte by the number of a character below 256.
fn put_number<A: Allocator>(json: &mut Vec<u8, A>, byte: u8) -> Result<(), AllocError>
    ensures { OnOk result (json.new.items ≡ json.old.items ++ byte_by_number byte) }
{
    let (high, low) = (hex_digit(byte / 16), hex_digit(byte % 16));
    json.extend_from_slice(&[b'\\', b'u', b'0', b'0', high, low])
}

/// Adds a byte of a line that is UTF-8 or isn't.
fn put_byte<A: Allocator>(json: &mut Vec<u8, A>, utf8: bool, byte: u8) -> Result<(), AllocError>
    ensures { OnOk result (json.new.items ≡ json.old.items ++ json_byte utf8 byte) }
{
    if byte == b'"' || byte == b'\\' {
        json.extend_from_slice(&[b'\\', byte])
    } else if byte < 32 || (!utf8 && byte >= 128) {
        put_number(json, byte)
    } else {
        json.extend_from_slice(&[byte])
    }
}

/// Adds the bytes of a line that is UTF-8 or isn't.
fn put_bytes<A: Allocator>(json: &mut Vec<u8, A>, utf8: bool, line: &[u8]) -> Result<(), AllocError>
    ensures { OnOk result (json.new.items ≡ json.old.items ++ flat_map (json_byte utf8) line.now) }
{
    for byte in line {
        put_byte(json, utf8, *byte)?;
    }
    Ok(())
}

/// Adds a line as a string.
fn put_string<A: Allocator>(json: &mut Vec<u8, A>, line: &[u8]) -> Result<(), AllocError>
    ensures { OnOk result (json.new.items ≡ json.old.items ++ json_string line.now) }
{
    json.extend_from_slice(b"\"")?;
    put_bytes(json, is_utf8(line), line)?;
    json.extend_from_slice(b"\"")
}

/// Adds bytes, and a line as a string behind them.
fn put_behind<A: Allocator>(
    json: &mut Vec<u8, A>,
    before: &[u8],
    line: &[u8],
) -> Result<(), AllocError>
    ensures { OnOk result
        (json.new.items ≡ json.old.items ++ (before.now ++ json_string line.now)) }
{
    json.extend_from_slice(before)?;
    put_string(json, line)
}

/// Adds the lines of a text that aren't the first of an array.
fn put_further<A: Allocator>(json: &mut Vec<u8, A>, text: &[u8]) -> Result<(), AllocError>
    ensures { OnOk result
        (json.new.items ≡ json.old.items ++ flat_map further_string (lines text.now)) }
{
    let mut rest = text;
    while let Some((line, after)) = next_line(rest) {
        put_behind(json, b", ", line)?;
        rest = after;
    }
    Ok(())
}

/// Adds the lines of a text as strings.
fn put_strings<A: Allocator>(json: &mut Vec<u8, A>, text: &[u8]) -> Result<(), AllocError>
    ensures { OnOk result (json.new.items ≡ json.old.items ++ json_strings (lines text.now)) }
{
    match next_line(text) {
        Some((line, rest)) => {
            put_string(json, line)?;
            put_further(json, rest)
        }
        None => Ok(()),
    }
}

/// The object of an answer on one line, with the word of the command, the verdict, and the lines of
/// a text. In a line that isn't UTF-8 each byte from 128 on stands as the character of its number.
///
/// Errors: out of memory.
pub fn json_object<A: Allocator>(
    alloc: A,
    command: &str,
    verdict: Verdict,
    text: &[u8],
) -> Result<Vec<u8, A>, AllocError>
    ensures { IfOk result (λ json. json.items ≡ json_object command.now verdict text.now) }
{
    let mut json = Vec::new(alloc);
    put_behind(&mut json, b"{\"command\": ", command.as_bytes())?;
    put_behind(
        &mut json,
        b", \"verdict\": ",
        verdict_word(verdict).as_bytes(),
    )?;
    json.extend_from_slice(b", \"lines\": [")?;
    put_strings(&mut json, text)?;
    json.extend_from_slice(b"]}\n")?;
    Ok(json)
}
