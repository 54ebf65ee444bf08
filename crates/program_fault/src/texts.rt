//! The texts of a command, read whole.

use crate::unread::Unread;
use std::fs::{File, OpenFile};
use std::io::{ErrorKind, Input, Read};
use std::rt::Files;

/// The most bytes that a text may have: 2 GiB.
const MOST_BYTES: u64 = 2147483648;

/// The names of the texts of a command, in the order in which its words name them; `None` where it
/// names fewer.
#[derive(Clone, Copy)]
pub struct Names<'a> {
    pub first: Option<&'a str>,
    pub second: Option<&'a str>,
    pub third: Option<&'a str>,
}

/// Why there are no texts.
pub enum Failure<'a> {
    /// The text of this name can't be read, and why.
    Unread(&'a str, Unread),
    /// A request for memory was refused.
    Memory,
}

/// The texts of a command. Where it names fewer, the others are empty.
#[derive(Drop)]
pub struct Texts {
    pub first: Vec<u8>,
    pub second: Vec<u8>,
    pub third: Vec<u8>,
}

/// Reads the texts of these names.
///
/// Errors: the first that can't be read, or that memory ran out.
pub fn read_texts<'a, R: Files + Input + AllocGlobal>(
    rt: &R,
    names: &Names<'a>,
) -> Result<Texts, Failure<'a>> {
    let is_first = names.first == Some("-");
    let is_second = names.second == Some("-");
    Ok(Texts {
        first: text(rt, names.first, false)?,
        second: text(rt, names.second, is_first)?,
        third: text(rt, names.third, is_first || is_second)?,
    })
}

/// All bytes of the text of a name; none where there is no name. Where standard input `is_taken`,
/// it can't be read.
fn text<'a, R: Files + Input + AllocGlobal>(
    rt: &R,
    name: Option<&'a str>,
    is_taken: bool,
) -> Result<Vec<u8>, Failure<'a>> {
    let Some(name) = name else {
        return Ok(Vec::new(rt.alloc()));
    };
    let bytes = match name {
        "-" if is_taken => Err(Unread::Taken),
        "-" => bytes_behind(Vec::new(rt.alloc()), rt.reader()),
        _ => file_bytes(rt, name),
    };
    match bytes {
        Ok(bytes) => Ok(bytes),
        Err(Unread::Refused(ErrorKind::OutOfMemory)) => Err(Failure::Memory),
        Err(why) => Err(Failure::Unread(name, why)),
    }
}

/// All bytes of a file. One that is too long is refused by its size, before it is read.
fn file_bytes<R: Files + AllocGlobal>(rt: &R, name: &str) -> Result<Vec<u8>, Unread> {
    let file = File::open(rt, name)?;
    if file.metadata()?.len() > MOST_BYTES {
        return Err(Unread::TooLong);
    }
    bytes_behind(Vec::new(rt.alloc()), file)
}

/// These bytes, and behind them all that a reader has. Of one that doesn't end within the limit, a
/// byte more than the limit is read.
///
/// Errors: why it can't be read, or that all are more than 2 GiB.
pub fn bytes_behind<T: Read + Drop>(mut bytes: Vec<u8>, reader: T) -> Result<Vec<u8>, Unread> {
    reader.take(MOST_BYTES + 1).read_to_end(&mut bytes)?;
    if bytes.len() as u64 > MOST_BYTES {
        return Err(Unread::TooLong);
    }
    Ok(bytes)
}
