//! A watch over an input, line by line, and how it ends.

use crate::stop::Stop;
use crate::watching::Watching;
use std::alloc::{AllocError, Allocator, Global};
use std::io::{self, BufRead, ErrorKind, Read};
use trace_text::TraceReason;

/// The most bytes that a line has, its end apart.
const MOST_BYTES: u64 = 65536;

/// How a watch ends.
#[derive(Clone, Copy)]
pub enum End {
    /// The input is at its end, and one order explains all answers.
    Linearizable,
    /// The watch ends at a line.
    Stopped(Stop),
    /// A line has more bytes than a line has.
    TooLong,
    /// The input can't be read.
    Unread(ErrorKind),
}

/// Where and how a watch ended.
#[derive(Drop)]
pub struct Ended<A: Allocator = Global> {
    /// The line, from 1; the one behind the last where the input is at its end.
    pub line: u64,
    /// What stands there, without the end of the line.
    pub text: Vec<u8, A>,
    pub watching: Watching<A>,
    pub end: End,
}

/// What came of reading a line.
#[derive(Clone, Copy)]
enum LineRead {
    /// There is none: the input is at its end.
    AtEnd,
    /// The line is there.
    Whole,
    /// The line has more bytes than a line has.
    TooLong,
}

/// Reads the next line, without its end: a line feed, and a carriage return before it.
fn read_next<A: Allocator, I: BufRead>(
    input: &mut I,
    text: &mut Vec<u8, A>,
) -> io::Result<LineRead> {
    text.clear();
    let count = input.by_ref().take(MOST_BYTES + 2).read_until(b'\n', text)?;
    if count == 0 {
        return Ok(LineRead::AtEnd);
    }
    if text.last() == Some(&b'\n') {
        text.pop();
        if text.last() == Some(&b'\r') {
            text.pop();
        }
    }
    if text.len() as u64 > MOST_BYTES {
        return Ok(LineRead::TooLong);
    }
    Ok(LineRead::Whole)
}

/// How a watch ends whose input is at its end: a line that the head lacks shows there.
fn at_end<A: Allocator + Copy>(watching: &Watching<A>) -> End {
    match watching.reading.head.missing() {
        Some(reason) => End::Stopped(Stop::Refused(TraceReason::Line(reason))),
        None => End::Linearizable,
    }
}

/// Reads the next line and takes it, and answers how the watch ends with it, if it does.
fn step<A: Allocator + Copy, I: BufRead>(
    alloc: A,
    input: &mut I,
    watching: &mut Watching<A>,
    text: &mut Vec<u8, A>,
    line: u64,
    bound: usize,
) -> Option<End> {
    match read_next(input, text) {
        Ok(LineRead::Whole) => match watching.take_line(alloc, line, text, bound) {
            Ok(()) => None,
            Err(stop) => Some(End::Stopped(stop)),
        },
        Ok(LineRead::TooLong) => Some(End::TooLong),
        Ok(LineRead::AtEnd) => Some(at_end(watching)),
        Err(error) => Some(End::Unread(error.kind())),
    }
}

/// Judges the trace that an input has, line by line as it comes, with at most so many configurations of a
/// word at once, until a line ends the watch or the input is at its end.
///
/// Errors: out of memory, before the first line.
pub fn watch<A: Allocator + Copy, I: BufRead>(
    alloc: A,
    input: &mut I,
    bound: usize,
) -> Result<Ended<A>, AllocError> {
    let mut watching = Watching::begin(alloc)?;
    let mut text = Vec::with_capacity(alloc, MOST_BYTES as usize + 2)?;
    let mut end = None;
    let mut line = 0;
    for next in 1..u64::MAX {
        line = next;
        end = step(alloc, input, &mut watching, &mut text, line, bound);
        if end.is_some() {
            break;
        }
    }
    Ok(Ended {
        line,
        text,
        watching,
        end: end.unwrap_or(End::Linearizable),
    })
}
