//! A dialogue: lines come from an input, and what is answered goes to an output, line by line.

ghost use Rattle.std.specs.Prelude.{◌≡◌, IfOk, OnOk, true};
ghost use Rattle.std.specs.Io.KnownBytes.{Appends};
ghost use Rattle.command_live.specs.Text.{told_text};
ghost use Rattle.program_fault.specs.Done.{output};
ghost use Rattle.command_live.specs.Responding.{Responds, goes_on};

use crate::obeying::obey;
use crate::said::put_said;
use crate::{Command, Told, read_command, second_word, told_text};
use machine_record::RecordedMachine;
use program_fault::ProgramFault;
use report_lines::output::put_all;
use report_lines::{Out, OutputFailed, Piped};
use std::alloc::Allocator;
use std::io::{self, BufRead, ErrorKind, Read, Write};
use torus::Fault;

/// The most bytes that a line has, its end apart, but for one that brings a record.
const MOST_BYTES: u64 = 4096;

/// Whether the dialogue goes on behind a command.
fn goes_on(command: Command) -> bool
    ensures { result ≡ goes_on command }
{
    match command {
        Command::Quit => false,
        Command::Nothing => true,
        Command::Ask(_, _) => true,
        Command::Step(_) => true,
        Command::Rounds(_) => true,
        Command::Clocked(_) => true,
        Command::Wait(_, _) => true,
        Command::Finish => true,
        Command::Finished => true,
        Command::Word(_) => true,
        Command::Order(_) => true,
        Command::Report => true,
        Command::Reopen => true,
        Command::Save => true,
        Command::Load => true,
        Command::Refused(_) => true,
        Command::Bad => true,
    }
}

/// Does what a line asks for, and puts what is answered. Answers whether the dialogue goes on.
///
/// Errors: the output failed; a beginning of the answer was put.
pub fn respond<A: Allocator + Copy, W: Out>(
    alloc: A,
    machine: &mut RecordedMachine<A>,
    line: &[u8],
    out: &mut W,
) -> Result<bool, OutputFailed>
    ensures { Responds A line.now machine.old machine.new
        (output (W.taken out.old) (W.failures out.old))
        (output (W.taken out.new) (W.failures out.new)) result }
{
    let torus = machine.machine().torus();
    let command = read_command(line, torus, machine.machine().words());
    let said = obey(alloc, machine, command, second_word(line));
    put_said(out, &said)?;
    Ok(goes_on(command))
}

/// Answers why a line isn't obeyed. The dialogue goes on.
fn refuse<W: Out>(out: &mut W, why: Told) -> Result<bool, OutputFailed>
    ensures ok { OnOk result (Appends (W.taken out.old) (W.taken out.new) (told_text why)) }
    ensures on { IfOk result (λ on. on ≡ true) }
{
    put_all(out, told_text(why).as_str().as_bytes())?;
    Ok(true)
}

/// What came of reading a line.
#[derive(Clone, Copy)]
enum Came {
    /// There is none: the input is at its end, or it failed.
    Nothing,
    /// The line is there.
    Line,
    /// The line has more bytes than a line has; all of them are passed.
    TooLong,
    /// Memory for the line was refused; all of it is passed.
    NoMemory,
}

/// Whether a line begins so that it may have more bytes than others: it brings a record.
fn brings_record(line: &[u8]) -> bool {
    line.starts_with(b"load ".as_slice())
}

/// Takes the end off a line: a line feed, and a carriage return before it.
fn cut_end<A: Allocator>(line: &mut Vec<u8, A>) {
    if line.last() == Some(&b'\n') {
        line.pop();
        if line.last() == Some(&b'\r') {
            line.pop();
        }
    }
}

/// Reads the rest of a line that brings a record, without the line's end.
fn read_rest<A: Allocator, I: BufRead>(input: &mut I, line: &mut Vec<u8, A>) -> io::Result<Came> {
    match input.read_until(b'\n', line) {
        Ok(_) => {
            cut_end(line);
            Ok(Came::Line)
        }
        Err(error) => {
            if error.kind() != ErrorKind::OutOfMemory {
                return Err(error);
            }
            input.skip_until(b'\n')?;
            Ok(Came::NoMemory)
        }
    }
}

/// What comes of a line that has more bytes than a line has. It is whole, or its rest is still to be read.
fn long_line<A: Allocator, I: BufRead>(
    input: &mut I,
    line: &mut Vec<u8, A>,
    is_whole: bool,
) -> io::Result<Came> {
    match (brings_record(line), is_whole) {
        (true, true) => Ok(Came::Line),
        (true, false) => read_rest(input, line),
        (false, true) => Ok(Came::TooLong),
        (false, false) => {
            input.skip_until(b'\n')?;
            Ok(Came::TooLong)
        }
    }
}

/// Reads the next line, without its end.
fn next_line<A: Allocator, I: BufRead>(input: &mut I, line: &mut Vec<u8, A>) -> io::Result<Came> {
    line.clear();
    let count = input.by_ref().take(MOST_BYTES + 2).read_until(b'\n', line)?;
    if count == 0 {
        return Ok(Came::Nothing);
    }
    let is_whole = line.last() == Some(&b'\n');
    cut_end(line);
    if line.len() as u64 > MOST_BYTES {
        return long_line(input, line, is_whole);
    }
    Ok(Came::Line)
}

/// Holds a dialogue: for each line that the input has does what it asks for, and puts and flushes what is
/// answered, until a line asks for the end, or the input is at its end, or fails.
///
/// Errors: out of memory, before the first line; or the output failed.
pub fn converse<A: Allocator + Copy, I: BufRead, W: Write>(
    alloc: A,
    machine: &mut RecordedMachine<A>,
    input: &mut I,
    out: &mut W,
) -> Result<(), ProgramFault> {
    let Ok(mut line) = Vec::with_capacity(alloc, MOST_BYTES as usize + 2) else {
        return Err(ProgramFault::Fault(Fault::Memory));
    };
    for _ in 0..u64::MAX {
        let goes_on = match next_line(input, &mut line) {
            Ok(Came::Line) => respond(alloc, machine, &line, &mut Piped::new(&mut *out))?,
            Ok(Came::TooLong) => refuse(&mut Piped::new(&mut *out), Told::BadLine)?,
            Ok(Came::NoMemory) => {
                refuse(&mut Piped::new(&mut *out), Told::Refused(Fault::Memory))?
            }
            Ok(Came::Nothing) => false,
            Err(_) => false,
        };
        if !goes_on {
            break;
        }
        if out.flush().is_err() {
            return Err(ProgramFault::Output);
        }
    }
    Ok(())
}
