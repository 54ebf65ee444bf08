ghost use Rattle.std.specs.Prelude.{◌≡◌, ◌≤◌, ◌+◌, ◌++◌, codes, decimal, length};
ghost use Rattle.arrayvec.specs.ArrayString.{array_string_len};
ghost use Rattle.torus.specs.FaultCode.{fault_code};
ghost use Rattle.program_fault.specs.Message.{fault_text_of, line_text_of};

use crate::ProgramFault;
use arrayvec::ArrayString;
use itoa::Buffer;
use lexer::LineFault;
use torus::Fault;

/// A line that the program prints for a fault, without its line feed.
pub type FaultText = ArrayString<64>;

/// `fault` and the code.
fn coded(fault: Fault) -> FaultText
    ensures text { result.bytes ≡ codes "fault " ++ fault_code fault }
    ensures len { array_string_len result ≤ 9 }
{
    let mut text = ArrayString::new();
    text.push_str("fault ");
    text.push_str(fault.code());
    text
}

/// Adds a line's number after these words.
fn put_line(text: &mut FaultText, words: &str, line: u64)
    requires { array_string_len text.old + length words.now ≤ 44 }
    ensures { text.new.bytes ≡ text.old.bytes ++ words.now ++ decimal line }
{
    let mut digits = Buffer::new();
    text.push_str(words);
    text.push_str(digits.format(line));
}

/// The fault and its line; out of memory has none.
fn line_text(found: LineFault) -> FaultText
    ensures { result.bytes ≡ line_text_of found.fault found.line }
{
    let mut text = coded(found.fault);
    if found.fault != Fault::Memory {
        put_line(&mut text, " at line ", found.line);
    }
    text
}

/// What the program prints for a fault: `fault F7 at line 2`, `fault F12`, `output failed`, `tile
/// out of range` or `bad report at line 4`.
pub fn fault_text(fault: &ProgramFault) -> ArrayString<64>
    ensures { result.bytes ≡ fault_text_of fault.now }
{
    match *fault {
        ProgramFault::Line(found) => line_text(found),
        ProgramFault::Fault(fault) => coded(fault),
        ProgramFault::Output => words("output failed"),
        ProgramFault::Tile => words("tile out of range"),
        ProgramFault::Bad(line) => {
            let mut text = words("bad report");
            put_line(&mut text, " at line ", line);
            text
        }
    }
}

/// These words alone.
fn words(words: &str) -> FaultText
    requires { length words.now ≤ 20 }
    ensures text { result.bytes ≡ words.now }
    ensures len { array_string_len result ≤ 20 }
{
    let mut text = ArrayString::new();
    text.push_str(words);
    text
}
