ghost use Rattle.std.specs.Prelude.{OnErr, OnOk, ◌≡◌};
ghost use Rattle.std.specs.Io.KnownBytes.{Appends};
ghost use Rattle.report_lines.specs.Taken.{AppendsFront, Rose};
ghost use Rattle.command_live.specs.Said.{said_text};

use crate::{Told, told_text};
use report_lines::output::put_all;
use report_lines::{Out, OutputFailed, Report, write_report};
use std::alloc::{Allocator, Global};

/// What is answered to a line of a dialogue.
#[derive(Drop)]
pub enum Said<A: Allocator = Global> {
    /// One line, or nothing.
    Told(Told),
    /// The report of the run so far.
    Report(Report<A>),
    /// Lines: that of the machine's record, or the rows of the order of operations.
    Lines(String<A>),
}

/// Puts the text of what is answered. It fails only where the output took none of some bytes that it was
/// given; then a beginning of the text was taken.
pub fn put_said<W: Out, A: Allocator>(out: &mut W, said: &Said<A>) -> Result<(), OutputFailed>
    ensures ok { OnOk result (Appends (W.taken out.old) (W.taken out.new) (said_text said.now)) }
    ensures err { OnErr result
        (AppendsFront (W.taken out.old) (W.taken out.new) (said_text said.now)) }
    ensures quiet { OnOk result (W.failures out.new ≡ W.failures out.old) }
    ensures failed { OnErr result (Rose (W.failures out.old) (W.failures out.new)) }
{
    match said {
        Said::Told(told) => put_all(out, told_text(*told).as_str().as_bytes()),
        Said::Report(report) => write_report(out, report),
        Said::Lines(lines) => put_all(out, lines.as_bytes()),
    }
}
