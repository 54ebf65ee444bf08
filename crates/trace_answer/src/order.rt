//! Writes the one order of a trace.

ghost use Rattle.std.specs.Prelude.{◌≡◌, OnOk, OnErr};
ghost use Rattle.std.specs.Io.KnownBytes.{Appends};
ghost use Rattle.report_lines.specs.Taken.{Rose, AppendsFront};
ghost use Rattle.trace_answer.specs.Texts.{order_text, lines_text};

use crate::line::call_line;
use report_lines::output::put_all;
use report_lines::{Out, OutputFailed};
use trace_laws::Call;
use trace_text::Issued;

/// Writes the line of each operation.
fn write_lines<W: Out>(out: &mut W, issued: &[Issued], order: &[Call]) -> Result<(), OutputFailed>
    ensures ok { OnOk result
        (Appends (W.taken out.old) (W.taken out.new) (lines_text issued.now order.now)) }
    ensures err { OnErr result
        (AppendsFront (W.taken out.old) (W.taken out.new) (lines_text issued.now order.now)) }
    ensures quiet { OnOk result (W.failures out.new ≡ W.failures out.old) }
    ensures failed { OnErr result (Rose (W.failures out.old) (W.failures out.new)) }
{
    for call in order {
        let line = call_line(issued, *call);
        put_all(out, line.as_str().as_bytes())?;
    }
    Ok(())
}

/// Writes the operations in an order, a line each, and `linearizable`. It fails only where the output
/// took none of some bytes that it was given; then a beginning of the text was taken.
pub fn write_order<W: Out>(
    out: &mut W,
    issued: &[Issued],
    order: &[Call],
) -> Result<(), OutputFailed>
    ensures ok { OnOk result
        (Appends (W.taken out.old) (W.taken out.new) (order_text issued.now order.now)) }
    ensures err { OnErr result
        (AppendsFront (W.taken out.old) (W.taken out.new) (order_text issued.now order.now)) }
    ensures quiet { OnOk result (W.failures out.new ≡ W.failures out.old) }
    ensures failed { OnErr result (Rose (W.failures out.old) (W.failures out.new)) }
{
    write_lines(out, issued, order)?;
    put_all(out, b"linearizable\n")
}
