ghost use Rattle.std.specs.Prelude.{◌≡◌, OnOk, OnErr, length};
ghost use Rattle.std.specs.Io.KnownBytes.{Appends};
ghost use Rattle.std.specs.Str.Lines.{lines};
ghost use Rattle.report_lines.specs.Taken.{AppendsFront, Rose};
ghost use Rattle.channel_number.specs.Order.{channel_count};
ghost use Rattle.program_fault.specs.Done.{Puts, output};
ghost use Rattle.command_texts.specs.Done.{PrintsChannels};
ghost use Rattle.command_texts.specs.Lines.{IsNumbersText, all_lines};

use crate::ProgramFault;
use crate::line::place_line;
use channel_number::{Rising, channel_count, check, numbers};
use report_lines::output::put_all;
use report_lines::{Out, OutputFailed};
use script::read_machine;
use std::alloc::Allocator;
use torus::Torus;

/// Prints the number of each channel, in channel order, and `rising`, which the check says of these
/// numbers: they rise along every route.
///
/// Errors: the machine text's first fault, or out of memory; and nothing was written then. If the
/// output fails, a beginning was written.
pub fn channels_text<A: Allocator + Copy, W: Out>(
    alloc: A,
    machine: &[u8],
    out: &mut W,
) -> Result<(), ProgramFault>
    ensures { PrintsChannels (lines machine.now) (output (W.taken out.old) (W.failures out.old))
        (output (W.taken out.new) (W.failures out.new)) result }
{
    let machine = read_machine(alloc, machine)?;
    let torus = machine.torus();
    let numbers = numbers(alloc, torus)?;
    put_numbers(out, torus, &numbers)?;
    Ok(())
}

/// Puts a line for each channel, in channel order, with these numbers, and `rising` behind them exactly
/// where the numbers rise along every route.
pub fn put_numbers<W: Out>(out: &mut W, torus: &Torus, numbers: &[u32]) -> Result<(), OutputFailed>
    requires { length numbers.now ≡ channel_count torus.now }
    ensures { Puts (IsNumbersText torus.now numbers.now)
        (output (W.taken out.old) (W.failures out.old))
        (output (W.taken out.new) (W.failures out.new)) result }
{
    let checked = check(torus, numbers);
    put_channels(out, torus, numbers)?;
    match checked {
        Ok(Rising) => put_all(out, b"rising\n"),
        Err(_) => Ok(()),
    }
}

/// Puts a line for each channel, in channel order.
fn put_channels<W: Out>(out: &mut W, torus: &Torus, numbers: &[u32]) -> Result<(), OutputFailed>
    requires { length numbers.now ≡ channel_count torus.now }
    ensures ok { OnOk result
        (Appends (W.taken out.old) (W.taken out.new) (all_lines torus.now numbers.now)) }
    ensures err { OnErr result
        (AppendsFront (W.taken out.old) (W.taken out.new) (all_lines torus.now numbers.now)) }
    ensures quiet { OnOk result (W.failures out.new ≡ W.failures out.old) }
    ensures failed { OnErr result (Rose (W.failures out.old) (W.failures out.new)) }
{
    let at_tile = 8 * torus.dims() + 4;
    for index in 0..channel_count(torus) {
        let number = numbers[index as usize];
        let line = place_line(index / at_tile, index % at_tile, number);
        put_all(out, line.as_str().as_bytes())?;
    }
    Ok(())
}
