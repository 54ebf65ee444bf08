ghost use Rattle.std.specs.Prelude.{◌≡◌, ◌<◌, All, OnOk, OnErr};
ghost use Rattle.std.specs.Io.KnownBytes.{Appends};
ghost use Rattle.std.specs.List.{flat_map};
ghost use Rattle.std.specs.Str.Lines.{lines};
ghost use Rattle.dateline_route.specs.Walk.{IsChannel};
ghost use Rattle.report_lines.specs.Taken.{AppendsFront, Rose};
ghost use Rattle.program_fault.specs.Done.{output};
ghost use Rattle.command_texts.specs.Done.{PrintsRoute};
ghost use Rattle.command_texts.specs.Lines.{channel_line};

use crate::ProgramFault;
use crate::line::channel_line;
use dateline_route::{Channel, route};
use report_lines::output::put_all;
use report_lines::{Out, OutputFailed};
use script::read_machine;
use std::alloc::Allocator;
use torus::{Class, Torus};

/// Prints the route of a packet of this class from tile `src` to tile `dst`, one line a channel, with
/// the channels' numbers.
///
/// Errors: the machine text's first fault; out of memory; a tile that is not there; and nothing was
/// written then. If the output fails, a beginning was written.
pub fn route_text<A: Allocator + Copy, W: Out>(
    alloc: A,
    machine: &[u8],
    src: u32,
    dst: u32,
    class: Class,
    out: &mut W,
) -> Result<(), ProgramFault>
    ensures { PrintsRoute (lines machine.now) src dst class
        (output (W.taken out.old) (W.failures out.old))
        (output (W.taken out.new) (W.failures out.new)) result }
{
    let machine = read_machine(alloc, machine)?;
    let torus = machine.torus();
    if src >= torus.tiles() || dst >= torus.tiles() {
        return Err(ProgramFault::Tile);
    }
    put_route(out, torus, route(torus, src, dst, class).as_slice())?;
    Ok(())
}

/// Puts a line for each channel.
fn put_route<W: Out>(out: &mut W, torus: &Torus, channels: &[Channel]) -> Result<(), OutputFailed>
    requires { All (IsChannel torus.now) channels.now }
    ensures ok { OnOk result
        (Appends (W.taken out.old) (W.taken out.new)
        (flat_map (channel_line torus.now) channels.now)) }
    ensures err { OnErr result
        (AppendsFront (W.taken out.old) (W.taken out.new)
        (flat_map (channel_line torus.now) channels.now)) }
    ensures quiet { OnOk result (W.failures out.new ≡ W.failures out.old) }
    ensures failed { OnErr result (Rose (W.failures out.old) (W.failures out.new)) }
{
    for channel in channels {
        let line = channel_line(torus, *channel);
        put_all(out, line.as_str().as_bytes())?;
    }
    Ok(())
}
