//! The text of a simulation: a line for each packet, a line for each channel, and how it ends.

ghost use Rattle.std.specs.Prelude.{◌≡◌, ◌++◌, length, decimal, IfOk, OnOk, None};
ghost use Rattle.std.specs.Prelude.{slice_index, slice_index_or};
ghost use Rattle.network_text.specs.Lines.{first_lines};
ghost use Rattle.network_traffic.specs.Written.{round_words, latency_of, timed_words, packet_line};
ghost use Rattle.network_traffic.specs.Written.{packet_line_at, report_text};
ghost use Rattle.network_traffic.specs.Written.{channel_line, channel_line_at, ending_word};
ghost use Rattle.network_traffic.specs.Written.{end_line};

use crate::running::Extent;
use itoa::Buffer;
use network_machine::Ending;
use network_rounds::Timed;
use std::alloc::{AllocError, Allocator};

/// Adds a text and a number.
fn put_count<A: Allocator>(
    out: &mut Vec<u8, A>,
    before: &str,
    number: u64,
) -> Result<(), AllocError>
    ensures { OnOk result (out.new.items ≡ out.old.items ++ (before.now ++ decimal number)) }
{
    let mut digits = Buffer::new();
    out.extend_from_slice(before.as_bytes())?;
    out.extend_from_slice(digits.format(number).as_bytes())
}

/// Adds a text and a round, or `-` where there is none.
fn put_round<A: Allocator>(
    out: &mut Vec<u8, A>,
    before: &str,
    of: Option<u64>,
) -> Result<(), AllocError>
    ensures { OnOk result (out.new.items ≡ out.old.items ++ (before.now ++ round_words of)) }
{
    match of {
        None => {
            out.extend_from_slice(before.as_bytes())?;
            out.extend_from_slice(b"-")
        }
        Some(round) => put_count(out, before, round),
    }
}

/// How many rounds pass from that from which on a packet may be begun to its delivery.
fn latency_of(timed: Timed, delivered: Option<u64>) -> Option<u64>
    ensures { result ≡ latency_of timed delivered }
{
    match delivered {
        None => None,
        Some(round) => Some(round.saturating_sub(timed.round.saturating_sub(1))),
    }
}

/// Adds the words of a packet.
fn put_timed<A: Allocator>(out: &mut Vec<u8, A>, timed: Timed) -> Result<(), AllocError>
    ensures { OnOk result (out.new.items ≡ out.old.items ++ timed_words timed) }
{
    put_count(out, "packet ", timed.round)?;
    put_count(out, " ", timed.packet.from as u64)?;
    put_count(out, " ", timed.packet.to as u64)?;
    put_count(out, " ", timed.packet.length)
}

/// Adds the line of a packet that is begun and delivered in these rounds.
fn put_packet<A: Allocator>(
    out: &mut Vec<u8, A>,
    timed: Timed,
    begun: Option<u64>,
    delivered: Option<u64>,
) -> Result<(), AllocError>
    ensures { OnOk result (out.new.items ≡ out.old.items ++ packet_line timed begun delivered) }
{
    put_timed(out, timed)?;
    put_round(out, " begun ", begun)?;
    put_round(out, " delivered ", delivered)?;
    put_round(out, " latency ", latency_of(timed, delivered))?;
    out.extend_from_slice(b"\n")
}

/// Adds the line of each packet.
fn put_packets<A: Allocator>(
    out: &mut Vec<u8, A>,
    packets: &[Timed],
    begun: &[Option<u64>],
    delivered: &[Option<u64>],
) -> Result<(), AllocError>
    requires begun { length begun.now ≡ length packets.now }
    requires delivered { length delivered.now ≡ length packets.now }
    ensures { OnOk result (out.new.items ≡ out.old.items ++ first_lines
        (packet_line_at packets.now (λ k. slice_index_or begun.now k None)
        (λ k. slice_index_or delivered.now k None)) (length packets.now)) }
{
    for k in 0..packets.len() {
        put_packet(out, packets[k], begun[k], delivered[k])?;
    }
    Ok(())
}

/// Adds the line of a channel that so many flits leave, and behind which they wait so many rounds.
fn put_channel<A: Allocator>(
    out: &mut Vec<u8, A>,
    x: usize,
    flits: u64,
    waited: u64,
) -> Result<(), AllocError>
    ensures { OnOk result (out.new.items ≡ out.old.items ++ channel_line x flits waited) }
{
    put_count(out, "channel ", x as u64)?;
    put_count(out, " flits ", flits)?;
    put_count(out, " waited ", waited)?;
    out.extend_from_slice(b"\n")
}

/// Adds the line of each channel.
fn put_channels<A: Allocator>(
    out: &mut Vec<u8, A>,
    flits: &[u64],
    waited: &[u64],
) -> Result<(), AllocError>
    requires { length waited.now ≡ length flits.now }
    ensures { OnOk result (out.new.items ≡ out.old.items ++ first_lines
        (channel_line_at (slice_index flits.now) (slice_index waited.now)) (length flits.now)) }
{
    for x in 0..flits.len() {
        put_channel(out, x, flits[x], waited[x])?;
    }
    Ok(())
}

/// What stands at the end of a simulation, as a word.
fn ending_word(ending: Ending) -> &'static str
    ensures { result.now ≡ ending_word ending }
{
    match ending {
        Ending::Locked => "locked",
        Ending::Empty => "empty",
        Ending::Goes(_) => "going",
    }
}

/// Adds the line on the end.
fn put_end<A: Allocator>(
    out: &mut Vec<u8, A>,
    extent: Extent,
    ending: Ending,
) -> Result<(), AllocError>
    ensures { OnOk result (out.new.items ≡ out.old.items ++ end_line extent ending) }
{
    if extent.is_over {
        out.extend_from_slice(ending_word(ending).as_bytes())?;
        put_count(out, " after round ", extent.last)?;
    } else {
        put_count(out, "not over after round ", extent.rounds)?;
    }
    out.extend_from_slice(b"\n")
}

/// The text of a simulation.
///
/// Errors: out of memory.
pub(crate) fn report_text<A: Allocator + Copy>(
    alloc: A,
    packets: &[Timed],
    begun: &[Option<u64>],
    delivered: &[Option<u64>],
    flits: &[u64],
    waited: &[u64],
    extent: Extent,
    ending: Ending,
) -> Result<Vec<u8, A>, AllocError>
    requires begun { length begun.now ≡ length packets.now }
    requires delivered { length delivered.now ≡ length packets.now }
    requires waited { length waited.now ≡ length flits.now }
    ensures { IfOk result (λ text. text.items ≡ report_text packets.now
        (λ k. slice_index_or begun.now k None) (λ k. slice_index_or delivered.now k None)
        (slice_index flits.now) (slice_index waited.now) (length flits.now)
        (end_line extent ending)) }
{
    let mut text = Vec::new(alloc);
    put_packets(&mut text, packets, begun, delivered)?;
    put_channels(&mut text, flits, waited)?;
    put_end(&mut text, extent, ending)?;
    Ok(text)
}
