//! The text of a jam, and of what is judged of a network.

ghost use Rattle.std.specs.Prelude.{◌≡◌, ◌++◌, length, codes, IfOk, OnOk};
ghost use Rattle.network_judge.specs.Verdicts.{IsVerdict};
ghost use Rattle.network_text.specs.Lines.{first_lines};
ghost use Rattle.network_answer.specs.Answer.{fill_line, fill_line_at, jam_text};
ghost use Rattle.network_answer.specs.Answer.{IsFoundVerdict, IsJammedText, IsJudgedText};

use crate::going::totals_text;
use crate::lengths::length_text;
use crate::verdict::{put_number, put_pair, verdict_text};
use network_judge::{Fill, Verdict, find_jam};
use network_text::network::Network;
use std::alloc::{AllocError, Allocator};

/// Adds the line of a channel that is filled.
fn put_fill<A: Allocator>(out: &mut Vec<u8, A>, fill: Fill) -> Result<(), AllocError>
    ensures { OnOk result (out.new.items ≡ out.old.items ++ fill_line fill) }
{
    put_pair(out, "fill ", fill.from, " ", fill.to, "")?;
    put_number(out, " ", fill.step)?;
    out.extend_from_slice(b"\n")
}

/// Adds the line of each channel of a jam, the first to be filled first.
fn put_fills<A: Allocator>(out: &mut Vec<u8, A>, fills: &[Fill]) -> Result<(), AllocError>
    ensures { OnOk result (out.new.items ≡ out.old.items
        ++ first_lines (fill_line_at fills.now) (length fills.now)) }
{
    for k in 0..fills.len() {
        put_fill(out, fills[fills.len() - 1 - k])?;
    }
    Ok(())
}

/// Adds the text of a jam.
fn put_jam<A: Allocator>(out: &mut Vec<u8, A>, fills: &[Fill]) -> Result<(), AllocError>
    ensures { OnOk result (out.new.items ≡ out.old.items ++ jam_text fills.now) }
{
    put_fills(out, fills)?;
    out.extend_from_slice(b"locks up\n")
}

/// A jam of a network with this verdict, if it is a cycle.
///
/// Errors: out of memory.
pub(crate) fn jam_of<A: Allocator + Copy>(
    alloc: A,
    network: &Network<A>,
    verdict: &Verdict<A>,
) -> Result<Option<Vec<Fill, A>>, AllocError>
    requires { IsVerdict network.now.table network.now.replies verdict.now }
    ensures { IfOk result (IsFoundVerdict network.now verdict.now) }
{
    let kinds = network.kinds();
    match verdict {
        Verdict::Rising(_) => Ok(None),
        Verdict::NoRoute(_) => Ok(None),
        Verdict::Cycle(links) => find_jam(
            alloc,
            kinds,
            network.joins(),
            network.replies(),
            network.choices(),
            links,
        ),
    }
}

/// The text of a verdict, and behind a cycle that of a jam.
///
/// Errors: out of memory.
fn jammed_text<A: Allocator + Copy>(
    alloc: A,
    network: &Network<A>,
    verdict: &Verdict<A>,
) -> Result<Vec<u8, A>, AllocError>
    requires { IsVerdict network.now.table network.now.replies verdict.now }
    ensures { IfOk result (λ text. IsJammedText network.now verdict.now text.items) }
{
    let mut text = verdict_text(alloc, verdict)?;
    if let Some(fills) = jam_of(alloc, network, verdict)? {
        put_jam(&mut text, &fills)?;
    }
    Ok(text)
}

/// The text of what is judged of a network: that of its verdict, behind a cycle that of a jam and of the
/// length of packets, and where each pair has a route, what its packets go over.
///
/// Errors: out of memory.
pub fn judged_text<A: Allocator + Copy>(
    alloc: A,
    network: &Network<A>,
    verdict: &Verdict<A>,
) -> Result<Vec<u8, A>, AllocError>
    requires { IsVerdict network.now.table network.now.replies verdict.now }
    ensures { IfOk result (λ text. IsJudgedText network.now verdict.now text.items) }
{
    let mut text = jammed_text(alloc, network, verdict)?;
    let sized = length_text(alloc, network, verdict)?;
    let last = totals_text(alloc, network, verdict)?;
    text.extend_from_slice(&sized)?;
    text.extend_from_slice(&last)?;
    Ok(text)
}
