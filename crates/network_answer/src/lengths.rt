//! The line on packets of the length that a text gives.

ghost use Rattle.std.specs.Prelude.{◌≡◌, ◌++◌, IfOk, OnOk};
ghost use Rattle.network_judge.specs.Verdicts.{IsVerdict};
ghost use Rattle.network_answer.specs.Answer.{least_depth, flits_words, length_line};
ghost use Rattle.network_answer.specs.Answer.{unanswered_length, told_length, IsLengthText};

use crate::verdict::put_pair;
use network_judge::{Reply, Verdict};
use network_text::network::Network;
use std::alloc::{AllocError, Allocator};

/// How many flits channels hold at least, of which each can hold a packet of so many with the latch behind
/// it.
fn least_depth(size: usize) -> usize
    ensures { result ≡ least_depth size }
{
    if size <= 2 {
        return 1;
    }
    size - 1
}

/// The words behind the number of flits.
fn flits_words(size: usize) -> &'static str
    ensures { result.now ≡ flits_words size }
{
    if size == 1 {
        return " flit where channels hold ";
    }
    " flits where channels hold "
}

/// Adds the line on packets of so many flits.
fn put_length<A: Allocator>(out: &mut Vec<u8, A>, size: usize) -> Result<(), AllocError>
    ensures { OnOk result (out.new.items ≡ out.old.items ++ length_line size) }
{
    let before = "locks up with packets of ";
    let depth = least_depth(size);
    put_pair(out, before, size, flits_words(size), depth, " or more\n")
}

/// The length of packets by some replies and the length of the text.
fn unanswered_length(replies: &[Reply], flits: Option<u32>) -> Option<u32>
    ensures { result ≡ unanswered_length replies.now flits }
{
    match replies {
        [] => flits,
        [_, ..] => None,
    }
}

/// The length that the line is of.
fn told_length<A: Allocator>(network: &Network<A>, verdict: &Verdict<A>) -> Option<u32>
    ensures { result ≡ told_length network.now verdict.now }
{
    match verdict {
        Verdict::Rising(_) => None,
        Verdict::NoRoute(_) => None,
        Verdict::Cycle(_) => unanswered_length(network.replies(), network.flits()),
    }
}

/// The line that packets of the length of the text deadlock a network with this verdict; nothing where it
/// is no cycle, the text gives no length, or packets are answered.
///
/// Errors: out of memory.
pub(crate) fn length_text<A: Allocator + Copy>(
    alloc: A,
    network: &Network<A>,
    verdict: &Verdict<A>,
) -> Result<Vec<u8, A>, AllocError>
    requires { IsVerdict network.now.table network.now.replies verdict.now }
    ensures { IfOk result (λ text. IsLengthText network.now verdict.now text.items) }
{
    let mut text = Vec::new(alloc);
    if let Some(size) = told_length(network, verdict) {
        put_length(&mut text, size as usize)?;
    }
    Ok(text)
}
