//! The line on what the packets of a network go over.

ghost use Rattle.std.specs.Prelude.{◌≡◌, ◌++◌, ◌<◌, IfOk, OnOk};
ghost use Rattle.network_judge.specs.Verdicts.{IsVerdict};
ghost use Rattle.network_adaptive.specs.Choosing.{choosing_of};
ghost use Rattle.network_adaptive.specs.Shape.{IsJudgedNet};
ghost use Rattle.network_answer.specs.Answer.{longest_words, totals_line, IsTotalsText};
ghost use Rattle.network_answer.specs.Routing.{known_travel, judged_travel, has_escapes};
ghost use Rattle.network_answer.specs.Routing.{can_go_on, IsLastText};

use crate::reached::chosen_totals;
use crate::totals::{Totals, totals_of};
use crate::verdict::{put_number, put_pair};
use network_adaptive::accepting::JudgedNet;
use network_adaptive::{Travel, Verdict as Chosen};
use network_judge::Verdict;
use network_text::network::Network;
use network_text::reading::Reading;
use std::alloc::{AllocError, Allocator};

/// Adds how many channels packets go over at most, or that nothing bounds how many.
fn put_longest<A: Allocator>(out: &mut Vec<u8, A>, longest: &Travel) -> Result<(), AllocError>
    ensures { OnOk result (out.new.items ≡ out.old.items ++ longest_words longest.now) }
{
    match longest {
        Travel::Bounded(most) => put_number(out, "", *most),
        Travel::Round(_) => out.extend_from_slice(b"unbounded"),
    }
}

/// Adds the line on what packets go over.
fn put_totals<A: Allocator>(out: &mut Vec<u8, A>, totals: &Totals) -> Result<(), AllocError>
    ensures { OnOk result (out.new.items ≡ out.old.items ++ totals_line totals.now) }
{
    put_pair(
        out,
        "pairs ",
        totals.pairs,
        " of ",
        totals.all_pairs,
        ", hops ",
    )?;
    put_pair(
        out,
        "",
        totals.hops,
        " of ",
        totals.all_hops,
        ", longest route ",
    )?;
    put_longest(out, &totals.longest)?;
    out.extend_from_slice(b"\n")
}

/// The line on what the packets of a network with this verdict go over; nothing where a pair has no
/// route.
///
/// Errors: out of memory.
pub(crate) fn totals_text<A: Allocator + Copy>(
    alloc: A,
    network: &Network<A>,
    verdict: &Verdict<A>,
) -> Result<Vec<u8, A>, AllocError>
    requires { IsVerdict network.now.table network.now.replies verdict.now }
    ensures { IfOk result (λ text. IsTotalsText network.now.table verdict.now text.items) }
{
    let mut text = Vec::new(alloc);
    let kinds = network.kinds();
    if let Some(totals) = totals_of(alloc, kinds, network.joins(), network.choices())? {
        put_totals(&mut text, &totals)?;
    }
    Ok(text)
}

/// Whether a verdict is of a network in which packets can go on by an escape wherever they come.
fn has_escapes<A: Allocator>(verdict: &Chosen<A>) -> bool
    ensures { result ≡ has_escapes verdict.now }
{
    match verdict {
        Chosen::Rising(_, _) => true,
        Chosen::NoEscape(_) => false,
        Chosen::Cycle(_) => true,
    }
}

/// Whether packets of a network that is judged can go on by an escape wherever they come.
fn can_go_on<A: Allocator>(judged: &JudgedNet<A>) -> bool
    ensures { result ≡ can_go_on judged.now }
{
    match judged {
        JudgedNet::WrongPair(_) => false,
        JudgedNet::WrongChoice(_) => false,
        JudgedNet::Judged(verdict) => has_escapes(verdict),
    }
}

/// How far packets can go, where a verdict says so.
fn known_travel<A: Allocator>(verdict: &Chosen<A>) -> Option<Travel>
    ensures { result ≡ known_travel verdict.now }
{
    match verdict {
        Chosen::Rising(_, travel) => Some(*travel),
        Chosen::NoEscape(_) => None,
        Chosen::Cycle(_) => None,
    }
}

/// How far packets can go, where what is judged says so.
fn judged_travel<A: Allocator>(judged: &JudgedNet<A>) -> Option<Travel>
    ensures { result ≡ judged_travel judged.now }
{
    match judged {
        JudgedNet::WrongPair(_) => None,
        JudgedNet::WrongChoice(_) => None,
        JudgedNet::Judged(verdict) => known_travel(verdict),
    }
}

/// The line on what the packets of a network go over whose routers choose, by its choices and marks as they
/// are judged; nothing where they can't go on.
///
/// Errors: out of memory.
pub(crate) fn last_text<A: Allocator + Copy>(
    alloc: A,
    fixed: &Reading<A>,
    ways: usize,
    choices: &[u32],
    marks: &[bool],
    judged: &JudgedNet<A>,
) -> Result<Vec<u8, A>, AllocError>
    requires ways { 0 < ways }
    requires judged { IsJudgedNet
        (choosing_of fixed.now.kinds.items fixed.now.joins.items ways choices.now marks.now)
        fixed.now.replies.items judged.now }
    ensures { IfOk result (λ last. IsLastText (can_go_on judged.now)
        (choosing_of fixed.now.kinds.items fixed.now.joins.items ways choices.now marks.now)
        last.items) }
{
    let mut text = Vec::new(alloc);
    if !can_go_on(judged) {
        return Ok(text);
    }
    let known = judged_travel(judged);
    let kinds = &fixed.kinds;
    let totals = chosen_totals(alloc, kinds, &fixed.joins, ways, choices, marks, known)?;
    put_totals(&mut text, &totals)?;
    Ok(text)
}
