//! The text of what is judged of a network whose routers choose.

ghost use Rattle.std.specs.Prelude.{◌≡◌, [], ◌++◌, codes, decimal, length, IfOk, OnOk};
ghost use Rattle.network_text.specs.Lines.{first_lines};
ghost use Rattle.network_answer.specs.Answer.{pair_line};
ghost use Rattle.network_text.specs.Reading.{reading_of, IsRead};
ghost use Rattle.network_answer.specs.Routing.{misfit_words, no_choice_line, no_escape_line};
ghost use Rattle.network_answer.specs.Routing.{travel_line, spaced_number, over_words, how_line};
ghost use Rattle.network_answer.specs.Routing.{dependency_line, circuit_text};
ghost use Rattle.network_answer.specs.Routing.{choosing_verdict_text, judgement_text};
ghost use Rattle.network_answer.specs.Routing.{is_circuit, has_circuit, may_text};

use crate::verdict::{put_no_route, put_number, put_numbers, put_pair};
use network_adaptive::accepting::JudgedNet;
use network_adaptive::shape::{Misfit, NoChoice};
use network_adaptive::{Dependency, How, NoEscape, Travel, Verdict};
use network_text::reading::Reading;
use std::alloc::{AllocError, Allocator};

/// Adds why a channel is no choice.
fn put_misfit<A: Allocator>(out: &mut Vec<u8, A>, why: Misfit) -> Result<(), AllocError>
    ensures { OnOk result (out.new.items ≡ out.old.items ++ misfit_words why) }
{
    match why {
        Misfit::Itself => out.extend_from_slice(b"the channel itself"),
        Misfit::Injects => out.extend_from_slice(b"an injection channel"),
        Misfit::Ejects => out.extend_from_slice(b"another ejection channel"),
    }
}

/// Adds the line of a choice that can't stand.
fn put_no_choice<A: Allocator>(out: &mut Vec<u8, A>, c: &NoChoice) -> Result<(), AllocError>
    ensures { OnOk result (out.new.items ≡ out.old.items ++ no_choice_line c.now) }
{
    put_number(out, "no choice ", c.at)?;
    put_pair(out, " ", c.to, " ", c.next, ": ")?;
    put_misfit(out, c.why)?;
    out.extend_from_slice(b"\n")
}

/// Adds the line of a channel without an escape for packets, where there is this place of a choice for
/// them, or none.
fn put_no_escape<A: Allocator>(
    out: &mut Vec<u8, A>,
    choice: Option<usize>,
    f: &NoEscape,
) -> Result<(), AllocError>
    ensures { OnOk result (out.new.items ≡ out.old.items ++ no_escape_line choice f.now) }
{
    match choice {
        Some(_) => put_pair(out, "no escape ", f.at, " ", f.to, "\n"),
        None => put_pair(out, "no choice ", f.at, " ", f.to, "\n"),
    }
}

/// Adds the line of packets that go over so many channels at most.
fn put_most<A: Allocator>(out: &mut Vec<u8, A>, most: usize) -> Result<(), AllocError>
    ensures { OnOk result
        (out.new.items ≡ out.old.items ++ ((codes "bounded " ++ decimal most) ++ codes "\n")) }
{
    put_number(out, "bounded ", most)?;
    out.extend_from_slice(b"\n")
}

/// Adds the line on how far packets can go.
fn put_travel<A: Allocator>(out: &mut Vec<u8, A>, travel: &Travel) -> Result<(), AllocError>
    ensures { OnOk result (out.new.items ≡ out.old.items ++ travel_line travel.now) }
{
    match travel {
        Travel::Bounded(most) => put_most(out, *most),
        Travel::Round(r) => put_pair(out, "round ", r.to, " ", r.at, "\n"),
    }
}

/// Adds channels, each behind a space.
fn put_spaced<A: Allocator>(out: &mut Vec<u8, A>, over: &[usize]) -> Result<(), AllocError>
    ensures { OnOk result
        (out.new.items ≡ out.old.items ++ first_lines (spaced_number over.now) (length over.now)) }
{
    for k in 0..over.len() {
        put_number(out, " ", over[k])?;
    }
    Ok(())
}

/// Adds over which channels packets go, if over any.
fn put_over<A: Allocator>(out: &mut Vec<u8, A>, over: &[usize]) -> Result<(), AllocError>
    ensures { OnOk result (out.new.items ≡ out.old.items ++ over_words over.now) }
{
    if over.len() == 0 {
        return Ok(());
    }
    out.extend_from_slice(b" over")?;
    put_spaced(out, over)
}

/// Adds the line of packets that go on from a channel, and wait.
fn put_waits<A: Allocator>(
    out: &mut Vec<u8, A>,
    x: usize,
    to: usize,
    over: &[usize],
) -> Result<(), AllocError>
    ensures { OnOk result (out.new.items ≡ out.old.items
        ++ (pair_line [] x (codes " to ") to [] ++ (over_words over.now ++ codes "\n"))) }
{
    put_pair(out, "", x, " to ", to, "")?;
    put_over(out, over)?;
    out.extend_from_slice(b"\n")
}

/// Adds the line of a dependency.
fn put_dependency<A: Allocator>(
    out: &mut Vec<u8, A>,
    edge: &Dependency<A>,
) -> Result<(), AllocError>
    ensures { OnOk result
        (out.new.items ≡ out.old.items ++ how_line edge.now.channel edge.now.how) }
{
    match &edge.how {
        How::Over(to, over) => put_waits(out, edge.channel, *to, over),
        How::Replied(next) => put_pair(out, "", edge.channel, " replies ", *next, "\n"),
    }
}

/// Adds the line of each dependency of a cycle.
fn put_dependencies<A: Allocator>(
    out: &mut Vec<u8, A>,
    edges: &[Dependency<A>],
) -> Result<(), AllocError>
    ensures { OnOk result
        (out.new.items ≡ out.old.items
        ++ first_lines (dependency_line edges.now) (length edges.now)) }
{
    for k in 0..edges.len() {
        put_dependency(out, &edges[k])?;
    }
    Ok(())
}

/// Adds the text of a cycle.
fn put_cycle<A: Allocator>(out: &mut Vec<u8, A>, edges: &[Dependency<A>]) -> Result<(), AllocError>
    ensures { OnOk result (out.new.items ≡ out.old.items ++ circuit_text edges.now) }
{
    out.extend_from_slice(b"cycle\n")?;
    put_dependencies(out, edges)
}

/// Adds the text of a verdict on the network of a text.
fn put_verdict<A: Allocator + Copy>(
    out: &mut Vec<u8, A>,
    reading: &Reading<A>,
    v: &Verdict<A>,
) -> Result<(), AllocError>
    requires { IsRead reading.now }
    ensures { OnOk result (out.new.items
        ≡ out.old.items ++ choosing_verdict_text (reading_of reading.now) v.now) }
{
    match v {
        Verdict::Rising(numbers, travel) => {
            put_numbers(out, numbers)?;
            put_travel(out, travel)?;
            out.extend_from_slice(b"rising\n")
        }
        Verdict::NoEscape(f) => put_no_escape(out, reading.taken_cell(f.at, f.to), f),
        Verdict::Cycle(edges) => put_cycle(out, edges),
    }
}

/// The text of what is judged of the network of a text.
///
/// Errors: out of memory.
pub fn judgement_text<A: Allocator + Copy>(
    alloc: A,
    reading: &Reading<A>,
    judged: &JudgedNet<A>,
) -> Result<Vec<u8, A>, AllocError>
    requires { IsRead reading.now }
    ensures { IfOk result
        (λ text. text.items ≡ judgement_text (reading_of reading.now) judged.now) }
{
    let mut text = Vec::new(alloc);
    match judged {
        JudgedNet::WrongPair(r) => put_no_route(&mut text, r)?,
        JudgedNet::WrongChoice(c) => put_no_choice(&mut text, c)?,
        JudgedNet::Judged(v) => put_verdict(&mut text, reading, v)?,
    }
    Ok(text)
}

/// Whether a verdict is a cycle.
fn is_circuit<A: Allocator>(verdict: &Verdict<A>) -> bool
    ensures { result ≡ is_circuit verdict.now }
{
    match verdict {
        Verdict::Rising(_, _) => false,
        Verdict::NoEscape(_) => false,
        Verdict::Cycle(_) => true,
    }
}

/// Whether a cycle is found.
pub(crate) fn has_circuit<A: Allocator>(judged: &JudgedNet<A>) -> bool
    ensures { result ≡ has_circuit judged.now }
{
    match judged {
        JudgedNet::WrongPair(_) => false,
        JudgedNet::WrongChoice(_) => false,
        JudgedNet::Judged(verdict) => is_circuit(verdict),
    }
}

/// Adds that a cycle may deadlock, unless no packets of the text do.
pub(crate) fn put_may<A: Allocator>(
    out: &mut Vec<u8, A>,
    circuit: bool,
    free: bool,
) -> Result<(), AllocError>
    ensures { OnOk result (out.new.items ≡ out.old.items ++ may_text circuit free) }
{
    if circuit && !free {
        return out.extend_from_slice(b"may lock up\n");
    }
    Ok(())
}
