//! The text of a verdict.

ghost use Rattle.std.specs.Prelude.{◌≡◌, ◌++◌, ◌<◌, length, decimal, IfOk, OnOk};
ghost use Rattle.network_answer.specs.Answer.{verdict_text, pair_line, number_line};
ghost use Rattle.network_text.specs.Lines.{first_lines};
ghost use Rattle.network_answer.specs.Answer.{why_words, by_line, link_line};
ghost use Rattle.network_answer.specs.Causes.{next_place};
ghost use Rattle.network_answer.specs.Answer.{no_route_line};

use itoa::Buffer;
use network_judge::{By, Link, NoRoute, Verdict, Why};
use std::alloc::{AllocError, Allocator};

/// Adds a text and a number.
pub fn put_number<A: Allocator>(
    out: &mut Vec<u8, A>,
    before: &str,
    number: usize,
) -> Result<(), AllocError>
    ensures { OnOk result (out.new.items ≡ out.old.items ++ (before.now ++ decimal number)) }
{
    let mut digits = Buffer::new();
    out.extend_from_slice(before.as_bytes())?;
    out.extend_from_slice(digits.format(number).as_bytes())
}

/// Adds a text, a number, a text, a number and a text.
pub fn put_pair<A: Allocator>(
    out: &mut Vec<u8, A>,
    before: &str,
    a: usize,
    between: &str,
    b: usize,
    behind: &str,
) -> Result<(), AllocError>
    ensures { OnOk result
        (out.new.items ≡ out.old.items ++ pair_line before.now a between.now b behind.now) }
{
    put_number(out, before, a)?;
    put_number(out, between, b)?;
    out.extend_from_slice(behind.as_bytes())
}

/// Adds why a walk is no route.
pub(crate) fn put_why<A: Allocator>(out: &mut Vec<u8, A>, why: Why) -> Result<(), AllocError>
    ensures { OnOk result (out.new.items ≡ out.old.items ++ why_words why) }
{
    match why {
        Why::NoSender => out.extend_from_slice(b"the first is no injection channel"),
        Why::NoReceiver => out.extend_from_slice(b"the second is no ejection channel"),
        Why::Leaves(step) => put_number(out, "no channel at step ", step),
        Why::Ejects(step) => put_number(out, "another ejection channel at step ", step),
        Why::Injects(step) => put_number(out, "an injection channel at step ", step),
        Why::Round => out.extend_from_slice(b"round for ever"),
    }
}

/// Adds the line of a source-destination pair without a route.
pub fn put_no_route<A: Allocator>(out: &mut Vec<u8, A>, r: &NoRoute) -> Result<(), AllocError>
    ensures { OnOk result (out.new.items ≡ out.old.items ++ no_route_line r.now) }
{
    put_pair(out, "no route ", r.join.from, " ", r.join.to, ": ")?;
    put_why(out, r.why)?;
    out.extend_from_slice(b"\n")
}

/// Adds the line of each channel with its number.
pub fn put_numbers<A: Allocator>(out: &mut Vec<u8, A>, numbers: &[usize]) -> Result<(), AllocError>
    ensures { OnOk result
        (out.new.items ≡ out.old.items
        ++ first_lines (number_line numbers.now) (length numbers.now)) }
{
    for x in 0..numbers.len() {
        put_pair(out, "number ", x, " ", numbers[x], "\n")?;
    }
    Ok(())
}

/// Adds the line of a channel that leads on so to another.
fn put_by<A: Allocator>(
    out: &mut Vec<u8, A>,
    channel: usize,
    by: By,
    next: usize,
) -> Result<(), AllocError>
    ensures { OnOk result (out.new.items ≡ out.old.items ++ by_line channel by next) }
{
    match by {
        By::To(to) => put_pair(out, "", channel, " to ", to, "\n"),
        By::Replied => put_pair(out, "", channel, " replies ", next, "\n"),
    }
}

/// The place of a cycle of so many links that comes after a place.
pub fn next_place(count: usize, k: usize) -> usize
    requires { k < count }
    ensures value { result ≡ next_place count k }
    ensures within { result < count }
{
    if k + 1 == count { 0 } else { k + 1 }
}

/// Adds the line of the link at a place of a cycle.
fn put_link<A: Allocator>(out: &mut Vec<u8, A>, links: &[Link], k: usize) -> Result<(), AllocError>
    requires { k < length links.now }
    ensures { OnOk result (out.new.items ≡ out.old.items ++ link_line links.now k) }
{
    let link = links[k];
    let next = links[next_place(links.len(), k)];
    put_by(out, link.channel, link.by, next.channel)
}

/// Adds the line of each link of a cycle.
fn put_links<A: Allocator>(out: &mut Vec<u8, A>, links: &[Link]) -> Result<(), AllocError>
    ensures { OnOk result
        (out.new.items ≡ out.old.items ++ first_lines (link_line links.now) (length links.now)) }
{
    for k in 0..links.len() {
        put_link(out, links, k)?;
    }
    Ok(())
}

/// The text of a verdict.
///
/// Errors: out of memory.
pub fn verdict_text<A: Allocator + Copy>(
    alloc: A,
    verdict: &Verdict<A>,
) -> Result<Vec<u8, A>, AllocError>
    ensures { IfOk result (λ text. text.items ≡ verdict_text verdict.now) }
{
    let mut text = Vec::new(alloc);
    match verdict {
        Verdict::Rising(numbers) => {
            put_numbers(&mut text, numbers)?;
            text.extend_from_slice(b"rising\n")?;
        }
        Verdict::NoRoute(r) => put_no_route(&mut text, r)?,
        Verdict::Cycle(links) => {
            text.extend_from_slice(b"cycle\n")?;
            put_links(&mut text, links)?;
        }
    }
    Ok(text)
}
