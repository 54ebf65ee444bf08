//! The cases in which packets wait in a channel, and the channels by which they can leave it in each.

ghost use Rattle.std.specs.Prelude.{◌≡◌, ◌+◌, ◌*◌, ◌<◌, ◌≤◌, ℕ, true, false, [], length, IfOk};
ghost use Rattle.std.specs.Prelude.{OnOk};
ghost use Rattle.std.specs.Prelude.{slice_get, Some};
ghost use Rattle.std.specs.List.{count_by};
ghost use Rattle.network_judge.specs.declared.table.Kind.TheVariants.{Ejection};
ghost use Rattle.network_judge.specs.Replies.{AreReplies};
ghost use Rattle.network_judge.specs.Table.{table_of, joins_of, ejects};
ghost use Rattle.network_judge.specs.Marks.{is_marked_at};
ghost use Rattle.network_adaptive.specs.Spread.{opens, leads_on};
ghost use Rattle.network_adaptive.specs.Flags.{HasPut};
ghost use Rattle.dead_sets.specs.Cases.{AreCases, AddsCases, IsChoiceCase, IsReplyCase};
ghost use Rattle.dead_sets.specs.Cases.{IsCaseTo, IsWaitCase};

use network_adaptive::comes::comes_to;
use network_adaptive::spread::{base_of, goes_on};
use network_judge::walk::{cell, is_receiver, kind_at};
use network_judge::{Join, Kind, Reply};
use rising::Edge;
use std::alloc::{AllocError, Allocator, Global};

/// The cases in which packets wait. In each, packets to one destination wait in one channel: for a choice
/// there, or at their end for one reply.
#[derive(Drop)]
pub struct Cases<A: Allocator = Global> {
    /// The channel of each case.
    pub at: Vec<usize, A>,
    /// An edge to each case from each channel by which packets can leave it.
    pub ways_out: Vec<Edge, A>,
}

/// Adds edges to a case from the choices behind a channel.
///
/// Errors: out of memory.
fn choices_to<A: Allocator>(
    count: usize,
    choices: &[u32],
    base: usize,
    ways: usize,
    x: usize,
    case: usize,
    edges: &mut Vec<Edge, A>,
) -> Result<(), AllocError>
    requires x { x < count }
    requires room { base + count * ways ≤ length choices.now }
    ensures { OnOk result (HasPut
        (λ y c. (c ≡ case) × (opens count choices.now (base + x * ways) ways [] y ≡ true))
        edges.old.items edges.new.items) }
{
    for k in 0..ways {
        let y = choices[base + cell(count, ways, x, k)] as usize;
        if y >= count {
            continue;
        }
        edges.push(Edge { from: y, to: case })?;
    }
    Ok(())
}

/// Adds a case for each channel whose flag is up and that packets go on from: for a choice there.
///
/// Errors: out of memory.
fn choice_cases<A: Allocator>(
    kinds: &[Kind],
    choices: &[u32],
    base: usize,
    ways: usize,
    seen: &[bool],
    cases: &mut Cases<A>,
) -> Result<(), AllocError>
    requires room { base + length kinds.now * ways ≤ length choices.now }
    requires size { length seen.now ≡ length kinds.now }
    requires within { AreCases (length kinds.now) cases.old.at.items cases.old.ways_out.items }
    ensures within { OnOk result
        (AreCases (length kinds.now) cases.new.at.items cases.new.ways_out.items) }
    ensures added { OnOk result (AddsCases (IsChoiceCase kinds.now choices.now base ways seen.now)
        cases.old.at.items cases.old.ways_out.items
        cases.new.at.items cases.new.ways_out.items) }
{
    for x in 0..kinds.len() {
        if !seen[x] {
            continue;
        }
        if !goes_on(kinds, x) {
            continue;
        }
        let case = cases.at.len();
        cases.at.push(x)?;
        choices_to(
            kinds.len(),
            choices,
            base,
            ways,
            x,
            case,
            &mut cases.ways_out,
        )?;
    }
    Ok(())
}

/// Adds a case for each reply to packets from an ejection channel.
///
/// Errors: out of memory.
fn reply_cases<A: Allocator>(
    count: usize,
    replies: &[Reply],
    from: usize,
    cases: &mut Cases<A>,
) -> Result<(), AllocError>
    requires from { from < count }
    requires within { AreCases count cases.old.at.items cases.old.ways_out.items }
    ensures within { OnOk result (AreCases count cases.new.at.items cases.new.ways_out.items) }
    ensures added { OnOk result (AddsCases (IsReplyCase count replies.now from)
        cases.old.at.items cases.old.ways_out.items
        cases.new.at.items cases.new.ways_out.items) }
{
    for place in 0..replies.len() {
        let reply = replies[place];
        if reply.from != from {
            continue;
        }
        if reply.to >= count {
            continue;
        }
        let case = cases.at.len();
        cases.at.push(from)?;
        cases.ways_out.push(Edge {
            from: reply.to,
            to: case,
        })?;
    }
    Ok(())
}

/// Adds the cases in which packets to an ejection channel wait.
///
/// Errors: out of memory.
fn cases_to<A: Allocator + Copy>(
    alloc: A,
    kinds: &[Kind],
    joins: &[Join],
    replies: &[Reply],
    choices: &[u32],
    ways: usize,
    none: &[bool],
    to: usize,
    cases: &mut Cases<A>,
) -> Result<(), AllocError>
    requires room { count_by ejects kinds.now * (length kinds.now * ways) ≤ length choices.now }
    requires none { length none.now ≡ length kinds.now }
    requires to { slice_get kinds.now to ≡ Some Ejection }
    requires low { to < length kinds.now }
    requires within { (i j : ℕ) → joins_of (table_of [] joins.now []) i j ≡ true
        → i < length kinds.now }
    requires cases { AreCases (length kinds.now) cases.old.at.items cases.old.ways_out.items }
    ensures within { OnOk result
        (AreCases (length kinds.now) cases.new.at.items cases.new.ways_out.items) }
    ensures added { OnOk result
        (AddsCases (IsCaseTo kinds.now joins.now replies.now choices.now ways none.now to)
        cases.old.at.items cases.old.ways_out.items
        cases.new.at.items cases.new.ways_out.items) }
{
    let base = base_of(kinds, ways, to);
    let seen = comes_to(alloc, kinds, joins, choices, base, ways, none, to)?;
    choice_cases(kinds, choices, base, ways, &seen, cases)?;
    if !seen[to] {
        return Ok(());
    }
    reply_cases(kinds.len(), replies, to, cases)?;
    Ok(())
}

/// The cases in which packets wait, those of all destinations.
///
/// Errors: out of memory.
pub fn cases_of<A: Allocator + Copy>(
    alloc: A,
    kinds: &[Kind],
    joins: &[Join],
    replies: &[Reply],
    choices: &[u32],
    ways: usize,
    none: &[bool],
) -> Result<Cases<A>, AllocError>
    requires room { count_by ejects kinds.now * (length kinds.now * ways) ≤ length choices.now }
    requires none { length none.now ≡ length kinds.now }
    requires within { (i j : ℕ) → joins_of (table_of [] joins.now []) i j ≡ true
        → i < length kinds.now }
    requires receivers { (i j : ℕ) → joins_of (table_of [] joins.now []) i j ≡ true
        → slice_get kinds.now j ≡ Some Ejection }
    ensures within { IfOk result
        (λ cases. AreCases (length kinds.now) cases.at.items cases.ways_out.items) }
    ensures all { IfOk result (λ cases.
        AddsCases (IsWaitCase kinds.now joins.now replies.now choices.now ways none.now)
        [] [] cases.at.items cases.ways_out.items) }
{
    let mut cases = Cases {
        at: Vec::new(alloc),
        ways_out: Vec::new(alloc),
    };
    for to in 0..kinds.len() {
        if !is_receiver(kind_at(kinds, to)) {
            continue;
        }
        cases_to(
            alloc, kinds, joins, replies, choices, ways, none, to, &mut cases,
        )?;
    }
    Ok(cases)
}
