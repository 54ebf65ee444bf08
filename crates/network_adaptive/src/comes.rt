//! Where packets come, and what they wait for.

ghost use Rattle.std.specs.Prelude.{◌≡◌, ◌+◌, ◌*◌, ◌<◌, ◌≤◌, ◌⊎◌, ℕ, Bool, true, false, []};
ghost use Rattle.std.specs.Prelude.{length, map, IfOk, OnOk, MatchOption};
ghost use Rattle.network_judge.specs.Table.{table_of, joins_of};
ghost use Rattle.network_adaptive.specs.Spread.{choice_step, AreFlagsOf};
ghost use Rattle.network_adaptive.specs.Flags.{HasBegun, AreDown, AreComes, AreBehind, IsEscape};
ghost use Rattle.network_adaptive.specs.Flags.{IsFirstBare, HasNoBare};
ghost use Rattle.network_adaptive.specs.Edges.{pair_edge};

use crate::spread::{goes_on, list_of, spread};
use network_judge::walk::cell;
use network_judge::{Join, Kind};
use rising::Graph;
use rising::chains::Chains;
use std::alloc::{AllocError, Allocator, Global};

/// Channels that packets come to.
#[derive(Drop)]
pub struct Reach<A: Allocator = Global> {
    /// The flags of them, and of no others.
    pub flags: Vec<bool, A>,
    /// They, in a list.
    pub list: Vec<usize, A>,
}

/// Raises the flags of the channels that packets to a channel begin in.
fn begin(count: usize, joins: &[Join], to: usize, seen: &mut [bool])
    requires size { length seen.old ≡ count }
    requires within { (i j : ℕ) → joins_of (table_of [] joins.now []) i j ≡ true → i < count }
    ensures { HasBegun joins.now to seen.old seen.new }
{
    for p in 0..joins.len() {
        let pair = joins[p];
        if pair.to == to {
            seen[pair.from] = true;
        }
    }
}

/// Flags of the channels that packets to a channel come to.
///
/// Errors: out of memory.
pub fn comes_to<A: Allocator + Copy>(
    alloc: A,
    kinds: &[Kind],
    joins: &[Join],
    choices: &[u32],
    base: usize,
    ways: usize,
    none: &[bool],
    to: usize,
) -> Result<Vec<bool, A>, AllocError>
    requires room { base + length kinds.now * ways ≤ length choices.now }
    requires shut { length none.now ≡ length kinds.now }
    requires within { (i j : ℕ) → joins_of (table_of [] joins.now []) i j ≡ true
        → i < length kinds.now }
    ensures { IfOk result (λ v.
        AreComes kinds.now joins.now
        (choice_step kinds.now choices.now base ways none.now) to v.items) }
{
    let mut seen = vec![in alloc; false; kinds.len()]?;
    begin(kinds.len(), joins, to, &mut seen);
    let mut list = list_of(alloc, &seen)?;
    spread(kinds, choices, base, ways, none, &mut seen, &mut list)?;
    Ok(seen)
}

/// Raises the flags of the channels that packets to a channel begin in, where the edges of the pairs are
/// chained.
fn begin_by<'a, A: Allocator>(joins: &[Join], pairs: &Chains<'a, A>, to: usize, seen: &mut [bool])
    requires pairs { pairs.now.edges.now ≡ map pair_edge joins.now }
    requires to { to < pairs.now.nodes }
    requires size { length seen.old ≡ pairs.now.nodes }
    ensures { HasBegun joins.now to seen.old seen.new }
{
    let mut k = pairs.first(to);
    'pairs: while k < joins.len() {
        let source = pairs.end(to, k);
        seen[source] = true;
        k = pairs.next(to, k);
    }
}

/// Flags of the channels that packets to a channel come to, where the edges of the pairs are chained.
///
/// Errors: out of memory.
pub fn comes_by<'a, A: Allocator + Copy>(
    alloc: A,
    kinds: &[Kind],
    joins: &[Join],
    pairs: &Chains<'a, A>,
    choices: &[u32],
    base: usize,
    ways: usize,
    none: &[bool],
    to: usize,
) -> Result<Vec<bool, A>, AllocError>
    requires room { base + length kinds.now * ways ≤ length choices.now }
    requires shut { length none.now ≡ length kinds.now }
    requires pairs { pairs.now.edges.now ≡ map pair_edge joins.now }
    requires nodes { pairs.now.nodes ≡ length kinds.now }
    requires to { to < length kinds.now }
    ensures { IfOk result (λ v.
        AreComes kinds.now joins.now
        (choice_step kinds.now choices.now base ways none.now) to v.items) }
{
    let mut seen = vec![in alloc; false; kinds.len()]?;
    begin_by(joins, pairs, to, &mut seen);
    let mut list = list_of(alloc, &seen)?;
    spread(kinds, choices, base, ways, none, &mut seen, &mut list)?;
    Ok(seen)
}

/// Raises the flags of the channels that packets come to from a channel, it counted, by choices that
/// aren't marked. They are listed.
///
/// Errors: out of memory.
fn raise_behind<A: Allocator>(
    kinds: &[Kind],
    choices: &[u32],
    base: usize,
    ways: usize,
    marks: &[bool],
    x: usize,
    flags: &mut [bool],
    list: &mut Vec<usize, A>,
) -> Result<(), AllocError>
    requires room { base + length kinds.now * ways ≤ length choices.now }
    requires shut { length marks.now ≡ length kinds.now }
    requires x { x < length kinds.now }
    requires size { length flags.old ≡ length kinds.now }
    requires down { AreDown flags.old }
    requires none { list.old.items ≡ [] }
    ensures flags { OnOk result (AreBehind kinds.now
        (choice_step kinds.now choices.now base ways marks.now) x flags.new) }
    ensures list { OnOk result (AreFlagsOf flags.new list.new.items) }
{
    flags[x] = true;
    list.push(x)?;
    spread(kinds, choices, base, ways, marks, flags, list)
}

/// Lowers the flags that are listed.
fn lower_listed(flags: &mut [bool], list: &[usize])
    requires { AreFlagsOf flags.old list.now }
    ensures size { length flags.new ≡ length flags.old }
    ensures down { AreDown flags.new }
{
    for k in 0..list.len() {
        let x = list[k];
        flags[x] = false;
    }
}

/// No flag is up.
///
/// Errors: out of memory.
pub(crate) fn reach_of_none<A: Allocator + Copy>(
    alloc: A,
    count: usize,
) -> Result<Reach<A>, AllocError>
    ensures size { IfOk result (λ r. length r.flags.items ≡ count) }
    ensures down { IfOk result (λ r. AreDown r.flags.items) }
{
    let flags = vec![in alloc; false; count]?;
    Ok(Reach {
        flags,
        list: Vec::new(alloc),
    })
}

/// Finds the channels that packets come to from a channel, it counted, by choices that aren't marked, where no
/// flag is up.
///
/// Errors: out of memory.
pub(crate) fn reach_from<A: Allocator>(
    kinds: &[Kind],
    choices: &[u32],
    base: usize,
    ways: usize,
    marks: &[bool],
    x: usize,
    reach: &mut Reach<A>,
) -> Result<(), AllocError>
    requires room { base + length kinds.now * ways ≤ length choices.now }
    requires shut { length marks.now ≡ length kinds.now }
    requires x { x < length kinds.now }
    requires size { length reach.old.flags.items ≡ length kinds.now }
    requires down { AreDown reach.old.flags.items }
    ensures flags { OnOk result (AreBehind kinds.now
        (choice_step kinds.now choices.now base ways marks.now) x reach.new.flags.items) }
    ensures list { OnOk result (AreFlagsOf reach.new.flags.items reach.new.list.items) }
{
    reach.list.clear();
    raise_behind(
        kinds,
        choices,
        base,
        ways,
        marks,
        x,
        &mut reach.flags,
        &mut reach.list,
    )
}

/// Lowers the flags that are up.
pub(crate) fn reach_none<A: Allocator>(reach: &mut Reach<A>)
    requires { AreFlagsOf reach.old.flags.items reach.old.list.items }
    ensures size { length reach.new.flags.items ≡ length reach.old.flags.items }
    ensures down { AreDown reach.new.flags.items }
{
    lower_listed(&mut reach.flags, &reach.list)
}

/// The channels that packets come to from a channel, it counted, by choices that aren't marked.
///
/// Errors: out of memory.
pub fn behind<A: Allocator + Copy>(
    alloc: A,
    kinds: &[Kind],
    choices: &[u32],
    base: usize,
    ways: usize,
    marks: &[bool],
    x: usize,
) -> Result<Reach<A>, AllocError>
    requires room { base + length kinds.now * ways ≤ length choices.now }
    requires shut { length marks.now ≡ length kinds.now }
    requires x { x < length kinds.now }
    ensures flags { IfOk result (λ r. AreBehind kinds.now
        (choice_step kinds.now choices.now base ways marks.now) x r.flags.items) }
    ensures list { IfOk result (λ r. AreFlagsOf r.flags.items r.list.items) }
{
    let mut flags = vec![in alloc; false; kinds.len()]?;
    let mut list = Vec::new(alloc);
    raise_behind(kinds, choices, base, ways, marks, x, &mut flags, &mut list)?;
    Ok(Reach { flags, list })
}

/// Whether a choice behind a channel is marked.
fn has_escape(
    count: usize,
    choices: &[u32],
    base: usize,
    ways: usize,
    marks: &[bool],
    x: usize,
) -> bool
    requires x { x < count }
    requires room { base + count * ways ≤ length choices.now }
    requires marks { length marks.now ≡ count }
    ensures { IsEscape count choices.now (base + x * ways) ways marks.now result }
{
    for k in 0..ways {
        let y = choices[base + cell(count, ways, x, k)] as usize;
        if y < count {
            if marks[y] {
                return true;
            }
        }
    }
    false
}

/// The first channel whose flag is up, that packets go on from, without a choice that is marked.
pub fn first_bare(
    kinds: &[Kind],
    choices: &[u32],
    base: usize,
    ways: usize,
    marks: &[bool],
    seen: &[bool],
) -> Option<usize>
    requires room { base + length kinds.now * ways ≤ length choices.now }
    requires marks { length marks.now ≡ length kinds.now }
    requires size { length seen.now ≡ length kinds.now }
    ensures { MatchOption result
        (HasNoBare kinds.now choices.now base ways marks.now seen.now)
        (IsFirstBare kinds.now choices.now base ways marks.now seen.now) }
{
    for x in 0..kinds.len() {
        if !seen[x] {
            continue;
        }
        if !goes_on(kinds, x) {
            continue;
        }
        if !has_escape(kinds.len(), choices, base, ways, marks, x) {
            return Some(x);
        }
    }
    None
}
