//! The ways between the channels of a cycle: how a packet that holds the one comes to wait for the next.

ghost use Rattle.std.specs.Prelude.{◌≡◌, ◌+◌, ◌*◌, ◌<◌, ◌≤◌, true, length, slice_set, IfOk};
ghost use Rattle.network_adaptive.specs.Between.{waits_at, IsWhether, IsChoiceBehind, LeadsToWait};
ghost use Rattle.network_adaptive.specs.Between.{HasStepToward, StepsToward, IsWayBetween};

use crate::comes::behind;
use crate::spread::goes_on;
use network_judge::Kind;
use network_judge::walk::cell;
use std::alloc::{AllocError, Allocator};

/// Whether packets go on from a channel, and another is a choice behind it.
fn waits_at(kinds: &[Kind], choices: &[u32], base: usize, ways: usize, x: usize, y: usize) -> bool
    requires x { x < length kinds.now }
    requires room { base + length kinds.now * ways ≤ length choices.now }
    ensures { result ≡ waits_at kinds.now choices.now base ways x y }
{
    if !goes_on(kinds, x) {
        return false;
    }
    for k in 0..ways {
        if choices[base + cell(kinds.len(), ways, x, k)] as usize == y {
            return true;
        }
    }
    false
}

/// Whether a channel is a choice behind one whose flag is up.
fn is_among(
    kinds: &[Kind],
    choices: &[u32],
    base: usize,
    ways: usize,
    flags: &[bool],
    y: usize,
) -> bool
    requires room { base + length kinds.now * ways ≤ length choices.now }
    requires size { length flags.now ≡ length kinds.now }
    ensures { IsWhether (IsChoiceBehind kinds.now choices.now base ways flags.now y) result }
{
    for x in 0..kinds.len() {
        if !flags[x] {
            continue;
        }
        if waits_at(kinds, choices, base, ways, x, y) {
            return true;
        }
    }
    false
}

/// Whether packets go on from a channel, over none that is shut, to one behind which another is a
/// choice.
///
/// Errors: out of memory.
pub fn leads_to_wait<A: Allocator + Copy>(
    alloc: A,
    kinds: &[Kind],
    choices: &[u32],
    base: usize,
    ways: usize,
    shut: &[bool],
    x: usize,
    y: usize,
) -> Result<bool, AllocError>
    requires room { base + length kinds.now * ways ≤ length choices.now }
    requires shut { length shut.now ≡ length kinds.now }
    requires x { x < length kinds.now }
    ensures { IfOk result (IsWhether (LeadsToWait kinds.now choices.now base ways shut.now x y)) }
{
    let reach = behind(alloc, kinds, choices, base, ways, shut, x)?;
    Ok(is_among(kinds, choices, base, ways, &reach.flags, y))
}

/// The first choice behind a channel, but of those that are shut, from which packets go on to one
/// behind which another is a choice.
///
/// Errors: out of memory.
fn step_toward<A: Allocator + Copy>(
    alloc: A,
    kinds: &[Kind],
    choices: &[u32],
    base: usize,
    ways: usize,
    shut: &[bool],
    x: usize,
    y: usize,
) -> Result<usize, AllocError>
    requires room { base + length kinds.now * ways ≤ length choices.now }
    requires shut { length shut.now ≡ length kinds.now }
    requires x { x < length kinds.now }
    requires has { HasStepToward kinds.now choices.now base ways shut.now x y }
    ensures { IfOk result (StepsToward kinds.now choices.now base ways shut.now x y) }
{
    for k in 0..ways {
        let next = choices[base + cell(kinds.len(), ways, x, k)] as usize;
        if next >= kinds.len() {
            continue;
        }
        if shut[next] {
            continue;
        }
        if leads_to_wait(alloc, kinds, choices, base, ways, shut, next, y)? {
            return Ok(next);
        }
    }
    unreachable!()
}

/// The flags, with one more that is up.
///
/// Errors: out of memory.
fn with_flag<A: Allocator + Copy>(
    alloc: A,
    flags: &[bool],
    x: usize,
) -> Result<Vec<bool, A>, AllocError>
    requires { x < length flags.now }
    ensures { IfOk result (λ more. more.items ≡ slice_set flags.now x true) }
{
    let mut more = Vec::with_capacity(alloc, flags.len())?;
    more.extend_from_slice(flags)?;
    more[x] = true;
    Ok(more)
}

/// Over which channels, none of them marked, packets go on from a channel to one behind which another
/// is a choice.
///
/// Errors: out of memory.
pub fn way_between<A: Allocator + Copy>(
    alloc: A,
    kinds: &[Kind],
    choices: &[u32],
    base: usize,
    ways: usize,
    marks: &[bool],
    x: usize,
    y: usize,
) -> Result<Vec<usize, A>, AllocError>
    requires room { base + length kinds.now * ways ≤ length choices.now }
    requires marks { length marks.now ≡ length kinds.now }
    requires x { x < length kinds.now }
    requires leads { LeadsToWait kinds.now choices.now base ways marks.now x y }
    ensures { IfOk result (λ over.
        IsWayBetween kinds.now choices.now base ways marks.now x over.items y) }
{
    let mut shut = with_flag(alloc, marks, x)?;
    let mut over = Vec::new(alloc);
    let mut at = x;
    while !waits_at(kinds, choices, base, ways, at, y) {
        at = step_toward(alloc, kinds, choices, base, ways, &shut, at, y)?;
        shut[at] = true;
        over.push(at)?;
    }
    Ok(over)
}
