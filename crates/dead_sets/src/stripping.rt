//! Channels that are stripped off a set, one after the other: packets come to each over channels that
//! are not left, and stay in it. The last of them is the first to be filled.

ghost use Rattle.std.specs.Prelude.{◌≡◌, ◌+◌, ◌*◌, ◌<◌, ◌≤◌, length, slice_get, Some};
ghost use Rattle.network_judge.specs.declared.table.Kind.TheVariants.{Ejection};

use crate::filling::{FilledChannel, is_up};
use crate::staying::{ChoiceLists, Goals, stays, waits_in};
use network_adaptive::spread::{base_of, goes_on, list_of};
use network_judge::walk::{cell, is_receiver, kind_at};
use std::alloc::{AllocError, Allocator, Global};

/// What is stripped off a set.
#[derive(Drop)]
pub struct Stripped<A: Allocator = Global> {
    /// Flags of the channels that are left.
    pub left: Vec<bool, A>,
    /// The channels that are not, in order.
    pub items: Vec<FilledChannel<A>, A>,
}

/// The channels that packets to one destination come to, over channels that are not left.
#[derive(Drop)]
struct Coming<A: Allocator = Global> {
    /// Flags of the channels that were looked at.
    seen: Vec<bool, A>,
    /// The channel before each of them, and where packets begin the number of channels.
    parents: Vec<usize, A>,
    /// Those that packets go on from, in order.
    list: Vec<usize, A>,
}

/// The channels back from one to where packets begin.
///
/// Errors: out of memory.
fn way_back<A: Allocator>(
    alloc: A,
    parents: &[usize],
    last: usize,
) -> Result<Vec<usize, A>, AllocError> {
    let mut way = Vec::new(alloc);
    let mut x = last;
    for _ in 0..parents.len() {
        if x >= parents.len() {
            break;
        }
        way.push(x)?;
        x = parents[x];
    }
    Ok(way)
}

/// Packets come to a channel from another. If it is left, and they stay in it, it is stripped off; if they
/// don't, they don't go on from it.
///
/// Errors: out of memory.
fn come<A: Allocator + Copy>(
    alloc: A,
    lists: &ChoiceLists<'_>,
    set: &[bool],
    base: usize,
    to: usize,
    from: usize,
    y: usize,
    coming: &mut Coming<A>,
    stripped: &mut Stripped<A>,
) -> Result<(), AllocError>
    requires room { base + length lists.now.kinds.now * lists.now.ways ≤
        length lists.now.choices.now }
{
    if y >= coming.seen.len() || y >= coming.parents.len() || y >= lists.kinds.len() {
        return Ok(());
    }
    if coming.seen[y] {
        return Ok(());
    }
    coming.seen[y] = true;
    if y < stripped.left.len() && stripped.left[y] {
        if !stays(lists, set, base, y) {
            return Ok(());
        }
        let before = way_back(alloc, &coming.parents, from)?;
        stripped.items.push(FilledChannel { at: y, to, before })?;
        stripped.left[y] = false;
    }
    coming.parents[y] = from;
    coming.list.push(y)?;
    Ok(())
}

/// Packets to a destination come to the channels that they begin in.
///
/// Errors: out of memory.
fn come_from_senders<A: Allocator + Copy>(
    alloc: A,
    lists: &ChoiceLists<'_>,
    set: &[bool],
    base: usize,
    to: usize,
    starts: &[usize],
    coming: &mut Coming<A>,
    stripped: &mut Stripped<A>,
) -> Result<(), AllocError>
    requires room { base + length lists.now.kinds.now * lists.now.ways ≤
        length lists.now.choices.now }
{
    let count = lists.kinds.len();
    for place in 0..starts.len() {
        come(
            alloc,
            lists,
            set,
            base,
            to,
            count,
            starts[place],
            coming,
            stripped,
        )?;
    }
    Ok(())
}

/// They come to the channels that are choices behind one.
///
/// Errors: out of memory.
fn come_from<A: Allocator + Copy>(
    alloc: A,
    lists: &ChoiceLists<'_>,
    set: &[bool],
    base: usize,
    to: usize,
    x: usize,
    coming: &mut Coming<A>,
    stripped: &mut Stripped<A>,
) -> Result<(), AllocError>
    requires x { x < length lists.now.kinds.now }
    requires room { base + length lists.now.kinds.now * lists.now.ways ≤
        length lists.now.choices.now }
{
    let count = lists.kinds.len();
    for k in 0..lists.ways {
        let y = lists.choices[base + cell(count, lists.ways, x, k)] as usize;
        come(alloc, lists, set, base, to, x, y, coming, stripped)?;
    }
    Ok(())
}

/// Strips channels off a set that packets to one destination come to, and stay in.
///
/// Errors: out of memory.
fn strip_to<A: Allocator + Copy>(
    alloc: A,
    lists: &ChoiceLists<'_>,
    set: &[bool],
    to: usize,
    starts: &[usize],
    stripped: &mut Stripped<A>,
) -> Result<(), AllocError>
    requires { slice_get lists.now.kinds.now to ≡ Some Ejection }
{
    let count = lists.kinds.len();
    let base = base_of(lists.kinds, lists.ways, to);
    let mut coming = Coming {
        seen: vec![in alloc; false; count]?,
        parents: vec![in alloc; count; count]?,
        list: Vec::new(alloc),
    };
    come_from_senders(alloc, lists, set, base, to, starts, &mut coming, stripped)?;
    for place in 0..count {
        if place >= coming.list.len() {
            break;
        }
        let x = coming.list[place];
        if x >= count {
            continue;
        }
        if !goes_on(lists.kinds, x) {
            continue;
        }
        come_from(alloc, lists, set, base, to, x, &mut coming, stripped)?;
    }
    Ok(())
}

/// Whether packets to a destination come to some of these channels that is left, and stay in a set.
fn has_waiting(
    lists: &ChoiceLists<'_>,
    set: &[bool],
    base: usize,
    seen: &[bool],
    listed: &[usize],
    left: &[bool],
) -> bool
    requires room { base + length lists.now.kinds.now * lists.now.ways ≤
        length lists.now.choices.now }
{
    for place in 0..listed.len() {
        let x = listed[place];
        if is_up(left, x) && waits_in(lists, set, base, seen, x) {
            return true;
        }
    }
    false
}

/// Strips channels off a set by packets to each destination that stay in some of them.
///
/// Errors: out of memory.
fn strip_once<A: Allocator + Copy>(
    alloc: A,
    lists: &ChoiceLists<'_>,
    goals: &Goals<A>,
    set: &[bool],
    listed: &[usize],
    stripped: &mut Stripped<A>,
) -> Result<(), AllocError> {
    for to in 0..goals.comes.len() {
        if to >= goals.starts.len() || !is_receiver(kind_at(lists.kinds, to)) {
            continue;
        }
        let base = base_of(lists.kinds, lists.ways, to);
        if has_waiting(lists, set, base, &goals.comes[to], listed, &stripped.left) {
            strip_to(alloc, lists, set, to, &goals.starts[to], stripped)?;
        }
    }
    Ok(())
}

/// Strips channels off a set, until no more can be.
///
/// Errors: out of memory.
pub(crate) fn strip<A: Allocator + Copy>(
    alloc: A,
    lists: &ChoiceLists<'_>,
    goals: &Goals<A>,
    set: &[bool],
) -> Result<Stripped<A>, AllocError> {
    let listed = list_of(alloc, set)?;
    let mut stripped = Stripped {
        left: Vec::from_slice(alloc, set)?,
        items: Vec::new(alloc),
    };
    for _ in 0..set.len() {
        let before = stripped.items.len();
        strip_once(alloc, lists, goals, set, &listed, &mut stripped)?;
        if stripped.items.len() == before {
            break;
        }
    }
    Ok(stripped)
}
