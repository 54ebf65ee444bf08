//! Channels of a set in which packets stay: those of some destination can go on inside the set alone.

ghost use Rattle.std.specs.Prelude.{◌≡◌, ◌+◌, ◌*◌, ◌<◌, ◌≤◌, ℕ, true, [], length, slice_get, Some};
ghost use Rattle.std.specs.List.{count_by};
ghost use Rattle.network_judge.specs.declared.table.Kind.TheVariants.{Ejection};
ghost use Rattle.network_judge.specs.Table.{table_of, joins_of, ejects};

use crate::filling::{is_answered, is_up};
use network_adaptive::comes::comes_to;
use network_adaptive::spread::{base_of, goes_on, list_of};
use network_judge::walk::{cell, is_receiver, kind_at};
use network_judge::{Join, Kind, Reply};
use std::alloc::{AllocError, Allocator, Global};

/// The lists of a network whose routers choose.
#[derive(Clone, Copy)]
pub struct ChoiceLists<'a> {
    /// The kind of each channel.
    pub kinds: &'a [Kind],
    /// The pairs that packets go between.
    pub joins: &'a [Join],
    /// The replies.
    pub replies: &'a [Reply],
    /// How many places for choices each channel has.
    pub ways: usize,
    /// The choices.
    pub choices: &'a [u32],
    ghost room: { count_by ejects kinds.now * (length kinds.now * ways) ≤ length choices.now },
    ghost within: { (i j : ℕ) → joins_of (table_of [] joins.now []) i j ≡ true →
        i < length kinds.now },
}

/// Where packets begin and come, by their destinations; nothing for a channel that is none.
#[derive(Drop)]
pub struct Goals<A: Allocator = Global> {
    /// The channels that packets to each channel begin in.
    pub starts: Vec<Vec<usize, A>, A>,
    /// Flags of the channels that they come to.
    pub comes: Vec<Vec<bool, A>, A>,
}

/// So many empty lists.
///
/// Errors: out of memory.
fn empty_lists<A: Allocator + Copy>(
    alloc: A,
    count: usize,
) -> Result<Vec<Vec<usize, A>, A>, AllocError> {
    let mut lists = Vec::new(alloc);
    for _ in 0..count {
        lists.push(Vec::new(alloc))?;
    }
    Ok(lists)
}

/// The channels that packets to each channel begin in.
///
/// Errors: out of memory.
fn starts_of<A: Allocator + Copy>(
    alloc: A,
    lists: &ChoiceLists<'_>,
) -> Result<Vec<Vec<usize, A>, A>, AllocError> {
    let mut starts = empty_lists(alloc, lists.kinds.len())?;
    for place in 0..lists.joins.len() {
        let pair = lists.joins[place];
        if pair.to < starts.len() {
            starts[pair.to].push(pair.from)?;
        }
    }
    Ok(starts)
}

/// Flags of the channels that packets to a channel come to, if it is a destination.
///
/// Errors: out of memory.
fn comes_at<A: Allocator + Copy>(
    alloc: A,
    lists: &ChoiceLists<'_>,
    none: &[bool],
    to: usize,
) -> Result<Vec<bool, A>, AllocError>
    requires none { length none.now ≡ length lists.now.kinds.now }
    requires to { to < length lists.now.kinds.now }
{
    if !is_receiver(kind_at(lists.kinds, to)) {
        return Ok(Vec::new(alloc));
    }
    let base = base_of(lists.kinds, lists.ways, to);
    comes_to(
        alloc,
        lists.kinds,
        lists.joins,
        lists.choices,
        base,
        lists.ways,
        none,
        to,
    )
}

/// Where packets begin and come.
///
/// Errors: out of memory.
pub(crate) fn goals_of<A: Allocator + Copy>(
    alloc: A,
    lists: &ChoiceLists<'_>,
) -> Result<Goals<A>, AllocError> {
    let starts = starts_of(alloc, lists)?;
    let none = vec![in alloc; false; lists.kinds.len()]?;
    let mut comes = Vec::new(alloc);
    for to in 0..lists.kinds.len() {
        comes.push(comes_at(alloc, lists, &none, to)?)?;
    }
    Ok(Goals { starts, comes })
}

/// Whether packets to a destination that wait in a channel can go on to channels of a set alone.
pub(crate) fn stays(lists: &ChoiceLists<'_>, set: &[bool], base: usize, x: usize) -> bool
    requires x { x < length lists.now.kinds.now }
    requires room { base + length lists.now.kinds.now * lists.now.ways ≤
        length lists.now.choices.now }
{
    let count = lists.kinds.len();
    if !goes_on(lists.kinds, x) {
        return is_answered(lists.replies, set, x);
    }
    for k in 0..lists.ways {
        let y = lists.choices[base + cell(count, lists.ways, x, k)] as usize;
        if y < count && !is_up(set, y) {
            return false;
        }
    }
    true
}

/// Whether packets to a destination come to a channel, and stay in a set then.
pub(crate) fn waits_in(
    lists: &ChoiceLists<'_>,
    set: &[bool],
    base: usize,
    seen: &[bool],
    x: usize,
) -> bool
    requires room { base + length lists.now.kinds.now * lists.now.ways ≤
        length lists.now.choices.now }
{
    x < lists.kinds.len() && is_up(seen, x) && stays(lists, set, base, x)
}

/// Raises the flags of those of some channels that packets to a destination come to, and stay in a set.
fn raise_staying(
    lists: &ChoiceLists<'_>,
    set: &[bool],
    listed: &[usize],
    base: usize,
    seen: &[bool],
    staying: &mut [bool],
)
    requires room { base + length lists.now.kinds.now * lists.now.ways ≤
        length lists.now.choices.now }
{
    for place in 0..listed.len() {
        let x = listed[place];
        if x >= staying.len() {
            continue;
        }
        if !staying[x] && waits_in(lists, set, base, seen, x) {
            staying[x] = true;
        }
    }
}

/// Flags of the channels of a set that packets of some destination stay in.
///
/// Errors: out of memory.
fn staying_in<A: Allocator + Copy>(
    alloc: A,
    lists: &ChoiceLists<'_>,
    goals: &Goals<A>,
    set: &[bool],
    listed: &[usize],
) -> Result<Vec<bool, A>, AllocError> {
    let mut staying = vec![in alloc; false; lists.kinds.len()]?;
    for to in 0..goals.comes.len() {
        if !is_receiver(kind_at(lists.kinds, to)) {
            continue;
        }
        let base = base_of(lists.kinds, lists.ways, to);
        raise_staying(lists, set, listed, base, &goals.comes[to], &mut staying);
    }
    Ok(staying)
}

/// The greatest dead set inside a set.
///
/// Errors: out of memory.
pub(crate) fn dead_within<A: Allocator + Copy>(
    alloc: A,
    lists: &ChoiceLists<'_>,
    goals: &Goals<A>,
    set: Vec<bool, A>,
) -> Result<Vec<bool, A>, AllocError> {
    let mut inner = set;
    let mut listed = list_of(alloc, &inner)?;
    for _ in 0..lists.kinds.len() {
        let staying = staying_in(alloc, lists, goals, &inner, &listed)?;
        let left = list_of(alloc, &staying)?;
        if left.len() == listed.len() {
            break;
        }
        inner = staying;
        listed = left;
    }
    Ok(inner)
}
