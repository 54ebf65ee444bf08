//! Fewer channels of a filling that are one still: those that packets in some channel wait for.

ghost use Rattle.std.specs.Prelude.{◌≡◌, ◌+◌, ◌*◌, ◌<◌, ◌≤◌, length};

use crate::filling::{FilledChannel, is_up};
use crate::staying::ChoiceLists;
use network_adaptive::spread::{base_of, goes_on};
use network_judge::walk::{cell, is_receiver, kind_at};
use std::alloc::{AllocError, Allocator, Global};

/// Channels that are awaited.
#[derive(Drop)]
pub struct Awaited<A: Allocator = Global> {
    /// Flags of them.
    pub flags: Vec<bool, A>,
    /// They, in order.
    pub list: Vec<usize, A>,
}

/// Adds a channel, if it isn't there.
///
/// Errors: out of memory.
fn await_one<A: Allocator>(y: usize, awaited: &mut Awaited<A>) -> Result<(), AllocError> {
    if y >= awaited.flags.len() {
        return Ok(());
    }
    if awaited.flags[y] {
        return Ok(());
    }
    awaited.flags[y] = true;
    awaited.list.push(y)?;
    Ok(())
}

/// Adds the first filled channel on which packets from a channel are answered.
///
/// Errors: out of memory.
fn await_reply<A: Allocator>(
    lists: &ChoiceLists<'_>,
    filled: &[bool],
    from: usize,
    awaited: &mut Awaited<A>,
) -> Result<(), AllocError> {
    for place in 0..lists.replies.len() {
        let reply = lists.replies[place];
        if reply.from == from && is_up(filled, reply.to) {
            await_one(reply.to, awaited)?;
            break;
        }
    }
    Ok(())
}

/// Adds the choices behind a channel for packets to a destination.
///
/// Errors: out of memory.
fn await_choices<A: Allocator>(
    lists: &ChoiceLists<'_>,
    base: usize,
    x: usize,
    awaited: &mut Awaited<A>,
) -> Result<(), AllocError>
    requires x { x < length lists.now.kinds.now }
    requires room { base + length lists.now.kinds.now * lists.now.ways ≤
        length lists.now.choices.now }
{
    let count = lists.kinds.len();
    for k in 0..lists.ways {
        let y = lists.choices[base + cell(count, lists.ways, x, k)] as usize;
        await_one(y, awaited)?;
    }
    Ok(())
}

/// Adds what the packets that fill a channel wait for: where it goes on from, its choices.
///
/// Errors: out of memory.
fn await_behind<A: Allocator>(
    lists: &ChoiceLists<'_>,
    filled: &[bool],
    goals: &[usize],
    x: usize,
    awaited: &mut Awaited<A>,
) -> Result<(), AllocError> {
    if x >= lists.kinds.len() || x >= goals.len() {
        return Ok(());
    }
    if !goes_on(lists.kinds, x) {
        return await_reply(lists, filled, x, awaited);
    }
    let to = goals[x];
    if !is_receiver(kind_at(lists.kinds, to)) {
        return Ok(());
    }
    let base = base_of(lists.kinds, lists.ways, to);
    await_choices(lists, base, x, awaited)
}

/// The filled channels that packets in one of them wait for, it counted, and those in these, and so on, until
/// there are so many.
///
/// Errors: out of memory.
fn awaited_from<A: Allocator + Copy>(
    alloc: A,
    lists: &ChoiceLists<'_>,
    filled: &[bool],
    goals: &[usize],
    start: usize,
    most: usize,
) -> Result<Awaited<A>, AllocError> {
    let mut awaited = Awaited {
        flags: vec![in alloc; false; filled.len()]?,
        list: Vec::new(alloc),
    };
    await_one(start, &mut awaited)?;
    for place in 0..most {
        if place >= awaited.list.len() || awaited.list.len() >= most {
            break;
        }
        let x = awaited.list[place];
        await_behind(lists, filled, goals, x, &mut awaited)?;
    }
    Ok(awaited)
}

/// The destination of the packets that fill each channel, and the number of channels where none do.
///
/// Errors: out of memory.
fn destinations_of<A: Allocator + Copy>(
    alloc: A,
    count: usize,
    items: &[FilledChannel<A>],
) -> Result<Vec<usize, A>, AllocError> {
    let mut goals = vec![in alloc; count; count]?;
    for place in 0..items.len() {
        let x = items[place].at;
        if x < goals.len() {
            goals[x] = items[place].to;
        }
    }
    Ok(goals)
}

/// Flags of the channels of a filling.
///
/// Errors: out of memory.
pub(crate) fn filled_by<A: Allocator + Copy>(
    alloc: A,
    count: usize,
    items: &[FilledChannel<A>],
) -> Result<Vec<bool, A>, AllocError> {
    let mut filled = vec![in alloc; false; count]?;
    for place in 0..items.len() {
        let x = items[place].at;
        if x < filled.len() {
            filled[x] = true;
        }
    }
    Ok(filled)
}

/// Flags of the fewest channels of a filling that packets in one of them wait for, and so on.
///
/// Errors: out of memory.
fn fewest_awaited<A: Allocator + Copy>(
    alloc: A,
    lists: &ChoiceLists<'_>,
    items: &[FilledChannel<A>],
) -> Result<Vec<bool, A>, AllocError> {
    let count = lists.kinds.len();
    let filled = filled_by(alloc, count, items)?;
    let goals = destinations_of(alloc, count, items)?;
    let mut fewest = filled_by(alloc, count, items)?;
    let mut size = items.len();
    for place in 0..items.len() {
        let awaited = awaited_from(alloc, lists, &filled, &goals, items[place].at, size)?;
        if awaited.list.len() < size {
            size = awaited.list.len();
            fewest = awaited.flags;
        }
    }
    Ok(fewest)
}

/// The fewest channels of a filling that packets in one of them wait for, and so on: a filling, too.
///
/// Errors: out of memory.
pub(crate) fn fewest_of<A: Allocator + Copy>(
    alloc: A,
    lists: &ChoiceLists<'_>,
    items: Vec<FilledChannel<A>, A>,
) -> Result<Vec<FilledChannel<A>, A>, AllocError> {
    let fewest = fewest_awaited(alloc, lists, &items)?;
    let mut fewer = items;
    fewer.retain(|item| is_up(&fewest, item.at));
    Ok(fewer)
}
