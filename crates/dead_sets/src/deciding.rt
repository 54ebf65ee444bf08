//! What is decided of deadlocks with packets of one flit.

ghost use Rattle.std.specs.Prelude.{[], IfOk};
ghost use Rattle.network_judge.specs.Replies.{AreReplies};
ghost use Rattle.network_adaptive.specs.Choosing.{choosing_of, table, IsShaped};
ghost use Rattle.dead_sets.specs.Deciding.{IsDecidedOf};

use crate::filling::FilledChannel;
use crate::greatest::{DeadSet, greatest_dead_set};
use crate::seeking::find_filling;
use network_judge::{Join, Kind, Reply};
use std::alloc::{AllocError, Allocator, Global};

/// What is decided of deadlocks with packets of one flit.
#[derive(Drop)]
pub enum Decided<A: Allocator = Global> {
    /// They never deadlock: a number for each channel, in channel order, by which choices rise.
    Rises(Vec<usize, A>),
    /// They can: a flag for each channel, up for those of the greatest dead set, and a dead set that can be
    /// filled, the last of its channels first.
    Fills(Vec<bool, A>, Vec<FilledChannel<A>, A>),
    /// It is open: the flags of the greatest dead set, which has some channel.
    Open(Vec<bool, A>),
}

/// Decides whether packets of one flit can deadlock a network, by its lists, as `judge` of
/// `network_adaptive` has them: by numbers by which choices rise, or by a filling. Which fillings it finds is
/// a guess, so it may leave a network open that can deadlock.
///
/// Errors: out of memory, and no other.
pub fn decide<A: Allocator + Copy>(
    alloc: A,
    kinds: &[Kind],
    joins: &[Join],
    replies: &[Reply],
    ways: usize,
    choices: &[u32],
    marks: &[bool],
) -> Result<Decided<A>, AllocError>
    requires shaped { IsShaped (choosing_of kinds.now joins.now ways choices.now marks.now) }
    requires replies { AreReplies
        (table (choosing_of kinds.now joins.now ways choices.now [])) replies.now }
    ensures { IfOk result (IsDecidedOf
        (choosing_of kinds.now joins.now ways choices.now marks.now) replies.now) }
{
    match greatest_dead_set(alloc, kinds, joins, replies, ways, choices)? {
        DeadSet::Empty(numbers) => Ok(Decided::Rises(numbers)),
        DeadSet::Greatest(flags) => {
            match find_filling(alloc, kinds, joins, replies, ways, choices, marks, &flags)? {
                Some(items) => Ok(Decided::Fills(flags, items)),
                None => Ok(Decided::Open(flags)),
            }
        }
    }
}
