//! A search for a dead set that can be filled.

ghost use Rattle.std.specs.Prelude.{◌≡◌, ◌*◌, ◌≤◌, ◌<◌, ℕ, true, length, IfOk, MatchOption, map};
ghost use Rattle.network_adaptive.specs.Choosing.{choosing_of, IsShaped};
ghost use Rattle.dead_sets.specs.FillingFlags.{filling_of, IsDeadBy, CanDeadlock};

use crate::dead_filling::is_dead_filling;
use crate::filling::{FilledChannel, is_up};
use crate::greatest::first_up;
use crate::shrinking::{fewest_of, filled_by};
use crate::staying::{ChoiceLists, Goals, dead_within, goals_of};
use crate::stripping::strip;
use network_judge::{Join, Kind, Reply};
use std::alloc::{AllocError, Allocator};

/// How often a search begins anew, at most.
const RESTARTS: usize = 64;

/// A filling of channels of a set: where some channels can't be filled, the first of them is struck out,
/// and what packets can then leave, and the others are tried again, so often at most.
///
/// Errors: out of memory.
fn filling_in<A: Allocator + Copy>(
    alloc: A,
    lists: &ChoiceLists<'_>,
    goals: &Goals<A>,
    set: &[bool],
) -> Result<Vec<FilledChannel<A>, A>, AllocError> {
    let mut inner = Vec::from_slice(alloc, set)?;
    for _ in 0..RESTARTS {
        let stripped = strip(alloc, lists, goals, &inner)?;
        match first_up(&stripped.left) {
            None => return Ok(stripped.items),
            Some(x) => {
                if x < inner.len() {
                    inner[x] = false;
                }
                inner = dead_within(alloc, lists, goals, inner)?;
            }
        }
    }
    Ok(Vec::new(alloc))
}

/// A filling of other channels of one than a given one, or none.
///
/// Errors: out of memory.
fn filling_without<A: Allocator + Copy>(
    alloc: A,
    lists: &ChoiceLists<'_>,
    goals: &Goals<A>,
    filled: Vec<bool, A>,
    x: usize,
) -> Result<Vec<FilledChannel<A>, A>, AllocError> {
    let mut inner = filled;
    if x < inner.len() {
        inner[x] = false;
    }
    let set = dead_within(alloc, lists, goals, inner)?;
    let items = filling_in(alloc, lists, goals, &set)?;
    fewest_of(alloc, lists, items)
}

/// A filling from which no channel can be left out, as far as the search sees.
///
/// Errors: out of memory.
fn shrunk<A: Allocator + Copy>(
    alloc: A,
    lists: &ChoiceLists<'_>,
    goals: &Goals<A>,
    items: Vec<FilledChannel<A>, A>,
) -> Result<Vec<FilledChannel<A>, A>, AllocError> {
    let mut best = items;
    for x in 0..lists.kinds.len() {
        let filled = filled_by(alloc, lists.kinds.len(), &best)?;
        if !is_up(&filled, x) {
            continue;
        }
        let fewer = filling_without(alloc, lists, goals, filled, x)?;
        if fewer.is_empty() {
            continue;
        }
        best = fewer;
    }
    Ok(best)
}

/// Guesses channels of a set, such as the greatest dead set, that are a dead set which can be filled, the
/// last of them first. Of those that it finds none can be left out so that it would find the others.
///
/// It takes channels off the set that packets come to over channels which are not left in it. Where that ends
/// before all are taken, it strikes out the first one that is left, with those that packets can then leave,
/// and begins anew, 64 times at most. So it may find none where there is one.
///
/// Errors: out of memory, and no other.
pub fn find_filling<A: Allocator + Copy>(
    alloc: A,
    kinds: &[Kind],
    joins: &[Join],
    replies: &[Reply],
    ways: usize,
    choices: &[u32],
    marks: &[bool],
    set: &[bool],
) -> Result<Option<Vec<FilledChannel<A>, A>>, AllocError>
    requires { IsShaped (choosing_of kinds.now joins.now ways choices.now marks.now) }
    ensures dead { IfOk result (λ found. MatchOption found (Unit {0}) (λ items.
        IsDeadBy (choosing_of kinds.now joins.now ways choices.now marks.now) replies.now
        (map filling_of items.items) true)) }
    ensures deadlocks { IfOk result (λ found. MatchOption found (Unit {0}) (λ items.
        CanDeadlock (choosing_of kinds.now joins.now ways choices.now marks.now) replies.now)) }
{
    let lists = ChoiceLists {
        kinds,
        joins,
        replies,
        ways,
        choices,
    };
    let goals = goals_of(alloc, &lists)?;
    let first = filling_in(alloc, &lists, &goals, set)?;
    let fewest = fewest_of(alloc, &lists, first)?;
    let items = shrunk(alloc, &lists, &goals, fewest)?;
    if is_dead_filling(alloc, kinds, joins, replies, ways, choices, marks, &items)? {
        Ok(Some(items))
    } else {
        Ok(None)
    }
}
