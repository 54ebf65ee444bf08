//! The greatest dead set of a network whose routers choose, or numbers by which choices rise.

ghost use Rattle.std.specs.Prelude.{◌≡◌, ◌≢◌, ◌-◌, ◌+◌, ◌*◌, ◌<◌, ◌≤◌, ℕ, true, [], length};
ghost use Rattle.std.specs.Prelude.{slice_index};
ghost use Rattle.std.specs.Prelude.{false, IfOk, MatchOption, slice_get, Some};
ghost use Rattle.std.specs.List.{count_by};
ghost use Rattle.network_judge.specs.declared.table.Kind.TheVariants.{Ejection};
ghost use Rattle.network_judge.specs.Replies.{AreReplies};
ghost use Rattle.network_judge.specs.Table.{table_of, joins_of, ejects};
ghost use Rattle.network_judge.specs.Marks.{is_marked_at};
ghost use Rattle.network_adaptive.specs.Choosing.{choosing_of, table};
ghost use Rattle.dead_sets.specs.Numbers.{AreNumbers, AreFlagsOfLeft};
ghost use Rattle.dead_sets.specs.Greatest.{IsFoundBy, IsDeadSetOf};

use crate::cases::cases_of;
use crate::peeling::peel;
use network_judge::{Join, Kind, Reply};
use std::alloc::{AllocError, Allocator, Global};

/// What is found of the dead sets of a network.
#[derive(Drop)]
pub enum DeadSet<A: Allocator = Global> {
    /// There is none but the empty one: a number for each channel, in channel order; wherever packets come,
    /// one of their choices has a greater one, and at their end each channel on which they are answered.
    Empty(Vec<usize, A>),
    /// The greatest one, which has some channel: a flag for each channel, in channel order.
    Greatest(Vec<bool, A>),
}

/// The flags of the places of a list where something other than 0 stands.
///
/// Errors: out of memory.
fn flags_of<A: Allocator + Copy>(alloc: A, left: &[usize]) -> Result<Vec<bool, A>, AllocError>
    ensures { IfOk result (λ flags. AreFlagsOfLeft left.now flags.items) }
{
    let mut flags = Vec::new(alloc);
    for x in 0..left.len() {
        flags.push(left[x] != 0)?;
    }
    Ok(flags)
}

/// A number for each channel of an order: the earlier it stands there first, the greater.
///
/// Errors: out of memory.
fn numbers_of<A: Allocator + Copy>(
    alloc: A,
    count: usize,
    order: &[usize],
) -> Result<Vec<usize, A>, AllocError>
    requires few { length order.now ≤ count }
    requires low { (k : ℕ) → k < length order.now → slice_index order.now k < count }
    ensures { IfOk result (λ numbers. AreNumbers count order.now numbers.items) }
{
    let mut numbers = vec![in alloc; 0; count]?;
    let mut at = order.len();
    'back: while at > 0 {
        at -= 1;
        let x = order[at];
        numbers[x] = count - 1 - at;
    }
    Ok(numbers)
}

/// The first place whose flag is up.
pub(crate) fn first_up(flags: &[bool]) -> Option<usize>
    ensures { MatchOption result ((x : ℕ) → x < length flags.now → is_marked_at flags.now x ≡ false)
        (λ x. is_marked_at flags.now x ≡ true) }
{
    for x in 0..flags.len() {
        if flags[x] {
            return Some(x);
        }
    }
    None
}

/// What is found by how many cases are left in each channel, and by the order in which the others were
/// struck out.
///
/// Errors: out of memory.
fn found_by<A: Allocator + Copy>(
    alloc: A,
    left: &[usize],
    order: &[usize],
) -> Result<DeadSet<A>, AllocError>
    requires few { length order.now ≤ length left.now }
    requires low { (k : ℕ) → k < length order.now → slice_index order.now k < length left.now }
    ensures { IfOk result (IsFoundBy left.now order.now) }
{
    let flags = flags_of(alloc, left)?;
    match first_up(&flags) {
        Some(_) => Ok(DeadSet::Greatest(flags)),
        None => Ok(DeadSet::Empty(numbers_of(alloc, left.len(), order)?)),
    }
}

/// The greatest dead set of a network by its lists, or numbers by which choices rise: the kind of each
/// channel, the source-destination pairs, the replies, and the routers' choices, as `judge` of
/// `network_adaptive` has them. Which channels are escapes doesn't matter.
///
/// It looks at each choice a few times, so it takes a time in proportion to the size of the lists.
///
/// Errors: out of memory, and no other.
pub fn greatest_dead_set<A: Allocator + Copy>(
    alloc: A,
    kinds: &[Kind],
    joins: &[Join],
    replies: &[Reply],
    ways: usize,
    choices: &[u32],
) -> Result<DeadSet<A>, AllocError>
    requires room { count_by ejects kinds.now * (length kinds.now * ways) ≤ length choices.now }
    requires within { (i j : ℕ) → joins_of (table_of [] joins.now []) i j ≡ true
        → i < length kinds.now }
    requires receivers { (i j : ℕ) → joins_of (table_of [] joins.now []) i j ≡ true
        → slice_get kinds.now j ≡ Some Ejection }
    requires replies { AreReplies
        (table (choosing_of kinds.now joins.now ways choices.now [])) replies.now }
    ensures { IfOk result (IsDeadSetOf kinds.now joins.now replies.now ways choices.now) }
{
    let none = vec![in alloc; false; kinds.len()]?;
    let cases = cases_of(alloc, kinds, joins, replies, choices, ways, &none)?;
    let peeled = peel(alloc, kinds.len(), &cases.at, &cases.ways_out)?;
    Ok(found_by(alloc, &peeled.left, &peeled.order)?)
}
