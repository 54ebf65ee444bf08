//! The routers of a network, found where its channels meet.

ghost use Rattle.std.specs.Prelude.{◌≡◌, ◌+◌, ◌<◌, ℕ, false, length, Some, None, slice_index, IfOk};
ghost use Rattle.network_judge.specs.Table.{table_of, columns_of, is_receiver, IsFull};
ghost use Rattle.network_judge.specs.Table.{kind_of};
ghost use Rattle.network_rounds.specs.Routers.{AreRouters, AreNoted, AreRenumbered, NotesChoice};
ghost use Rattle.network_rounds.specs.Routers.{first_choosing};

use network_judge::columns::ends_of;
use network_judge::walk::{cell, is_receiver, kind_at};
use network_judge::{Join, Kind};
use std::alloc::{AllocError, Allocator};

/// Gives another number to all channels of one number.
fn renumber(routers: &mut [usize], from: usize, to: usize)
    ensures { AreRenumbered routers.old routers.new from to }
{
    if from == to {
        return;
    }
    for z in 0..routers.len() {
        if routers[z] == from {
            routers[z] = to;
        }
    }
}

/// Notes that channel y may be chosen behind channel x: all channels behind which it may be chosen have
/// one router.
fn note_choice(routers: &mut [usize], firsts: &mut [Option<usize>], x: usize, y: usize)
    requires x { x < length routers.old }
    requires first { (z first : ℕ) → first_choosing firsts.old z ≡ Some first →
        first < length routers.old }
    ensures { NotesChoice routers.old firsts.old x y routers.new firsts.new }
{
    if y >= firsts.len() {
        return;
    }
    match firsts[y] {
        None => firsts[y] = Some(x),
        Some(first) => {
            let from = routers[x];
            let to = routers[first];
            renumber(routers, from, to);
        }
    }
}

/// Notes all choices behind channel x, which is no ejection channel.
fn note_row(
    kinds: &[Kind],
    joins: &[Join],
    choices: &[u32],
    width: usize,
    routers: &mut [usize],
    firsts: &mut [Option<usize>],
    x: usize,
)
    requires full { IsFull (table_of kinds.now joins.now choices.now) }
    requires width { width ≡ columns_of (table_of kinds.now joins.now choices.now) }
    requires x { x < length kinds.now }
    requires input { is_receiver (kind_of (table_of kinds.now joins.now choices.now) x) ≡ false }
    requires noted { AreNoted (table_of kinds.now joins.now choices.now) x 0
        routers.old firsts.old }
    ensures { AreNoted (table_of kinds.now joins.now choices.now) (x + 1) 0 routers.new firsts.new }
{
    for column in 0..width {
        let y = choices[cell(kinds.len(), width, x, column)] as usize;
        note_choice(routers, firsts, x, y);
    }
}

/// Notes all choices behind channel x, if it is no ejection channel.
#[tactic(auto, using(crate::proofs::Meeting::noted_receiver))]
fn note_channel(
    kinds: &[Kind],
    joins: &[Join],
    choices: &[u32],
    width: usize,
    routers: &mut [usize],
    firsts: &mut [Option<usize>],
    x: usize,
)
    requires full { IsFull (table_of kinds.now joins.now choices.now) }
    requires width { width ≡ columns_of (table_of kinds.now joins.now choices.now) }
    requires x { x < length kinds.now }
    requires noted { AreNoted (table_of kinds.now joins.now choices.now) x 0
        routers.old firsts.old }
    ensures { AreNoted (table_of kinds.now joins.now choices.now) (x + 1) 0 routers.new firsts.new }
{
    if is_receiver(kind_at(kinds, x)) {
        return;
    }
    note_row(kinds, joins, choices, width, routers, firsts, x);
}

/// The numbers from 0 on.
///
/// Errors: out of memory.
fn own_numbers<A: Allocator + Copy>(alloc: A, count: usize) -> Result<Vec<usize, A>, AllocError>
    ensures size { IfOk result (λ numbers. length numbers.items ≡ count) }
    ensures own { IfOk result (λ numbers. (x : ℕ) → x < count → slice_index numbers.items x ≡ x) }
{
    let mut numbers = Vec::with_capacity(alloc, count)?;
    for x in 0..count {
        numbers.push(x)?;
    }
    Ok(numbers)
}

/// No channel for each of so many.
///
/// Errors: out of memory.
fn no_firsts<A: Allocator + Copy>(
    alloc: A,
    count: usize,
) -> Result<Vec<Option<usize>, A>, AllocError>
    ensures size { IfOk result (λ firsts. length firsts.items ≡ count) }
    ensures none { IfOk result (λ firsts. (y : ℕ) → first_choosing firsts.items y ≡ None) }
{
    let mut firsts = Vec::with_capacity(alloc, count)?;
    for _noted in 0..count {
        firsts.push(None)?;
    }
    Ok(firsts)
}

/// A number for each channel, the same for two channels exactly if they lead to one router: if behind
/// both, or over others, the same channel may be chosen.
///
/// Errors: out of memory.
pub fn routers_of<A: Allocator + Copy>(
    alloc: A,
    kinds: &[Kind],
    joins: &[Join],
    choices: &[u32],
) -> Result<Vec<usize, A>, AllocError>
    requires { IsFull (table_of kinds.now joins.now choices.now) }
    ensures { IfOk result (λ routers.
        AreRouters (table_of kinds.now joins.now choices.now) routers.items) }
{
    let width = ends_of(alloc, kinds)?.len();
    let mut routers = own_numbers(alloc, kinds.len())?;
    let mut firsts = no_firsts(alloc, kinds.len())?;
    for x in 0..kinds.len() {
        note_channel(kinds, joins, choices, width, &mut routers, &mut firsts, x);
    }
    Ok(routers)
}
