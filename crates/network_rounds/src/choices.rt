//! The choices of a network in the order of a round, in groups.

ghost use Rattle.std.specs.Prelude.{◌≡◌, ◌<◌, ◌≤◌, ◌++◌, ◌∷◌, [], length, map, option_to_list};
ghost use Rattle.std.specs.Prelude.{IfOk, OnOk};
ghost use Rattle.std.specs.Prelude.{if◌then◌else◌, Some, None};
ghost use Rattle.network_rounds.specs.Choices.{choice_in_part, group_of, parts_of, groups_of};
ghost use Rattle.network_rounds.specs.Choices.{has_choices};

use network_judge::Kind;
use network_judge::walk::{is_receiver, is_sender, kind_at};
use network_machine::Move;
use std::alloc::{AllocError, Allocator};

/// A part of a round: choices of one kind.
#[derive(Clone, Copy)]
pub enum Part {
    /// Senders go on with their packets.
    Senders,
    /// Routers take flits into their latches.
    Takes,
    /// The router of this number puts flits from its latches.
    Puts(usize),
    /// Receivers take flits.
    Receivers,
    /// Credits come back.
    Credits,
}

/// A choice, if there is one.
fn choice_if(is_there: bool, choice: Move) -> Option<Move>
    ensures { result ≡ if is_there then Some choice else None }
{
    if is_there { Some(choice) } else { None }
}

/// The choice that a channel has in a part, if any; `routers` has the number of the router behind each
/// channel.
fn choice_at(kinds: &[Kind], routers: &[usize], part: Part, x: usize) -> Option<Move>
    requires { x < length routers.now }
    ensures { result ≡ choice_in_part kinds.now routers.now part x }
{
    let kind = kind_at(kinds, x);
    match part {
        Part::Senders => choice_if(is_sender(kind), Move::More(x)),
        Part::Takes => choice_if(!is_receiver(kind), Move::Take(x)),
        Part::Puts(router) => {
            if is_receiver(kind) {
                return None;
            }
            choice_if(routers[x] == router, Move::Put(x))
        }
        Part::Receivers => choice_if(is_receiver(kind), Move::Accept(x)),
        Part::Credits => Some(Move::Credit(x)),
    }
}

/// Adds a choice to a group, if there is one.
fn add_choice<A: Allocator>(
    group: &mut Vec<Move, A>,
    choice: Option<Move>,
) -> Result<(), AllocError>
    ensures { OnOk result (group.new.items ≡ group.old.items ++ option_to_list choice) }
{
    match choice {
        None => Ok(()),
        Some(of) => {
            group.push(of)?;
            Ok(())
        }
    }
}

/// The choices of a part, by channels.
///
/// Errors: out of memory.
fn group_of<A: Allocator + Copy>(
    alloc: A,
    kinds: &[Kind],
    routers: &[usize],
    part: Part,
) -> Result<Vec<Move, A>, AllocError>
    requires { length routers.now ≡ length kinds.now }
    ensures { IfOk result (λ group. group.items ≡ group_of kinds.now routers.now part) }
{
    let mut group = Vec::new(alloc);
    for x in 0..kinds.len() {
        add_choice(&mut group, choice_at(kinds, routers, part, x))?;
    }
    Ok(group)
}

/// The parts of a round, with so many routers.
///
/// Errors: out of memory.
fn parts_of<A: Allocator + Copy>(alloc: A, routers: usize) -> Result<Vec<Part, A>, AllocError>
    ensures { IfOk result (λ parts. parts.items ≡ parts_of routers) }
{
    let mut parts = Vec::new(alloc);
    parts.push(Part::Senders)?;
    parts.push(Part::Takes)?;
    for router in 0..routers {
        parts.push(Part::Puts(router))?;
    }
    parts.push(Part::Receivers)?;
    parts.push(Part::Credits)?;
    Ok(parts)
}

/// Adds a group, if it has choices.
fn push_group<A: Allocator>(
    groups: &mut Vec<Vec<Move, A>, A>,
    group: Vec<Move, A>,
) -> Result<(), AllocError>
    ensures { OnOk result (groups.new.items
        ≡ groups.old.items ++ (if has_choices group.items then group ∷ [] else [])) }
{
    if !group.is_empty() {
        groups.push(group)?;
    }
    Ok(())
}

/// The choices of all channels, in the order of a round, with so many routers; `routers` has the number
/// of the router behind each channel.
///
/// Errors: out of memory.
pub fn groups_of<A: Allocator + Copy>(
    alloc: A,
    kinds: &[Kind],
    routers: &[usize],
    count: usize,
) -> Result<Vec<Vec<Move, A>, A>, AllocError>
    requires { length routers.now ≡ length kinds.now }
    ensures { IfOk result (λ groups. map (λ group. group.items) groups.items
        ≡ groups_of kinds.now routers.now count) }
{
    let parts = parts_of(alloc, count)?;
    let mut groups = Vec::new(alloc);
    for k in 0..parts.len() {
        push_group(&mut groups, group_of(alloc, kinds, routers, parts[k])?)?;
    }
    Ok(groups)
}
