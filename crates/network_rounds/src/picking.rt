//! The choices that are enabled when a round begins.

ghost use Rattle.std.specs.Prelude.{◌≡◌, ◌+◌, ◌<◌, ◌≤◌, ◌∷◌, [], false, length, take};
ghost use Rattle.std.specs.List.{sum_by};
ghost use Rattle.network_machine.specs.Machine.{NetworkMachineSpec, Prevents};
ghost use Rattle.network_rounds.specs.Attempts.{AddsEnabled};
ghost use Rattle.network_rounds.specs.Flags.{AreIdleWhereDown, choices_of};
ghost use Rattle.network_rounds.specs.Rounds.{turned, turned_groups};

use network_machine::{Machine, Move};
use std::alloc::Allocator;

/// Adds a move behind the first `count` of a list, if it is enabled, and answers how many there are
/// then.
fn pick_one<A: Allocator>(
    machine: &Machine<A>,
    of: Move,
    enabled: &mut [Move],
    count: usize,
) -> usize
    requires { count < length enabled.old }
    ensures few { result ≤ count + 1 }
    ensures adds { AddsEnabled machine.now (of ∷ []) (take count enabled.old)
        (take result enabled.new) }
{
    if !machine.is_free(of) {
        return count;
    }
    enabled[count] = of;
    count + 1
}

/// Adds those of some moves that are enabled, in their order.
pub(crate) fn pick_moves<A: Allocator>(
    machine: &Machine<A>,
    moves: &[Move],
    enabled: &mut [Move],
    count: usize,
) -> usize
    requires { count + length moves.now ≤ length enabled.old }
    ensures few { result ≤ count + length moves.now }
    ensures adds { AddsEnabled machine.now moves.now (take count enabled.old)
        (take result enabled.new) }
{
    let mut picked = count;
    for k in 0..moves.len() {
        picked = pick_one(machine, moves[k], enabled, picked);
    }
    picked
}

/// Adds a choice behind the first `count` of a list, if its flag is up and it is enabled, and answers
/// how many there are then.
#[tactic(auto, using(crate::proofs::Lists::passes_one))]
fn pick_choice<A: Allocator>(
    machine: &Machine<A>,
    of: &Move,
    up: bool,
    enabled: &mut [Move],
    count: usize,
) -> usize
    requires room { count < length enabled.old }
    requires idle { up ≡ false → Prevents machine.now of.now }
    ensures few { result ≤ count + 1 }
    ensures adds { AddsEnabled machine.now (of.now ∷ []) (take count enabled.old)
        (take result enabled.new) }
{
    if up {
        return pick_one(machine, *of, enabled, count);
    }
    count
}

/// Adds those of some choices that are enabled, in their order: none whose flag is down.
fn pick_choices<A: Allocator>(
    machine: &Machine<A>,
    moves: &[Move],
    up: &[bool],
    enabled: &mut [Move],
    count: usize,
) -> usize
    requires room { count + length moves.now ≤ length enabled.old }
    requires many { length up.now ≡ length moves.now }
    requires idle { AreIdleWhereDown machine.now moves.now up.now }
    ensures few { result ≤ count + length moves.now }
    ensures adds { AddsEnabled machine.now moves.now (take count enabled.old)
        (take result enabled.new) }
{
    let mut picked = count;
    for k in 0..moves.len() {
        picked = pick_choice(machine, &moves[k], up[k], enabled, picked);
    }
    picked
}

/// Adds those of a group that are enabled, from the move whose turn it is.
fn pick_group<A: Allocator>(
    machine: &Machine<A>,
    group: &[Move],
    up: &[bool],
    turn: u64,
    enabled: &mut [Move],
    count: usize,
) -> usize
    requires room { count + length group.now ≤ length enabled.old }
    requires many { length up.now ≡ length group.now }
    requires idle { AreIdleWhereDown machine.now group.now up.now }
    ensures few { result ≤ count + length group.now }
    ensures adds { AddsEnabled machine.now (turned turn group.now) (take count enabled.old)
        (take result enabled.new) }
{
    if group.is_empty() {
        return count;
    }
    if turn == 0 {
        return pick_choices(machine, group, up, enabled, count);
    }
    let first = (turn % group.len() as u64) as usize;
    let picked = pick_choices(machine, &group[first..], &up[first..], enabled, count);
    pick_choices(machine, &group[..first], &up[..first], enabled, picked)
}

/// Adds those of some groups that are enabled, each from the move whose turn it is.
pub(crate) fn pick_groups<A: Allocator, B: Allocator>(
    machine: &Machine<A>,
    groups: &[Vec<Move, B>],
    up: &[bool],
    turn: u64,
    enabled: &mut [Move],
    count: usize,
) -> usize
    requires room { count + sum_by (λ group. length group.items) groups.now ≤ length enabled.old }
    requires many { length up.now ≡ length (choices_of groups.now) }
    requires idle { AreIdleWhereDown machine.now (choices_of groups.now) up.now }
    ensures few { result ≤ count + sum_by (λ group. length group.items) groups.now }
    ensures adds { AddsEnabled machine.now (turned_groups turn groups.now)
        (take count enabled.old) (take result enabled.new) }
{
    let mut picked = count;
    let mut from = 0;
    for k in 0..groups.len() {
        let end = from + groups[k].len();
        picked = pick_group(machine, &groups[k], &up[from..end], turn, enabled, picked);
        from = end;
    }
    picked
}
