//! The attempts of a round.

ghost use Rattle.std.specs.Prelude.{◌≡◌, ◌+◌, ◌<◌, ◌≤◌, ◌∷◌, [], List, length, take};
ghost use Rattle.network_machine.specs.Machine.{SameTables};
ghost use Rattle.network_machine.specs.declared.moves.Move.{Move};
ghost use Rattle.network_rounds.specs.Attempts.{AddsMade};
ghost use Rattle.network_rounds.specs.Arbiters.{AreGrants};
ghost use Rattle.network_rounds.specs.Flags.{AreFlags};

use crate::arbiter::{Attempt, Grants};
use crate::flags::Flags;
use network_machine::{Machine, Move};
use std::alloc::Allocator;

/// Attempts a choice, adds it behind the first `count` of a list if it is made, and answers how many
/// there are then.
fn attempt_one<A: Allocator, B: Allocator>(
    machine: &mut Machine<A>,
    flags: &mut Flags<B>,
    grants: &mut Grants<B>,
    attempt: Attempt,
    made: &mut [Move],
    count: usize,
) -> usize
    requires room { count < length made.old }
    requires channels { length flags.old.places.items ≡ length machine.old.channels }
    requires grants { AreGrants machine.old grants.old }
    ensures few { result ≤ count + 1 }
    ensures adds { AddsMade machine.old machine.new grants.old.lasts.items grants.new.lasts.items
        (attempt ∷ []) (take count made.old) (take result made.new) }
    ensures same { SameTables machine.old machine.new }
    ensures channels { length flags.new.places.items ≡ length machine.new.channels }
    ensures grants { AreGrants machine.new grants.new }
    ensures flags { (choices : List Move) → AreFlags machine.old choices flags.old
        → AreFlags machine.new choices flags.new }
{
    let of = attempt.of;
    let Some(y) = machine.try_move(of) else {
        return count;
    };
    grants.note(attempt);
    let x = of.channel();
    flags.tell_channel(machine, x);
    if y != x {
        flags.tell_channel(machine, y);
    }
    made[count] = of;
    count + 1
}

/// Attempts some choices, in their order, writes those that are made, and answers how many these are.
pub(crate) fn attempt_moves<A: Allocator, B: Allocator>(
    machine: &mut Machine<A>,
    flags: &mut Flags<B>,
    grants: &mut Grants<B>,
    attempts: &[Attempt],
    made: &mut [Move],
) -> usize
    requires room { length attempts.now ≤ length made.old }
    requires channels { length flags.old.places.items ≡ length machine.old.channels }
    requires grants { AreGrants machine.old grants.old }
    ensures few { result ≤ length attempts.now }
    ensures adds { AddsMade machine.old machine.new grants.old.lasts.items grants.new.lasts.items
        attempts.now [] (take result made.new) }
    ensures same { SameTables machine.old machine.new }
    ensures channels { length flags.new.places.items ≡ length machine.new.channels }
    ensures grants { AreGrants machine.new grants.new }
    ensures flags { (choices : List Move) → AreFlags machine.old choices flags.old
        → AreFlags machine.new choices flags.new }
{
    let mut count = 0;
    for k in 0..attempts.len() {
        count = attempt_one(machine, flags, grants, attempts[k], made, count);
    }
    count
}
