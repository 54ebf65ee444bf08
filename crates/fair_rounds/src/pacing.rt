//! The rounds of a run, one after the other: in order, clocked by turns, or fair.

ghost use Rattle.std.specs.Prelude.{◌≡◌};
ghost use Rattle.machine_parts.specs.Machine.{RunsOn, core_after};
ghost use Rattle.fair_rounds.specs.Paces.{first_guard, paced_attempts, paced_guard};

use crate::guard::Guard;
use machine_core::Machine;
use std::alloc::Allocator;

/// How rounds are made.
#[derive(Clone, Copy)]
pub enum Pace {
    /// In order: each choice of each agent is attempted once.
    InOrder,
    /// Clocked, where the puts of each router begin at the input whose turn it is.
    Turned,
    /// Fair, with a guard of so many rounds, or with the usual one.
    Fair(Option<u64>),
}

/// Makes the rounds of a pace, one after the other.
#[derive(Drop)]
pub struct Pacer {
    pub pace: Pace,
    pub guard: Guard,
}

impl Pacer {
    /// Before the first round of a machine.
    pub fn new<A: Allocator>(pace: Pace, machine: &Machine<A>) -> Pacer
        ensures { result ≡ record { pace = pace; guard = first_guard pace machine.now } }
    {
        let guard = match pace {
            Pace::Fair(Some(most)) => Guard::new(most),
            Pace::Fair(None) => Guard::of(machine),
            Pace::InOrder => Guard::of(machine),
            Pace::Turned => Guard::of(machine),
        };
        Pacer { pace, guard }
    }

    /// Makes the round of a machine that is behind so many.
    pub fn round<A: Allocator>(&mut self, machine: &mut Machine<A>, before: u64)
        ensures pacer { self.new ≡ record {
          pace = self.old.pace;
          guard = paced_guard self.old.pace self.old.guard machine.old;
        } }
        ensures state { machine.new
            ≡ core_after machine.old
            (paced_attempts self.old.pace self.old.guard machine.old before) }
        ensures runs_on { RunsOn machine.old machine.new
            (paced_attempts self.old.pace self.old.guard machine.old before) }
    {
        match self.pace {
            Pace::InOrder => machine.round(),
            Pace::Turned => machine.clocked_round(before),
            Pace::Fair(_) => {
                self.guard.round(machine);
            }
        }
    }
}
