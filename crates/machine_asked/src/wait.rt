//! Rounds until an operation is answered.

ghost use Rattle.std.specs.Prelude.{◌≡◌};
ghost use Rattle.machine_parts.specs.Machine.{RunsOn, core_after};
ghost use Rattle.machine_core.specs.Rounds.{rounds_of};
ghost use Rattle.machine_asked.specs.Asked.{NeedsToWait, is_settled};

use crate::asked::AskedMachine;
use std::alloc::Allocator;

impl<A: Allocator> AskedMachine<A> {
    /// Whether nobody has to wait for an operation: it is answered, or every script is finished.
    fn is_settled(&self, processor: u32, index: u32) -> bool
        ensures { result ≡ is_settled self.now.core processor index }
    {
        self.answer_to(processor, index).is_some() || self.machine.finished()
    }

    /// Makes rounds until the operation of a processor that has this index is answered, or every script is
    /// finished, and answers how many: the least number that does.
    pub fn wait(&mut self, processor: u32, index: u32) -> u64
        ensures state { self.new.core
            ≡ core_after self.old.core (rounds_of self.old.core.shape result) }
        ensures needed { NeedsToWait self.old.core processor index result }
        ensures runs_on { RunsOn self.old.core self.new.core
            (rounds_of self.old.core.shape result) }
        ensures spins { self.new.spins ≡ self.old.spins }
        ensures guard { self.new.guard ≡ self.old.guard }
    {
        self.reached();
        let mut rounds = 0;
        while !self.is_settled(processor, index) {
            self.round();
            rounds += 1;
        }
        rounds
    }
}
