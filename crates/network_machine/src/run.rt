//! Runs: moves that are made one after the other.

ghost use Rattle.std.specs.Prelude.{◌≡◌, ◌<◌, length, slice_index_or, OnOk, IfErr};
ghost use Rattle.network_machine.specs.declared.moves.Move.{Move};
ghost use Rattle.network_machine.specs.Machine.{SameTables};
ghost use Rattle.network_machine.specs.Runs.{RunsTo, StopsAt};

use crate::machine::Machine;
use crate::moves::{Hindrance, Move};
use std::alloc::Allocator;

/// The move at a place.
fn move_at(moves: &[Move], place: usize) -> Move
    requires { place < length moves.now }
    ensures { (d : Move) → result ≡ slice_index_or moves.now place d }
{
    moves[place]
}

impl<'a, A: Allocator> Machine<'a, A> {
    /// Makes moves one after the other, up to the first that may not be made.
    ///
    /// Errors: the place of that move, from 0, and why it may not be made.
    pub fn replay(&mut self, moves: &[Move]) -> Result<(), (usize, Hindrance)>
        ensures runs { OnOk result (RunsTo self.old self.new moves.now) }
        ensures stops { IfErr result (λ p. StopsAt self.old self.new moves.now p.0) }
        ensures same { SameTables self.old self.new }
    {
        for place in 0..moves.len() {
            if let Err(hindrance) = self.attempt(move_at(moves, place)) {
                return Err((place, hindrance));
            }
        }
        Ok(())
    }
}
