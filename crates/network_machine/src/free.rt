//! Whether a move may be made, without why it may not.

ghost use Rattle.std.specs.Prelude.{◌≡◌, ◌<◌, length, true, false};
ghost use Rattle.network_judge.specs.Verdicts.{AllArrive};
ghost use Rattle.network_machine.specs.Lets.{LetsMoves, is_let};
ghost use Rattle.network_machine.specs.declared.moves.Move.{Move};
ghost use Rattle.network_machine.specs.Moves.{move_channel};
ghost use Rattle.network_machine.specs.Machine.{Permits, Prevents, IsInReach, IsKept};

use crate::channel::Channel;
use crate::machine::Machine;
use crate::moves::Move;
use std::alloc::Allocator;

/// Which kinds of moves of a channel may be possible, by the state of that channel alone.
#[derive(Clone, Copy)]
pub struct Lets {
    /// Its sender goes on with a packet.
    pub more: bool,
    /// The router behind it takes a flit.
    pub take: bool,
    /// The router behind it puts a flit.
    pub put: bool,
    /// Its receiver takes a flit.
    pub accept: bool,
    /// A credit of it comes back.
    pub credit: bool,
}

/// Which kinds of moves of a channel may be possible, by the state of that channel alone.
fn lets_of(channel: &Channel) -> Lets
    ensures { LetsMoves channel.now result }
{
    let has_flits = !channel.flits.is_empty();
    Lets {
        more: channel.left > 0 && channel.held > 0,
        take: channel.latch.is_none() && has_flits,
        put: channel.latch.is_some(),
        accept: has_flits,
        credit: channel.returning > 0,
    }
}

impl<'a, A: Allocator> Machine<'a, A> {
    /// Which kinds of moves of a channel may be possible, by the state of that channel alone: a move of any
    /// other kind can't be made.
    pub fn lets(&self, x: usize) -> Lets
        requires { x < length self.now.channels }
        ensures { (of : Move) → move_channel of ≡ x → is_let result of ≡ false
            → IsKept self.now of }
    {
        lets_of(&self.channels[x])
    }

    /// Whether an event makes a move.
    pub fn is_free(&self, of: Move) -> bool
        ensures yes { result ≡ true → Permits self.now of }
        ensures no { result ≡ false → Prevents self.now of }
        ensures reach { result ≡ true → IsInReach self.now of }
        ensures arrive { AllArrive self.now.table }
    {
        match self.hindrance(of) {
            None => true,
            Some(_) => false,
        }
    }
}
