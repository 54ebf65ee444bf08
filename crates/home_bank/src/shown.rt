//! What the bank of a tile shows, and its room for entries.

ghost use Rattle.std.specs.Prelude.{◌≡◌, ◌<◌, ◌≤◌, ◌↔◌, length, IsTrue, ◌+◌, ◌-◌, OnOk, OnErr};
ghost use Rattle.home_bank.specs.BankAgent.{place_with_room};

use crate::Entry;
use crate::bank_agent::BankAgent;
use std::alloc::{AllocError, Allocator};

impl<A: Allocator> BankAgent<A> {
    /// The tile whose bank it is.
    pub fn tile(&self) -> u32
        ensures { result ≡ self.now.tile }
    {
        self.services.tile()
    }

    /// The entries of its service list, in the order of the services.
    pub fn entries(&self) -> &[Entry]
        ensures { result.now ≡ self.now.agent.state.entries }
    {
        self.services.entries()
    }

    /// Whether there is room for no further entry.
    pub fn is_full(&self) -> bool
        ensures full { IsTrue result ↔ (length self.now.agent.state.entries ≡ self.now.room) }
        ensures within { length self.now.agent.state.entries ≤ self.now.room }
    {
        self.services.is_full()
    }

    /// For how many entries there is room.
    pub fn room(&self) -> usize
        ensures { result ≡ self.now.room }
    {
        self.services.room()
    }

    /// Makes room for so many entries more, at most 65536 in all. No other call takes memory.
    ///
    /// Errors: out of memory; then nothing has changed.
    pub fn reserve(&mut self, more: usize) -> Result<(), AllocError>
        requires { self.old.room + more ≤ 65536 }
        ensures room { OnOk result (self.new ≡ place_with_room self.old (self.old.room + more)) }
        ensures same { OnErr result (self.new ≡ self.old) }
    {
        self.services.reserve(more)
    }

    /// Gives up the room for so many entries, which no entry has taken.
    pub fn release(&mut self, fewer: usize)
        requires { length self.old.agent.state.entries + fewer ≤ self.old.room }
        ensures { self.new ≡ place_with_room self.old (self.old.room - fewer) }
    {
        self.services.release(fewer);
    }
}
