//! What grows in a tile: the room of its bank and the script of its processor.

ghost use Rattle.std.specs.Prelude.{◌≡◌, ◌<◌, ◌≤◌, ◌+◌, ◌-◌, ℕ, true, length, OnOk, OnErr};
ghost use Rattle.script_lines.specs.Lines.{operations_of, mentions_last};
ghost use Rattle.one_order.specs.Following.{left_of};
ghost use Rattle.one_order.specs.ProcessorTable.{processor_with, processor_open};
ghost use Rattle.tile.specs.Placed.{with_room, with_processor};

use crate::agents::TileAgents;
use script_lines::Line;
use std::alloc::{AllocError, Allocator};

impl<A: Allocator> TileAgents<A> {
    /// Makes room for so many entries of the bank more, at most 65536 in all.
    ///
    /// Errors: out of memory; then nothing has changed.
    pub fn reserve(&mut self, more: usize) -> Result<(), AllocError>
        requires { self.old.room + more ≤ 65536 }
        ensures room { OnOk result (self.new ≡ with_room self.old (self.old.room + more)) }
        ensures same { OnErr result (self.new ≡ self.old) }
    {
        self.bank.reserve(more)
    }

    /// Gives up the room for so many entries of the bank, which no entry has taken.
    pub fn release(&mut self, fewer: usize)
        requires { length self.old.place.bank.state.entries + fewer ≤ self.old.room }
        ensures { self.new ≡ with_room self.old (self.old.room - fewer) }
    {
        self.bank.release(fewer);
    }

    /// Puts a line at the end of the processor's script, with room for so many operations in all, at
    /// most 65536: those issued, those that the script still allows, and the line's. A spin has loads,
    /// and a `last` an operation before it.
    ///
    /// Errors: out of memory; then nothing has changed.
    pub fn append(&mut self, line: Line, room: usize) -> Result<(), AllocError>
        requires loads { (a v m : ℕ) → line ≡ Line.Spin a v m → 0 < m }
        requires last { mentions_last line ≡ true
            → 0 < length self.old.place.processor.state.operations.issued
            + left_of self.old.place.processor.state.operations.following }
        requires room { length self.old.place.processor.state.operations.issued
            + left_of self.old.place.processor.state.operations.following + operations_of line
            ≤ room }
        requires few { room ≤ 65536 }
        ensures appended { OnOk result (self.new
            ≡ with_processor self.old (processor_with line self.old.place.processor.state)) }
        ensures same { OnErr result (self.new ≡ self.old) }
    {
        self.processor.append(line, room)
    }

    /// Takes back that the processor has reported, and seen that all have.
    pub fn reopen(&mut self)
        ensures { self.new
            ≡ with_processor self.old (processor_open self.old.place.processor.state) }
    {
        self.processor.reopen();
    }
}
