//! Scripts that grow: a further line, and reports that are taken back.

ghost use Rattle.std.specs.Prelude.{◌≡◌, ◌<◌, ◌≤◌, ◌+◌, ◌==◌, ℕ, true, length, OnOk, OnErr};
ghost use Rattle.script_lines.specs.Lines.{operations_of, mentions_last};
ghost use Rattle.one_order.specs.Following.{left_of};
ghost use Rattle.one_order.specs.ProcessorRecord.{ready};
ghost use Rattle.one_order.specs.ProcessorTable.{request_flits, processor_with, processor_open};
ghost use Rattle.net_interface.specs.Place.{with_state};

use crate::processor::Processor;
use crate::requests::request_flits;
use script_lines::Line;
use std::alloc::{AllocError, Allocator};

impl<A: Allocator> Processor<A> {
    /// Puts a line at the end of the script, with room for so many operations in all, at most 65536:
    /// those issued, those that the script still allows, and the line's. A spin has loads, and a
    /// `last` an operation before it. No other call takes memory.
    ///
    /// Errors: out of memory; then nothing has changed.
    pub fn append(&mut self, line: Line, room: usize) -> Result<(), AllocError>
        requires loads { (a v m : ℕ) → line ≡ Line.Spin a v m → 0 < m }
        requires last { mentions_last line ≡ true
            → 0 < length self.old.agent.state.operations.issued
            + left_of self.old.agent.state.operations.following }
        requires room { length self.old.agent.state.operations.issued
            + left_of self.old.agent.state.operations.following + operations_of line ≤ room }
        requires few { room ≤ 65536 }
        ensures appended { OnOk result
            (self.new ≡ with_state self.old (processor_with line self.old.agent.state)) }
        ensures same { OnErr result (self.new ≡ self.old) }
    {
        self.operations.append(line, room)?;
        if self.put == 0 {
            self.next = self.operations.ready();
            self.flits = request_flits(self.tiles, self.tile, self.next);
        }
        Ok(())
    }

    /// Takes back that the processor has reported, and seen that all have.
    pub fn reopen(&mut self)
        ensures { self.new ≡ with_state self.old (processor_open self.old.agent.state) }
    {
        self.reported = false;
        self.seen = false;
    }
}
