//! A machine that goes on where another stands, and keeps a record where that one does.

ghost use Rattle.std.specs.Prelude.{◌≡◌, IfOk};
ghost use Rattle.machine_parts.specs.Machine.{shown};
ghost use Rattle.machine_asked.specs.Opened.{IsOpened};
ghost use Rattle.machine_record.specs.Calls.{RecordsAnew};

use crate::begun_without_scripts;
use crate::recorded::RecordedMachine;
use machine_asked::OpenedMachine;
use std::alloc::{AllocError, Allocator};

impl<A: Allocator + Copy> RecordedMachine<A> {
    /// A machine that goes on where this one stands, as `AskedMachine::reopened` makes it. It keeps a record of
    /// what is done to it from now on where this one keeps a record.
    ///
    /// Errors: out of memory.
    pub fn reopened(&self, alloc: A) -> Result<RecordedMachine<A>, AllocError>
        ensures opened { IfOk result (λ m. IsOpened self.now.asked.core.shape
            self.now.asked.core.depth self.now.asked.core.tags (shown self.now.asked.core).memory
            m.asked) }
        ensures kept { IfOk result (RecordsAnew self.now.kept) }
    {
        if self.kept.is_none() {
            return Ok(RecordedMachine::unrecorded(self.machine.reopened(alloc)?));
        }
        let opened = self.machine.reopened_with_text(alloc)?;
        let OpenedMachine { machine, text } = opened;
        Ok(RecordedMachine {
            machine,
            kept: Some(begun_without_scripts(alloc, text)),
        })
    }
}
