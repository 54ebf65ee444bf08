ghost use Rattle.std.specs.Prelude.{◌≡◌, ◌↔◌, Some, None, IsSome, IsTrue, MatchOption, IfErr, IfOk};
ghost use Rattle.std.specs.Borrow.{sem};
ghost use Rattle.c_handles.specs.HeldMachine.{held, held_whole, LendsHeld};

use crate::machine_slot::Slot;
use machine_record::RecordedMachine;
use std::alloc::{AllocError, Global};

/// What a C program holds a machine by, as `struct { bool full; void *at; }`: the heap's handle takes
/// no bytes. All zero bytes hold nothing. The program may move the bytes, but not double or change them.
#[repr(C)]
pub struct MachineHandle {
    slot: Slot,
    alloc: Global,
}

impl MachineHandle {
    /// The machine that it holds, to look at and to change, or `None` where it holds none.
    #[inline(always)]
    pub fn machine(&mut self) -> Option<&mut RecordedMachine>
        ensures* writes_back { sem 𝓛 (LendsHeld self.entry result) }
        ensures value { MatchOption result (held self.old ≡ None)
            (λ m. held self.old ≡ Some m.now.asked) }
        ensures whole { MatchOption result (held_whole self.old ≡ None)
            (λ m. held_whole self.old ≡ Some m.now) }
    {
        if self.slot.is_full() {
            Some(self.slot.get_mut())
        } else {
            None
        }
    }

    /// Whether it holds a machine.
    #[inline(always)]
    pub fn is_full(&mut self) -> bool
        ensures answer { IsTrue result ↔ IsSome (held self.old) }
        ensures same { self.new ≡ self.old }
    {
        self.slot.is_full()
    }

    /// Holds a machine from now on, where it held none (`is_full` tells).
    ///
    /// Errors: out of memory. The machine is then dropped, and the handle is as it was.
    pub fn hold(&mut self, machine: RecordedMachine) -> Result<(), AllocError>
        requires { held self.old ≡ None }
        ensures held { IfOk result (λ _. held self.new ≡ Some machine.asked) }
        ensures whole { IfOk result (λ _. held_whole self.new ≡ Some machine) }
        ensures unchanged { IfErr result (λ _. self.new ≡ self.old) }
    {
        match Box::new(self.alloc, machine) {
            Ok(boxed) => {
                self.slot.put(boxed);
                Ok(())
            }
            Err(_) => Err(AllocError),
        }
    }

    /// Lets go of the machine, if it holds one: all its memory goes back to the heap.
    pub fn release(&mut self)
        ensures { held self.new ≡ None }
    {
        if self.slot.is_full() {
            drop(self.slot.take(self.alloc));
        }
    }
}
