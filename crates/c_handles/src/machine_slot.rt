ghost use Rattle.std.specs.Prelude.{◌≡◌, IsTrue, true, false};
ghost use Rattle.std.specs.Borrow.{sem};
ghost use Rattle.machine_record.specs.Machine.{Recorded};
ghost use Rattle.c_handles.specs.Row.{machine_row};

use machine_record::RecordedMachine;
use std::alloc::Global;
use std::marker::Model;

/// Room for one machine, which lies in a box of its own behind the pointer. Where it isn't full, the
/// pointer is any pointer, and is not looked at.
#[repr(C)]
pub struct Slot {
    full: bool,
    at: *mut (),
    ghost core: { Recorded } by { machine_row.coded },
}

impl Model for Slot {
    ghost use Rattle.c_handles.specs.Row.{machine_row, slot_owns};

    ghost also_owns = { λ s. slot_owns machine_row s.full s.at s.core };
}

// The machine, the right to free its block and the heap may go to another thread, so it may.
unsafe impl Send for Slot {}

impl Slot {
    ghost use Rattle.c_handles.specs.HeldMachine.{LendsMachine};

    /// Whether there is a machine in it.
    #[inline(always)]
    pub fn is_full(&mut self) -> bool
        ensures answer { result ≡ self.old.full }
        ensures same { self.new ≡ self.old }
    {
        self.full
    }

    /// The machine in it, which stays where it lies.
    #[inline(always)]
    pub fn get_mut(&mut self) -> &mut RecordedMachine
        requires { IsTrue self.old.full }
        ensures* writes_back { sem 𝓛 (LendsMachine self.entry result) }
        ensures value { result.now ≡ self.old.core }
    {
        unsafe { &mut *(self.at as *mut RecordedMachine) }
    }

    /// Puts a machine into it.
    pub fn put(&mut self, boxed: Box<RecordedMachine>)
        requires { self.old.full ≡ false }
        ensures full { IsTrue self.new.full }
        ensures core { self.new.core ≡ boxed.value }
    {
        self.at = Box::into_raw(boxed) as *mut ();
        self.full = true;
    }

    /// Takes the machine out of it.
    pub fn take(&mut self, alloc: Global) -> Box<RecordedMachine>
        requires { IsTrue self.old.full }
        ensures core { result.value ≡ self.old.core }
        ensures empty { self.new.full ≡ false }
    {
        self.full = false;
        unsafe { Box::from_raw(alloc, self.at as *mut RecordedMachine) }
    }
}
