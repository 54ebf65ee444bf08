ghost use Rattle.std.specs.Prelude.{◌≡◌, IsTrue, true, false};
ghost use Rattle.std.specs.Borrow.{sem};
ghost use Rattle.std.specs.Global.{Global};
ghost use Rattle.trace_watch.specs.declared.watch.Watch.{Watch};
ghost use Rattle.c_handles.specs.Row.{watch_row};

use crate::kept::Kept;
use std::alloc::Global;
use std::marker::Model;

/// Room for one watch, which lies in a box of its own behind the pointer. Where it isn't full, the
/// pointer is any pointer, and is not looked at.
#[repr(C)]
pub struct Slot {
    full: bool,
    at: *mut (),
    ghost watch: { Watch Global } by { watch_row.coded },
}

impl Model for Slot {
    ghost use Rattle.c_handles.specs.Row.{watch_row, slot_owns};

    ghost also_owns = { λ s. slot_owns watch_row s.full s.at s.watch };
}

// The watch, the right to free its block and the heap may go to another thread, so it may.
unsafe impl Send for Slot {}

impl Slot {
    ghost use Rattle.c_handles.specs.HeldWatch.{LendsWatch};

    /// Whether there is a watch in it.
    #[inline(always)]
    pub fn is_full(&mut self) -> bool
        ensures answer { result ≡ self.old.full }
        ensures same { self.new ≡ self.old }
    {
        self.full
    }

    /// The watch in it, which stays where it lies.
    #[inline(always)]
    pub fn get_mut(&mut self) -> &mut Kept
        requires { IsTrue self.old.full }
        ensures* writes_back { sem 𝓛 (LendsWatch self.entry result) }
        ensures value { result.now ≡ self.old.watch }
    {
        unsafe { &mut *(self.at as *mut Kept) }
    }

    /// Puts a watch into it.
    pub fn put(&mut self, boxed: Box<Kept>)
        requires { self.old.full ≡ false }
        ensures full { IsTrue self.new.full }
        ensures watch { self.new.watch ≡ boxed.value }
    {
        self.at = Box::into_raw(boxed) as *mut ();
        self.full = true;
    }

    /// Takes the watch out of it.
    pub fn take(&mut self, alloc: Global) -> Box<Kept>
        requires { IsTrue self.old.full }
        ensures watch { result.value ≡ self.old.watch }
        ensures empty { self.new.full ≡ false }
    {
        self.full = false;
        unsafe { Box::from_raw(alloc, self.at as *mut Kept) }
    }
}
