ghost use Rattle.std.specs.Prelude.{◌≡◌, ◌↔◌, Some, None, IsSome, IsTrue, MatchOption, IfErr, IfOk};
ghost use Rattle.std.specs.Borrow.{sem};
ghost use Rattle.c_handles.specs.HeldWatch.{held, LendsHeldWatch};

use crate::kept::Kept;
use crate::watch_slot::Slot;
use std::alloc::{AllocError, Global};
use trace_watch::Watch;

/// What a C program holds a watch by, as `struct { bool full; void *at; }`: the heap's handle takes
/// no bytes. All zero bytes hold nothing. The program may move the bytes, but not double or change them.
#[repr(C)]
pub struct WatchHandle {
    slot: Slot,
    alloc: Global,
}

impl WatchHandle {
    /// The watch that it holds, to look at and to change, or `None` where it holds none.
    #[inline(always)]
    pub fn watch(&mut self) -> Option<&mut Kept>
        ensures* writes_back { sem 𝓛 (LendsHeldWatch self.entry result) }
        ensures value { MatchOption result (held self.old ≡ None)
            (λ m. held self.old ≡ Some m.now) }
    {
        if self.slot.is_full() {
            Some(self.slot.get_mut())
        } else {
            None
        }
    }

    /// Whether it holds a watch.
    #[inline(always)]
    pub fn is_full(&mut self) -> bool
        ensures answer { IsTrue result ↔ IsSome (held self.old) }
        ensures same { self.new ≡ self.old }
    {
        self.slot.is_full()
    }

    /// Holds a watch from now on, where it held none (`is_full` tells).
    ///
    /// Errors: out of memory. The watch is then dropped, and the handle is as it was.
    pub fn hold(&mut self, watch: Watch<Global>) -> Result<(), AllocError>
        requires { held self.old ≡ None }
        ensures held { IfOk result (λ _. held self.new ≡ Some watch) }
        ensures unchanged { IfErr result (λ _. self.new ≡ self.old) }
    {
        match Box::new(self.alloc, Kept::of(watch)) {
            Ok(boxed) => {
                self.slot.put(boxed);
                Ok(())
            }
            Err(_) => Err(AllocError),
        }
    }

    /// Lets go of the watch, if it holds one: all its memory goes back to the heap.
    pub fn release(&mut self)
        ensures { held self.new ≡ None }
    {
        if self.slot.is_full() {
            drop(self.slot.take(self.alloc));
        }
    }
}
