//! Another watch that has seen what one has, as C sees it.

ghost use Rattle.std.specs.Prelude.{◌≡◌, None};
ghost use Rattle.c_handles.specs.HeldWatch.{held};
ghost use Rattle.torusmem_c.specs.WatchCloning.{ClonesWatch, CopiesTo};

use crate::outcome::{Code, Outcome, no_memory};
use c_handles::{Kept, WatchHandle};
use std::alloc::Global;

/// Holds another watch, which has seen what this one has, in an empty handle.
fn copied(alloc: Global, watch: &Kept, fresh: &mut WatchHandle) -> Outcome
    requires { held fresh.old ≡ None }
    ensures { CopiesTo watch.now (held fresh.new) result }
{
    match watch.copied(alloc) {
        Ok(copy) => match fresh.hold(copy) {
            Ok(()) => Outcome::done(0),
            Err(_) => no_memory(),
        },
        Err(_) => no_memory(),
    }
}

/// Makes another watch, in another, empty handle, which knows of the trace what this one knows. The two share
/// nothing.
///
/// Errors: the other handle holds a watch, or this one holds none; or out of memory. Both handles hold what
/// they held then.
#[unsafe(no_mangle)]
pub extern "C" fn torusmem_watch_clone(
    alloc: Global,
    handle: &mut WatchHandle,
    fresh: &mut WatchHandle,
) -> Outcome
    ensures { ClonesWatch (held handle.old) (held handle.new) (held fresh.old) (held fresh.new) result }
{
    if let Some(_held) = fresh.watch() {
        return Outcome::of(Code::Full, 0);
    }
    match handle.watch() {
        Some(watch) => copied(alloc, watch, fresh),
        None => Outcome::empty(),
    }
}
