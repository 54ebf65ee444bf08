//! A watch as bytes, and the watch that bytes make, as C sees it.

ghost use Rattle.std.specs.Prelude.{◌≡◌, ◌⊎◌, None};
ghost use Rattle.trace_watch.specs.Watched.{watched};
ghost use Rattle.c_handles.specs.HeldWatch.{held};
ghost use Rattle.torusmem_c.specs.Room.{LacksMemory};
ghost use Rattle.torusmem_c.specs.WatchSaving.{PutsWatch, RestoresToWatch, RestoresWatch, SavesWatch};
ghost use Rattle.torusmem_c.specs.WatchSaving.{next_number, unread_outcome};

use crate::outcome::{Code, Outcome, no_memory};
use crate::room::put_over;
use c_handles::{Kept, WatchHandle, watch_of_bytes};
use machine_record::Unread;
use std::alloc::Global;

/// Puts the bytes of a watch into a buffer, unless memory is refused.
fn put_saved(alloc: Global, watch: &Kept, out: &mut [u8]) -> Outcome
    ensures { PutsWatch (watched watch.now) out.old out.new result
        ⊎ LacksMemory out.old out.new result }
{
    match watch.saved(alloc) {
        Ok(bytes) => put_over(bytes.as_slice(), out),
        Err(_) => no_memory(),
    }
}

/// Puts the bytes of the handle's watch into a buffer. They make a watch that goes on as this one does.
///
/// Errors: the handle holds no watch; the buffer is too short; or out of memory. The buffer is as it was then.
#[unsafe(no_mangle)]
pub extern "C" fn torusmem_watch_save(
    alloc: Global,
    handle: &mut WatchHandle,
    out: &mut [u8],
) -> Outcome
    ensures { SavesWatch out.old out.new (held handle.old) (held handle.new) result }
{
    match handle.watch() {
        Some(watch) => put_saved(alloc, watch, out),
        None => Outcome::empty(),
    }
}

/// Why bytes make no watch, as C sees it.
fn unread_outcome(why: Unread) -> Outcome
    ensures { result ≡ unread_outcome why }
{
    match why {
        Unread::Memory => no_memory(),
        Unread::At(place) => Outcome::of(Code::BadRecord, place),
    }
}

/// The lowest number that is free for an operation behind the newest one; the highest of all where none is free.
fn next_number(last: Option<u64>) -> u64
    ensures { result ≡ next_number last }
{
    match last {
        None => 0,
        Some(number) => number.saturating_add(1),
    }
}

/// Holds the watch that bytes make in an empty handle.
fn restored(alloc: Global, handle: &mut WatchHandle, bytes: &[u8]) -> Outcome
    requires { held handle.old ≡ None }
    ensures { RestoresToWatch bytes.now (held handle.new) result }
{
    match watch_of_bytes(alloc, bytes) {
        Ok(watch) => {
            let next = next_number(watch.last);
            match handle.hold(watch) {
                Ok(()) => Outcome::done(next),
                Err(_) => no_memory(),
            }
        }
        Err(why) => unread_outcome(why),
    }
}

/// Makes the watch of bytes in an empty handle: it knows of the trace what the watch knew that was saved as
/// these bytes. Answers the lowest number that is free for its next operation.
///
/// Errors: the handle holds a watch; the place of the first byte that is no record's, or that behind the head of
/// a record that has no watch; or out of memory. The handle holds what it held then.
#[unsafe(no_mangle)]
pub extern "C" fn torusmem_watch_restore(
    alloc: Global,
    handle: &mut WatchHandle,
    bytes: &[u8],
) -> Outcome
    ensures { RestoresWatch bytes.now (held handle.old) (held handle.new) result }
{
    if let Some(_held) = handle.watch() {
        return Outcome::of(Code::Full, 0);
    }
    restored(alloc, handle, bytes)
}
