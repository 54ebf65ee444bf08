//! A watch as bytes, and the watch that bytes make.

ghost use Rattle.std.specs.Prelude.{◌≡◌, IfErr, IfOk, MatchOption, false, true};
ghost use Rattle.trace_watch.specs.Watched.{watched};
ghost use Rattle.machine_record.specs.Bytes.{record_bytes};
ghost use Rattle.machine_record.specs.Recorded.{recording_of};
ghost use Rattle.c_handles.specs.WatchRows.{IsSavedWatch, watch_recording};
ghost use Rattle.c_handles.specs.WatchSaved.{HasNoWatch, IsRestoredWatch, IsUnreadWatch};

use crate::watch_reading::watch_in;
use crate::watch_rows::rows_of;
use machine_record::{Record, Unread, bytes_of, record_of};
use std::alloc::{AllocError, Allocator};
use trace_watch::Watch;

/// The place behind the head of a record.
const HEAD: u64 = 48;

/// The record that has a watch.
fn record_of_watch<A: Allocator + Copy>(alloc: A, watch: &Watch<A>) -> Result<Record<A>, AllocError>
    ensures { IfOk result (λ kept. recording_of kept ≡ watch_recording (watched watch.now)) }
{
    Ok(Record {
        machine: Vec::from_slice(alloc, b"watch")?,
        scripts: Vec::new(alloc),
        rows: rows_of(alloc, watch)?,
        actions: Vec::new(alloc),
    })
}

/// The bytes of a watch (docs/FORMATS.md, "Record of a machine"): as many as its words, its open operations and
/// its configurations ask for, however long the trace is.
///
/// Errors: out of memory.
pub fn bytes_of_watch<A: Allocator + Copy>(
    alloc: A,
    watch: &Watch<A>,
) -> Result<Vec<u8, A>, AllocError>
    ensures { IfOk result (λ bytes. IsSavedWatch bytes.items (watched watch.now)) }
{
    let kept = record_of_watch(alloc, watch)?;
    let bytes = bytes_of(alloc, &kept)?;
    Ok(bytes)
}

/// Whether bytes are the ones of another list.
fn are_same(one: &[u8], other: &[u8]) -> bool
    ensures yes { result ≡ true → one.now ≡ other.now }
    ensures no { result ≡ false → one.now ≡ other.now → ⊥ }
{
    one == other
}

/// Whether bytes are those of a watch.
fn are_of<A: Allocator + Copy>(alloc: A, watch: &Watch<A>, bytes: &[u8]) -> Result<bool, AllocError>
    ensures yes { IfOk result (λ said. said ≡ true → IsSavedWatch bytes.now (watched watch.now)) }
    ensures no { IfOk result (λ said. said ≡ false
        → record_bytes (watch_recording (watched watch.now)) ≡ bytes.now → ⊥) }
{
    let again = bytes_of_watch(alloc, watch)?;
    Ok(are_same(&again, bytes))
}

/// The watch of a record's rows, if these bytes of the record are its own.
fn watch_of_record<A: Allocator + Copy>(
    alloc: A,
    kept: &Record<A>,
    bytes: &[u8],
) -> Result<Option<Watch<A>>, AllocError>
    ensures { IfOk result (λ found. MatchOption found (HasNoWatch (recording_of kept.now) bytes.now)
        (λ watch. IsSavedWatch bytes.now (watched watch))) }
{
    let watch = watch_in(alloc, &kept.rows)?;
    if are_of(alloc, &watch, bytes)? {
        Ok(Some(watch))
    } else {
        Ok(None)
    }
}

/// The watch that bytes make: it answers every later event as the one does that was saved as these bytes.
///
/// Errors: out of memory; or the place of what is no record's, or that behind the head of a record that has no
/// watch.
pub fn watch_of_bytes<A: Allocator + Copy>(alloc: A, bytes: &[u8]) -> Result<Watch<A>, Unread>
    ensures ok { IfOk result (IsRestoredWatch bytes.now) }
    ensures err { IfErr result (IsUnreadWatch bytes.now) }
{
    let kept = record_of(alloc, bytes)?;
    match watch_of_record(alloc, &kept, bytes) {
        Ok(Some(watch)) => Ok(watch),
        Ok(None) => Err(Unread::At(HEAD)),
        Err(_) => Err(Unread::Memory),
    }
}
