//! A record of what is done to a machine.

ghost use Rattle.std.specs.Prelude.{◌≡◌, [], IfOk};
ghost use Rattle.machine_record.specs.Recorded.{recording_of};
ghost use Rattle.machine_record.specs.Recording.{fresh_record};

use crate::row::LineRow;
use std::alloc::{AllocError, Allocator, Global};

/// A record: the two texts that a machine was loaded from, the lines that its processors were handed since,
/// and the numbers of what was done to it, in order.
#[derive(Drop)]
pub struct Record<A: Allocator = Global> {
    pub machine: Vec<u8, A>,
    pub scripts: Vec<u8, A>,
    pub rows: Vec<LineRow, A>,
    pub actions: Vec<u32, A>,
}

/// A record of two texts, before anything is done.
pub fn begun<A: Allocator + Copy>(
    alloc: A,
    machine: &[u8],
    scripts: &[u8],
) -> Result<Record<A>, AllocError>
    ensures { IfOk result (λ kept. recording_of kept ≡ fresh_record machine.now scripts.now) }
{
    Ok(Record {
        machine: Vec::from_slice(alloc, machine)?,
        scripts: Vec::from_slice(alloc, scripts)?,
        rows: Vec::new(alloc),
        actions: Vec::new(alloc),
    })
}

/// A copy of a record.
pub fn copied<A: Allocator + Copy, B: Allocator>(
    alloc: A,
    kept: &Record<B>,
) -> Result<Record<A>, AllocError>
    ensures { IfOk result (λ copy. recording_of copy ≡ recording_of kept.now) }
{
    Ok(Record {
        machine: Vec::from_slice(alloc, &kept.machine)?,
        scripts: Vec::from_slice(alloc, &kept.scripts)?,
        rows: Vec::from_slice(alloc, &kept.rows)?,
        actions: Vec::from_slice(alloc, &kept.actions)?,
    })
}

/// A record of a machine text, with no scripts, before anything is done.
pub fn begun_without_scripts<A: Allocator + Copy>(alloc: A, machine: Vec<u8, A>) -> Record<A>
    ensures { recording_of result ≡ fresh_record machine.items [] }
{
    Record {
        machine,
        scripts: Vec::new(alloc),
        rows: Vec::new(alloc),
        actions: Vec::new(alloc),
    }
}
