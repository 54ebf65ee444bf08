//! The bytes of a record.

ghost use Rattle.std.specs.Prelude.{◌≡◌, ◌++◌, ◌<◌, ◌^◌, All, IfOk, Ok, OnOk, flat_map, length};
ghost use Rattle.machine_record.specs.Bytes.{body_bytes, half_bytes, head_bytes, number_bytes, record_bytes, row_bytes};
ghost use Rattle.machine_record.specs.Reading.{record_in_bytes};
ghost use Rattle.machine_record.specs.Recorded.{recording_of};
ghost use Rattle.machine_record.specs.Widths.{HasLengths, HasWidths, IsHalf, IsRow};

use crate::checksum::checksum;
use crate::record::Record;
use crate::row::LineRow;
use std::alloc::{AllocError, Allocator};

/// The mark that a record begins with, the bytes `torusmem` read as a number.
pub(crate) const MARK: u64 = 7882827065441021812;

/// The version of the format, and that of records without a checksum.
pub(crate) const VERSION: u64 = 2;

pub(crate) const FIRST_VERSION: u64 = 1;

/// Puts a number of 8 bytes.
fn put_number<A: Allocator>(bytes: &mut Vec<u8, A>, number: u64) -> Result<(), AllocError>
    ensures put { OnOk result (bytes.new.items ≡ bytes.old.items ++ number_bytes number) }
    ensures fits { number < 2 ^ 64 }
{
    bytes.extend_from_slice(&number.to_le_bytes())
}

/// Puts a number of 4 bytes.
fn put_half<A: Allocator>(bytes: &mut Vec<u8, A>, number: u32) -> Result<(), AllocError>
    ensures put { OnOk result (bytes.new.items ≡ bytes.old.items ++ half_bytes number) }
    ensures fits { number < 2 ^ 32 }
{
    bytes.extend_from_slice(&number.to_le_bytes())
}

/// Puts the head of a record.
fn put_head<A: Allocator, B: Allocator>(
    bytes: &mut Vec<u8, A>,
    kept: &Record<B>,
) -> Result<(), AllocError>
    ensures put { OnOk result
        (bytes.new.items ≡ bytes.old.items ++ head_bytes (recording_of kept.now)) }
    ensures fit { OnOk result (HasLengths (recording_of kept.now)) }
{
    put_number(bytes, MARK)?;
    put_number(bytes, VERSION)?;
    put_number(bytes, kept.machine.len() as u64)?;
    put_number(bytes, kept.scripts.len() as u64)?;
    put_number(bytes, kept.rows.len() as u64)?;
    put_number(bytes, kept.actions.len() as u64)?;
    Ok(())
}

/// Puts a line.
fn put_row<A: Allocator>(bytes: &mut Vec<u8, A>, row: LineRow) -> Result<(), AllocError>
    ensures put { OnOk result (bytes.new.items ≡ bytes.old.items ++ row_bytes row) }
    ensures fits { OnOk result (IsRow row) }
{
    put_half(bytes, row.processor)?;
    put_half(bytes, row.operation)?;
    put_half(bytes, row.address)?;
    put_half(bytes, row.lasts)?;
    put_number(bytes, row.first)?;
    put_number(bytes, row.second)?;
    Ok(())
}

/// Puts lines.
fn put_rows<A: Allocator>(bytes: &mut Vec<u8, A>, rows: &[LineRow]) -> Result<(), AllocError>
    ensures put { OnOk result
        (bytes.new.items ≡ bytes.old.items ++ flat_map row_bytes rows.now) }
    ensures fit { OnOk result (All IsRow rows.now) }
{
    for row in rows {
        put_row(bytes, *row)?;
    }
    Ok(())
}

/// Puts actions.
fn put_actions<A: Allocator>(bytes: &mut Vec<u8, A>, actions: &[u32]) -> Result<(), AllocError>
    ensures put { OnOk result
        (bytes.new.items ≡ bytes.old.items ++ flat_map half_bytes actions.now) }
    ensures fit { OnOk result (All IsHalf actions.now) }
{
    for action in actions {
        put_half(bytes, *action)?;
    }
    Ok(())
}

/// What a record has before its checksum. Its numbers have their widths.
fn body_put<A: Allocator, B: Allocator>(
    alloc: A,
    kept: &Record<B>,
) -> Result<Vec<u8, A>, AllocError>
    ensures bytes { IfOk result (λ bytes. bytes.items ≡ body_bytes (recording_of kept.now)) }
    ensures fit { OnOk result (HasWidths (recording_of kept.now)) }
{
    let mut bytes = Vec::new(alloc);
    put_head(&mut bytes, kept)?;
    bytes.extend_from_slice(&kept.machine)?;
    bytes.extend_from_slice(&kept.scripts)?;
    put_rows(&mut bytes, &kept.rows)?;
    put_actions(&mut bytes, &kept.actions)?;
    Ok(bytes)
}

/// The bytes of a record (docs/FORMATS.md, "Record of a machine"). They are read back as the record.
pub fn bytes_of<A: Allocator, B: Allocator>(
    alloc: A,
    kept: &Record<B>,
) -> Result<Vec<u8, A>, AllocError>
    ensures bytes { IfOk result (λ bytes. bytes.items ≡ record_bytes (recording_of kept.now)) }
    ensures back { IfOk result (λ bytes. record_in_bytes bytes.items ≡ Ok (recording_of kept.now)) }
{
    let mut bytes = body_put(alloc, kept)?;
    let sum = checksum(&bytes);
    put_number(&mut bytes, sum)?;
    Ok(bytes)
}
