//! The record that bytes are.

ghost use Rattle.std.specs.Prelude.{◌≡◌, ℕ, ◌+◌, ◌*◌, ◌≤◌, ◌⊎◌, IfOk, IfErr, Ok, Err, length};
ghost use Rattle.machine_record.specs.Reading.{actions_from, body_in_bytes, bytes_asked, half_in_bytes, is_sealed, number_in_bytes};
ghost use Rattle.machine_record.specs.Reading.{record_headed, record_in_bytes, record_sized, row_in_bytes, rows_from, unsealed};
ghost use Rattle.machine_record.specs.Recorded.{recording_of};

use crate::bytes::{FIRST_VERSION, MARK, VERSION};
use crate::checksum::checksum;
use crate::record::Record;
use crate::row::LineRow;
use std::alloc::{AllocError, Allocator};

/// Why bytes are no record.
#[derive(Clone, Copy)]
pub enum Unread {
    /// Memory was refused.
    Memory,
    /// What stands at this place is no record's.
    At(u64),
}

/// The number of 4 bytes that stands at a place.
fn half_at(bytes: &[u8], at: usize) -> u32
    requires { at + 4 ≤ length bytes.now }
    ensures { result ≡ half_in_bytes bytes.now at }
{
    u32::from_le_bytes([bytes[at], bytes[at + 1], bytes[at + 2], bytes[at + 3]])
}

/// The number of 8 bytes that stands at a place.
fn number_at(bytes: &[u8], at: usize) -> u64
    requires { at + 8 ≤ length bytes.now }
    ensures { result ≡ number_in_bytes bytes.now at }
{
    u64::from_le_bytes([
        bytes[at],
        bytes[at + 1],
        bytes[at + 2],
        bytes[at + 3],
        bytes[at + 4],
        bytes[at + 5],
        bytes[at + 6],
        bytes[at + 7],
    ])
}

/// The line that stands at a place.
fn row_at(bytes: &[u8], at: usize) -> LineRow
    requires { at + 32 ≤ length bytes.now }
    ensures { result ≡ row_in_bytes bytes.now at }
{
    LineRow {
        processor: half_at(bytes, at),
        operation: half_at(bytes, at + 4),
        address: half_at(bytes, at + 8),
        lasts: half_at(bytes, at + 12),
        first: number_at(bytes, at + 16),
        second: number_at(bytes, at + 24),
    }
}

/// So many lines from a place on.
fn rows_from<A: Allocator>(
    alloc: A,
    bytes: &[u8],
    at: usize,
    count: usize,
) -> Result<Vec<LineRow, A>, AllocError>
    requires { at + 32 * count ≤ length bytes.now }
    ensures { IfOk result (λ rows. rows.items ≡ rows_from bytes.now at count) }
{
    let mut rows = Vec::new(alloc);
    for index in 0..count {
        rows.push(row_at(bytes, at + 32 * index))?;
    }
    Ok(rows)
}

/// So many actions from a place on.
fn actions_from<A: Allocator>(
    alloc: A,
    bytes: &[u8],
    at: usize,
    count: usize,
) -> Result<Vec<u32, A>, AllocError>
    requires { at + 4 * count ≤ length bytes.now }
    ensures { IfOk result (λ actions. actions.items ≡ actions_from bytes.now at count) }
{
    let mut actions = Vec::new(alloc);
    for index in 0..count {
        actions.push(half_at(bytes, at + 4 * index))?;
    }
    Ok(actions)
}

/// How many bytes a record with such a head has.
fn bytes_asked(machine: u64, scripts: u64, rows: u64, actions: u64) -> u128
    ensures { result ≡ bytes_asked machine scripts rows actions }
{
    48 + u128::from(machine) + u128::from(scripts) + 32 * u128::from(rows) + 4 * u128::from(actions)
}

/// The record of bytes whose head says these lengths and numbers.
fn record_sized<A: Allocator + Copy>(
    alloc: A,
    bytes: &[u8],
    machine: usize,
    scripts: usize,
    rows: usize,
    actions: usize,
) -> Result<Record<A>, AllocError>
    requires { bytes_asked machine scripts rows actions ≤ length bytes.now }
    ensures { IfOk result (λ kept. recording_of kept ≡ record_sized bytes.now machine scripts rows actions) }
{
    let lines = 48 + machine + scripts;
    Ok(Record {
        machine: Vec::from_slice(alloc, &bytes[48..48 + machine])?,
        scripts: Vec::from_slice(alloc, &bytes[48 + machine..lines])?,
        rows: rows_from(alloc, bytes, lines, rows)?,
        actions: actions_from(alloc, bytes, lines + 32 * rows, actions)?,
    })
}

/// The record of bytes whose head says these lengths and numbers, where there are as many bytes as it says.
fn record_headed<A: Allocator + Copy>(
    alloc: A,
    bytes: &[u8],
    machine: u64,
    scripts: u64,
    rows: u64,
    actions: u64,
) -> Result<Record<A>, Unread>
    ensures ok { IfOk result
        (λ kept. record_headed bytes.now machine scripts rows actions ≡ Ok (recording_of kept)) }
    ensures err { IfErr result (λ why. (why ≡ Unread.Memory)
        ⊎ ((place : ℕ) × (why ≡ Unread.At place)
        × (record_headed bytes.now machine scripts rows actions ≡ Err place))) }
{
    let asked = bytes_asked(machine, scripts, rows, actions);
    let there = bytes.len() as u64;
    if asked != u128::from(there) {
        return Err(Unread::At(asked.min(u128::from(there)) as u64));
    }
    match record_sized(
        alloc,
        bytes,
        machine as usize,
        scripts as usize,
        rows as usize,
        actions as usize,
    ) {
        Ok(kept) => Ok(kept),
        Err(_) => Err(Unread::Memory),
    }
}

/// The record of bytes without a checksum, of this version.
///
/// Errors: out of memory; or the place of what is no record's.
fn body_of<A: Allocator + Copy>(alloc: A, bytes: &[u8], version: u64) -> Result<Record<A>, Unread>
    ensures ok { IfOk result (λ kept. body_in_bytes version bytes.now ≡ Ok (recording_of kept)) }
    ensures err { IfErr result (λ why. (why ≡ Unread.Memory)
        ⊎ ((place : ℕ) × (why ≡ Unread.At place) × (body_in_bytes version bytes.now ≡ Err place))) }
{
    if bytes.len() < 48 {
        return Err(Unread::At(bytes.len() as u64));
    }
    if number_at(bytes, 0) != MARK {
        return Err(Unread::At(0));
    }
    if number_at(bytes, 8) != version {
        return Err(Unread::At(8));
    }
    record_headed(
        alloc,
        bytes,
        number_at(bytes, 16),
        number_at(bytes, 24),
        number_at(bytes, 32),
        number_at(bytes, 40),
    )
}

/// Whether bytes say that a checksum stands behind them.
fn is_sealed(bytes: &[u8]) -> bool
    ensures { result ≡ is_sealed bytes.now }
{
    bytes.len() >= 16 && number_at(bytes, 8) == VERSION
}

/// The record of bytes, of which the last eight, from a place on, are the checksum of those before them.
///
/// Errors: out of memory; or the place of what is no record's: that one, where they are another number.
fn unsealed<A: Allocator + Copy>(alloc: A, bytes: &[u8], at: usize) -> Result<Record<A>, Unread>
    requires { at + 8 ≤ length bytes.now }
    ensures ok { IfOk result (λ kept. unsealed bytes.now at ≡ Ok (recording_of kept)) }
    ensures err { IfErr result (λ why. (why ≡ Unread.Memory)
        ⊎ ((place : ℕ) × (why ≡ Unread.At place) × (unsealed bytes.now at ≡ Err place))) }
{
    let body = &bytes[..at];
    if number_at(bytes, at) != checksum(body) {
        return Err(Unread::At(at as u64));
    }
    body_of(alloc, body, VERSION)
}

/// The record that bytes are, with a checksum or of the first version.
///
/// Errors: out of memory; or the place of what is no record's.
pub fn record_of<A: Allocator + Copy>(alloc: A, bytes: &[u8]) -> Result<Record<A>, Unread>
    ensures ok { IfOk result (λ kept. record_in_bytes bytes.now ≡ Ok (recording_of kept)) }
    ensures err { IfErr result (λ why. (why ≡ Unread.Memory)
        ⊎ ((place : ℕ) × (why ≡ Unread.At place) × (record_in_bytes bytes.now ≡ Err place))) }
{
    if is_sealed(bytes) {
        unsealed(alloc, bytes, bytes.len() - 8)
    } else {
        body_of(alloc, bytes, FIRST_VERSION)
    }
}
