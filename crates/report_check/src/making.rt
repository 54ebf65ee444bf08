//! What is kept before the first line, and behind the shape.

ghost use Rattle.std.specs.Prelude.{◌≡◌, ◌≤◌, ℕ, IfOk, [], false, replicate, slice_index_or};
ghost use Rattle.std.specs.Prelude.{vec_len};
ghost use Rattle.report_check.specs.Seen.{nothing_seen, shaped_seen};
ghost use Rattle.report_check.specs.Shows.{KeepsSeen, bank_of};

use crate::checker::{Checker, EVENTS, Served};
use std::alloc::{AllocError, Allocator};

/// So many banks without an entry.
fn empty_banks<A: Allocator + Copy>(
    alloc: A,
    count: u32,
) -> Result<Vec<Vec<Served, A>, A>, AllocError>
    ensures sized { IfOk result (λ banks. vec_len banks ≡ count) }
    ensures empty { IfOk result (λ banks. (bank : ℕ) → bank_of banks.items bank ≡ []) }
{
    let mut banks = Vec::new(alloc);
    for _ in 0..count {
        banks.push(Vec::new(alloc))?;
    }
    Ok(banks)
}

/// So many zeros.
fn zeros<A: Allocator + Copy>(alloc: A, count: u32) -> Result<Vec<u64, A>, AllocError>
    ensures { IfOk result (λ v. v.items ≡ replicate count 0) }
{
    vec![in alloc; 0; count as usize]
}

/// So many events that are not named.
fn no_events<A: Allocator + Copy>(alloc: A, count: usize) -> Result<Vec<bool, A>, AllocError>
    ensures sized { IfOk result (λ v. vec_len v ≡ count) }
    ensures blank { IfOk result (λ v. (event : ℕ) → slice_index_or v.items event false ≡ false) }
{
    vec![in alloc; false; count]
}

/// What is kept before the first line.
pub fn start<A: Allocator + Copy>(alloc: A) -> Result<Checker<A>, AllocError>
    ensures { IfOk result (λ c. KeepsSeen nothing_seen c) }
{
    let mut checker = shaped(alloc, 0, 0, 0)?;
    checker.section = 0;
    Ok(checker)
}

/// What is kept behind a shape.
pub fn shaped<A: Allocator + Copy>(
    alloc: A,
    version: u32,
    tiles: u32,
    words: u32,
) -> Result<Checker<A>, AllocError>
    requires tiles { tiles ≤ 64 }
    requires words { words ≤ 65536 }
    ensures { IfOk result (λ c. KeepsSeen (shaped_seen version tiles words) c) }
{
    let banks = empty_banks(alloc, tiles)?;
    Ok(Checker {
        section: 2,
        version,
        tiles,
        words,
        memory: zeros(alloc, words)?,
        next_init: 0,
        last_bank: 0,
        entry_count: 0,
        has_newer: false,
        banks,
        next_answer: 0,
        next_word: 0,
        next_served: 0,
        ordered: zeros(alloc, tiles)?,
        used: no_events(alloc, EVENTS as usize + 1)?,
    })
}
