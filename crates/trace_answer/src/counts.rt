//! How many operations of a part come before each operation.

ghost use Rattle.std.specs.Prelude.{◌≡◌, ◌+◌, ◌<◌, ◌==◌, ◌&&◌, ◌^◌, ℕ, IfOk, OnOk};
ghost use Rattle.std.specs.Prelude.{Some, false, if◌then◌else◌, length, slice_get, unwrap_or};
ghost use Rattle.trace_text.specs.declared.issued.Issued.{Issued};
ghost use Rattle.trace_table.specs.Counts.{count_in};
ghost use Rattle.trace_answer.specs.Written.{AreCounts, key_of};

use std::alloc::{AllocError, Allocator};
use std::collections::BTreeMap;
use trace_table::counted;
use trace_text::Issued;

/// By what operations are counted.
#[derive(Clone, Copy)]
pub enum Key {
    /// Their processor.
    Processor,
    /// The address of their word.
    Address,
}

/// The processor of an operation, or the address of its word.
fn key_of(key: Key, issued: Issued) -> u32
    ensures { result ≡ key_of key issued }
{
    match key {
        Key::Processor => issued.processor,
        Key::Address => issued.operation.address,
    }
}

/// The processor of the operation of a number, or the address of its word.
fn key_at(issued: &[Issued], key: Key, k: usize) -> u32
    requires { k < length issued.now }
    ensures { (i : Issued) × (slice_get issued.now k ≡ Some i) × (result ≡ key_of key i) }
{
    key_of(key, issued[k])
}

/// Whether the operation of a number is kept.
pub(crate) fn is_kept_at(kept: &[bool], k: usize) -> bool
    ensures { result ≡ unwrap_or (slice_get kept.now k) false }
{
    kept.get(k).copied().unwrap_or(false)
}

/// How many of a key are counted, before one more is, if it is kept.
fn counted_if<A: Allocator + Copy>(
    counts: &mut BTreeMap<u32, u64, A>,
    key: u32,
    is_kept: bool,
) -> Result<u64, AllocError>
    requires { count_in counts.old.entries key < 2 ^ 63 }
    ensures count { IfOk result (λ count. count ≡ count_in counts.old.entries key) }
    ensures more { OnOk result ((k : ℕ) → count_in counts.new.entries k
        ≡ count_in counts.old.entries k + (if is_kept && (key == k) then 1 else 0)) }
{
    if is_kept {
        return counted(counts, key);
    }
    Ok(counts.get(&key).copied().unwrap_or(0))
}

/// Of each operation how many before it are kept and have its processor, or its address.
///
/// Errors: memory.
pub(crate) fn counts_before<A: Allocator + Copy>(
    alloc: A,
    issued: &[Issued],
    kept: &[bool],
    key: Key,
) -> Result<Vec<u64, A>, AllocError>
    ensures { IfOk result (λ counts. AreCounts issued.now kept.now key counts.items) }
{
    let mut seen = BTreeMap::new(alloc);
    let mut counts = Vec::new(alloc);
    for k in 0..issued.len() {
        let count = counted_if(&mut seen, key_at(issued, key, k), is_kept_at(kept, k))?;
        counts.push(count)?;
    }
    Ok(counts)
}
