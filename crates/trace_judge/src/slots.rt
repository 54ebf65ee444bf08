//! The slots of the operations that are open on a word.

ghost use Rattle.std.specs.Prelude.{◌≡◌, ◌<◌, ◌≤◌, ◌+◌, ◌-◌, ◌++◌, ℕ, Some, None, true, false};
ghost use Rattle.std.specs.Prelude.{IfOk, OnOk, MatchOption, length};
ghost use Rattle.std.specs.Prelude.{slice_get, set, replicate};
ghost use Rattle.trace_laws.specs.declared.opened.Open.{Open};
ghost use Rattle.trace_laws.specs.Searches.{IsAt};
ghost use Rattle.trace_judge.specs.Slots.{IsFilled, IsFullWord, IsPut};

use std::alloc::{AllocError, Allocator};
use trace_laws::Open;

/// How many slots of a word there are for operations that are answered later, and again for those
/// that never are.
const SLOTS: usize = 64;

/// Whether there is nothing in a slot.
fn is_free(place: Option<Open>) -> bool
    ensures free { result ≡ true → place ≡ None }
    ensures taken { result ≡ false → place ≡ None → ⊥ }
{
    match place {
        Some(_) => false,
        None => true,
    }
}

/// A slot with nothing in it, from this one on, of the 64 that there are.
fn free_slot(table: &[Option<Open>], first: usize) -> Option<usize>
    requires { first ≤ 64 }
    ensures { MatchOption result (IsFilled first table.now)
        (λ s. (first ≤ s) × (s < first + 64) × (slice_get table.now s ≡ Some None)) }
{
    let end = table.len().min(first + SLOTS);
    for slot in first..end {
        if is_free(table[slot]) {
            return Some(slot);
        }
    }
    None
}

/// The operation of this number, with its slot.
pub fn slot_of(table: &[Option<Open>], id: u64) -> Option<(usize, Open)>
    ensures { MatchOption result
        ((s : ℕ) (o : Open) → IsAt table.now s o → o.call.id ≡ id → ⊥)
        (λ r. IsAt table.now r.0 r.1 × (r.1.call.id ≡ id)) }
{
    for slot in 0..table.len() {
        if let Some(opened) = table[slot]
            && opened.call.id == id
        {
            return Some((slot, opened));
        }
    }
    None
}

/// Makes slots, with nothing in them, up to this one.
fn widen<A: Allocator>(table: &mut Vec<Option<Open>, A>, first: usize) -> Result<(), AllocError>
    ensures { OnOk result
        (table.new.items ≡ table.old.items ++ replicate (first - length table.old.items) None) }
{
    let missing = first.saturating_sub(table.len());
    for _ in 0..missing {
        table.push(None)?;
    }
    Ok(())
}

/// Puts an operation into a slot, from this one on. Says whether there was one, or room for one more.
pub fn put<A: Allocator>(
    table: &mut Vec<Option<Open>, A>,
    first: usize,
    opened: Open,
) -> Result<bool, AllocError>
    requires { first ≤ 64 }
    ensures put { IfOk result (λ b. b ≡ true → IsPut table.old.items first opened table.new.items) }
    ensures full { IfOk result (λ b. b ≡ false → IsFullWord first table.old.items) }
{
    if let Some(slot) = free_slot(table, first) {
        table[slot] = Some(opened);
        return Ok(true);
    }
    if table.len() >= first + SLOTS {
        return Ok(false);
    }
    widen(table, first)?;
    table.push(Some(opened))?;
    Ok(true)
}

/// Frees a slot.
pub fn free<A: Allocator>(table: &mut Vec<Option<Open>, A>, slot: usize)
    requires { slot < length table.old.items }
    ensures { table.new.items ≡ set table.old.items slot None }
{
    table[slot] = None;
}
