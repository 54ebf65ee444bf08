//! Parts of some items: of each item whether it is kept.

ghost use Rattle.std.specs.Prelude.{◌≡◌, ◌<◌, ◌+◌, ℕ, List, Bool, Some, true, false, IfOk, length};
ghost use Rattle.std.specs.Prelude.{slice_get};
ghost use Rattle.state_search.specs.Parts.{AreClosed, AreWithin, IsKept, without};

use std::alloc::{AllocError, Allocator};

/// What judges parts of some items, of each of which it is told whether it is kept.
pub trait PartJudge<A: Allocator> {
    /// What is judged breaks with a part.
    ghost breaks: { Self → List Bool → Type 0 };

    /// It stands with it, or that isn't decided.
    ghost stands: { Self → List Bool → Type 0 };

    /// Whether what is judged breaks with a part. Of the answers that are left to ask for this is one.
    ///
    /// Errors: memory.
    fn is_broken(&self, alloc: A, kept: &[bool], left: &mut u32) -> Result<bool, AllocError>
        requires { 0 < left.old }
        ensures yes { IfOk result (λ b. b ≡ true → breaks self.now kept.now) }
        ensures no { IfOk result (λ b. b ≡ false → stands self.now kept.now) }
        ensures asked { left.new + 1 ≡ left.old };
}

/// Whether the item of a number is kept.
pub fn is_kept(kept: &[bool], k: usize) -> bool
    ensures yes { result ≡ true → IsKept kept.now k }
    ensures no { result ≡ false → IsKept kept.now k → ⊥ }
{
    match kept.get(k).copied() {
        Some(flag) => flag,
        None => false,
    }
}

/// The source of an item, if it has one.
fn source_of(sources: &[Option<usize>], k: usize) -> Option<usize>
    ensures there { (s : ℕ) → result ≡ Some s → slice_get sources.now k ≡ Some (Some s) }
    ensures all { (s : ℕ) → slice_get sources.now k ≡ Some (Some s) → result ≡ Some s }
{
    match sources.get(k).copied() {
        Some(source) => source,
        None => None,
    }
}

/// Whether an item has its source with it, if it is kept and has one.
fn has_source(sources: &[Option<usize>], kept: &[bool], k: usize) -> bool
    ensures yes { result ≡ true → (s : ℕ) → IsKept kept.now k
        → slice_get sources.now k ≡ Some (Some s) → IsKept kept.now s }
    ensures no { result ≡ false → (s : ℕ) × IsKept kept.now k
        × (slice_get sources.now k ≡ Some (Some s)) × (IsKept kept.now s → ⊥) }
{
    if !is_kept(kept, k) {
        return true;
    }
    match source_of(sources, k) {
        Some(source) => is_kept(kept, source),
        None => true,
    }
}

/// Whether each item that is kept has its source with it, if it has one.
pub fn are_closed(sources: &[Option<usize>], kept: &[bool]) -> bool
    ensures yes { result ≡ true → AreClosed sources.now kept.now }
    ensures no { result ≡ false → AreClosed sources.now kept.now → ⊥ }
{
    for k in 0..kept.len() {
        if !has_source(sources, kept, k) {
            return false;
        }
    }
    true
}

/// A part without one of its items.
///
/// Errors: memory.
pub(crate) fn without<A: Allocator>(
    alloc: A,
    kept: &[bool],
    k: usize,
) -> Result<Vec<bool, A>, AllocError>
    requires { k < length kept.now }
    ensures { IfOk result (λ rest. rest.items ≡ without kept.now k) }
{
    let mut rest = Vec::from_slice(alloc, kept)?;
    rest[k] = false;
    Ok(rest)
}

/// Leaves out an item.
fn leave_out(kept: &mut [bool], k: usize)
    ensures { AreWithin kept.new kept.old }
{
    if k < kept.len() {
        kept[k] = false;
    }
}

/// Leaves out the items from one to another.
fn leave_out_chunk(kept: &mut [bool], from: usize, to: usize)
    ensures { AreWithin kept.new kept.old }
{
    for k in from..to {
        leave_out(kept, k);
    }
}

/// Leaves out what is kept without its source, as far as one look at each item finds it.
fn leave_out_bare(sources: &[Option<usize>], kept: &mut [bool])
    ensures { AreWithin kept.new kept.old }
{
    for k in 0..kept.len() {
        if !has_source(sources, kept, k) {
            leave_out(kept, k);
        }
    }
}

/// How many looks are taken for items without their sources.
const LOOKS: u32 = 16;

/// A part without the items from one to another, and without those that lack their sources then, as far
/// as these are found.
///
/// Errors: memory.
pub(crate) fn without_chunk<A: Allocator>(
    alloc: A,
    sources: &[Option<usize>],
    kept: &[bool],
    from: usize,
    to: usize,
) -> Result<Vec<bool, A>, AllocError>
    ensures { IfOk result (λ rest. AreWithin rest.items kept.now) }
{
    let mut rest = Vec::from_slice(alloc, kept)?;
    leave_out_chunk(&mut rest, from, to);
    for _ in 0..LOOKS {
        if are_closed(sources, &rest) {
            return Ok(rest);
        }
        leave_out_bare(sources, &mut rest);
    }
    Ok(rest)
}

/// How many items are kept.
pub fn kept_count(kept: &[bool]) -> usize {
    kept.iter().filter(|flag| **flag).count()
}

/// Where the last items before one begin, so many of them that are kept.
pub(crate) fn chunk_start(kept: &[bool], end: usize, size: usize) -> usize
    requires { 0 < end }
    ensures { result < end }
{
    let mut from = end - 1;
    let mut count = usize::from(is_kept(kept, from));
    while from > 0 && count < size {
        from -= 1;
        if is_kept(kept, from) {
            count += 1;
        }
    }
    from
}
