//! Rules of preserved program order that look at more than one note.

ghost use Rattle.std.specs.Prelude.{◌≡◌, ◌<◌, true, false, length, Some};
ghost use Rattle.weak_models.specs.Preserved.{read_at, HasStoreBetween, IsSameWordStore};
ghost use Rattle.weak_models.specs.Preserved.{AreDifferentReads, IsAtomicSource, IsFenced};
ghost use Rattle.weak_models.specs.Preserved.{IsThroughStore};

use crate::depending::depends_within;
use crate::notes::{Dependency, DependencyKind, Note, is_conditional, note_of, orders, reads};
use memory_models::kinds::{is_load, is_write};
use memory_models::{Kind, Operation};

/// The write that an operation read.
pub fn read_of(operations: &[Operation], writes: &[usize], x: usize) -> usize
    requires { x < length operations.now }
    ensures { result ≡ read_at operations.now writes.now x }
{
    let operation = operations[x];
    let place = if is_load(operation.kind) {
        operation.place
    } else {
        operation.place.saturating_sub(1)
    };
    if place < writes.len() {
        writes[place]
    } else {
        0
    }
}

/// Whether the second is a store on the first's word.
pub fn is_same_word_store(operations: &[Operation], x: usize, y: usize) -> bool
    requires x { x < length operations.now }
    requires y { y < length operations.now }
    ensures yes { result ≡ true → IsSameWordStore operations.now x y }
    ensures no { result ≡ false → IsSameWordStore operations.now x y → ⊥ }
{
    is_write(operations[y].kind) && operations[x].word == operations[y].word
}

/// Whether a store on the second's word stands between two operations.
fn has_store_between(operations: &[Operation], x: usize, y: usize) -> bool
    requires x { x < y }
    requires y { y < length operations.now }
    ensures yes { result ≡ true → HasStoreBetween operations.now x y }
    ensures no { result ≡ false → HasStoreBetween operations.now x y → ⊥ }
{
    for m in x + 1..y {
        if is_write(operations[m].kind) && operations[m].word == operations[y].word {
            return true;
        }
    }
    false
}

/// Whether they are loads on one word, with no store on it between them, that read different writes.
pub fn are_different_reads(operations: &[Operation], writes: &[usize], x: usize, y: usize) -> bool
    requires x { x < y }
    requires y { y < length operations.now }
    ensures yes { result ≡ true → AreDifferentReads operations.now writes.now x y }
    ensures no { result ≡ false → AreDifferentReads operations.now writes.now x y → ⊥ }
{
    if !reads(operations[x].kind) || !reads(operations[y].kind) {
        return false;
    }
    if operations[x].word != operations[y].word {
        return false;
    }
    if read_of(operations, writes, x) == read_of(operations, writes, y) {
        return false;
    }
    !has_store_between(operations, x, y)
}

/// Whether the second is a load that reads what the first wrote, an atomic or a store conditional.
pub fn is_atomic_source(
    notes: &[Note],
    operations: &[Operation],
    writes: &[usize],
    x: usize,
    y: usize,
) -> bool
    requires x { x < length operations.now }
    requires y { y < length operations.now }
    ensures yes { result ≡ true → IsAtomicSource notes.now operations.now writes.now x y }
    ensures no { result ≡ false → IsAtomicSource notes.now operations.now writes.now x y → ⊥ }
{
    if !reads(operations[y].kind) || operations[x].word != operations[y].word {
        return false;
    }
    if read_of(operations, writes, y) != x {
        return false;
    }
    operations[x].kind == Kind::Atomic || is_conditional(note_of(notes, x))
}

/// Whether a note is of a store conditional that is paired with an operation.
pub fn is_paired(note: Note, reserved: usize) -> bool
    ensures yes { result ≡ true → note.pair ≡ Some reserved }
    ensures no { result ≡ false → note.pair ≡ Some reserved → ⊥ }
{
    match note.pair {
        Some(pair) => pair == reserved,
        None => false,
    }
}

/// Whether a fence between two operations orders the first before the second.
pub fn is_fenced(notes: &[Note], operations: &[Operation], x: usize, y: usize) -> bool
    requires x { x < y }
    requires y { y < length operations.now }
    ensures yes { result ≡ true → IsFenced notes.now operations.now x y }
    ensures no { result ≡ false → IsFenced notes.now operations.now x y → ⊥ }
{
    let first = operations[x].kind;
    let second = operations[y].kind;
    for m in x + 1..y {
        if operations[m].kind == Kind::Fence && orders(note_of(notes, m).fence, first, second) {
            return true;
        }
    }
    false
}

/// Whether the second is a load that reads what a store between them wrote, which has an address or
/// data dependency on the first.
pub fn is_through_store(
    dependencies: &[Dependency],
    operations: &[Operation],
    writes: &[usize],
    x: usize,
    y: usize,
) -> bool
    requires y { y < length operations.now }
    ensures yes { result ≡ true → IsThroughStore dependencies.now operations.now writes.now x y }
    ensures no { result ≡ false → IsThroughStore dependencies.now operations.now writes.now x y → ⊥ }
{
    let m = read_of(operations, writes, y);
    if x >= m || m >= y || !reads(operations[y].kind) {
        return false;
    }
    if !is_write(operations[m].kind) || operations[m].word != operations[y].word {
        return false;
    }
    depends_within(dependencies, DependencyKind::Address, x, m, m + 1)
        || depends_within(dependencies, DependencyKind::Data, x, m, m + 1)
}
