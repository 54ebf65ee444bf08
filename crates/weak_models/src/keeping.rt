//! Whether turns keep preserved program order: each operation and each dependency is looked at once,
//! with bounds of the turns of the operations before it.

ghost use Rattle.std.specs.Prelude.{◌≡◌, ◌+◌, ◌<◌, ℕ, true, length, slice_index, Some};
ghost use Rattle.memory_models.specs.Trace.{IsOwn, operation_at, uses_word};
ghost use Rattle.weak_models.specs.Preserved.{read_at};
ghost use Rattle.weak_models.specs.Bounds.{bounds_at, IsBehindSource, IsKeptAt, AreKept};
ghost use Rattle.weak_models.specs.Bounds.{IsChainedAt, AreChained};
ghost use Rattle.weak_models.specs.Bounds.{IsBehindInput, IsDependencyKept, AreDependenciesKept};
ghost use Rattle.weak_models.specs.Bounds.{IsBelowWrites};

use crate::bounds::{Bounds, are_behind, is_behind_bounds, is_below_writes};
use crate::notes::{Dependency, DependencyKind, Note, note_of, reads};
use crate::rules::{is_atomic_source, read_of};
use memory_models::Operation;
use memory_models::kinds::uses_word;

/// Whether an operation comes behind its load reserved, if that is before it.
fn is_behind_pair(note: Note, turns: &[usize], y: usize) -> bool
    requires { y < length turns.now }
    ensures { result ≡ true → (reserved : ℕ) → note.pair ≡ Some reserved → reserved < y
        → slice_index turns.now reserved < slice_index turns.now y }
{
    match note.pair {
        Some(reserved) => reserved >= y || turns[reserved] < turns[y],
        None => true,
    }
}

/// Whether an operation comes behind what it reads in its program, so far as it is to.
fn is_behind_source(
    notes: &[Note],
    operations: &[Operation],
    writes: &[usize],
    turns: &[usize],
    bounds: &[Bounds],
    y: usize,
) -> bool
    requires y { y < length operations.now }
    requires turns { length turns.now ≡ length operations.now }
    requires bounds { length bounds.now ≡ length operations.now }
    ensures { result ≡ true → IsOwn operations.now (read_at operations.now writes.now y) y
        → IsBehindSource notes.now operations.now writes.now turns.now bounds.now y }
{
    let source = read_of(operations, writes, y);
    if source >= y || operations[source].processor != operations[y].processor {
        return true;
    }
    if reads(operations[y].kind) && bounds[source].through > turns[y] {
        return false;
    }
    turns[source] < turns[y] || !is_atomic_source(notes, operations, writes, source, y)
}

/// Whether an operation comes behind those of its program that it has to, if it is on a word.
fn is_kept_at(
    notes: &[Note],
    operations: &[Operation],
    writes: &[usize],
    turns: &[usize],
    bounds: &[Bounds],
    y: usize,
) -> bool
    requires y { y < length operations.now }
    requires turns { length turns.now ≡ length operations.now }
    requires bounds { length bounds.now ≡ length operations.now }
    ensures { result ≡ true → uses_word (operation_at operations.now y).kind ≡ true
        → IsKeptAt notes.now operations.now writes.now turns.now bounds.now y }
{
    let note = note_of(notes, y);
    let kind = operations[y].kind;
    if !uses_word(kind) {
        return true;
    }
    is_behind_bounds(kind, note, turns[y], bounds[y])
        && is_behind_pair(note, turns, y)
        && is_behind_source(notes, operations, writes, turns, bounds, y)
}

/// Whether bounds go on from an operation to the next one of its program.
fn is_chained_at(
    notes: &[Note],
    operations: &[Operation],
    turns: &[usize],
    bounds: &[Bounds],
    y: usize,
) -> bool
    requires y { y < length operations.now }
    requires turns { length turns.now ≡ length operations.now }
    requires bounds { length bounds.now ≡ length operations.now }
    ensures { result ≡ true → IsChainedAt notes.now operations.now turns.now bounds.now y }
{
    if y + 1 >= operations.len() {
        return true;
    }
    let Operation {
        processor,
        kind,
        ..
    } = operations[y];
    processor != operations[y + 1].processor
        || are_behind(kind, note_of(notes, y), turns[y], bounds[y], bounds[y + 1])
}

/// Whether each operation comes behind those of its program that it has to. True is proved, and false
/// says nothing: behind this guess `judge_by_pairs` decides.
pub fn are_kept(
    notes: &[Note],
    operations: &[Operation],
    writes: &[usize],
    turns: &[usize],
    bounds: &[Bounds],
) -> bool
    requires turns { length turns.now ≡ length operations.now }
    requires bounds { length bounds.now ≡ length operations.now }
    ensures { result ≡ true
        → AreKept notes.now operations.now writes.now turns.now bounds.now }
{
    for y in 0..operations.len() {
        if !is_kept_at(notes, operations, writes, turns, bounds, y) {
            return false;
        }
    }
    true
}

/// Whether bounds go on from each operation to the next one of its program. True is proved, and false
/// says nothing: behind this guess `judge_by_pairs` decides.
pub fn are_chained(
    notes: &[Note],
    operations: &[Operation],
    turns: &[usize],
    bounds: &[Bounds],
) -> bool
    requires turns { length turns.now ≡ length operations.now }
    requires bounds { length bounds.now ≡ length operations.now }
    ensures { result ≡ true → AreChained notes.now operations.now turns.now bounds.now }
{
    for y in 0..operations.len() {
        if !is_chained_at(notes, operations, turns, bounds, y) {
            return false;
        }
    }
    true
}

/// Whether an operation and what reads from it come behind what it depends on.
fn is_behind_input(turns: &[usize], bounds: &[Bounds], dependency: Dependency) -> bool
    requires on { dependency.on < length turns.now }
    requires operation { dependency.operation < length turns.now }
    requires bounds { length bounds.now ≡ length turns.now }
    ensures { result ≡ true → IsBehindInput turns.now bounds.now dependency }
{
    let Dependency { on, operation, .. } = dependency;
    turns[on] < turns[operation] && turns[on] < bounds[operation].through
}

/// Whether the writes behind what has an address dependency come behind what it depends on.
fn are_writes_behind(
    operations: &[Operation],
    turns: &[usize],
    bounds: &[Bounds],
    dependency: Dependency,
) -> bool
    requires on { dependency.on < length operations.now }
    requires operation { dependency.operation < length operations.now }
    requires turns { length turns.now ≡ length operations.now }
    requires bounds { length bounds.now ≡ length operations.now }
    ensures { result ≡ true → dependency.operation + 1 < length operations.now
        → (operation_at operations.now dependency.operation).processor
        ≡ (operation_at operations.now (dependency.operation + 1)).processor
        → IsBelowWrites (slice_index turns.now dependency.on)
        (bounds_at bounds.now (dependency.operation + 1)).ahead }
{
    let Dependency { on, operation, .. } = dependency;
    if operation + 1 >= operations.len() {
        return true;
    }
    operations[operation].processor != operations[operation + 1].processor
        || is_below_writes(turns[on], bounds[operation + 1].ahead)
}

/// Whether a dependency between operations is kept.
fn is_dependency_kept(
    operations: &[Operation],
    turns: &[usize],
    bounds: &[Bounds],
    dependency: Dependency,
) -> bool
    requires turns { length turns.now ≡ length operations.now }
    requires bounds { length bounds.now ≡ length operations.now }
    ensures { result ≡ true → dependency.on < length operations.now
        → dependency.operation < length operations.now
        → IsDependencyKept operations.now turns.now bounds.now dependency }
{
    if dependency.on >= operations.len() || dependency.operation >= operations.len() {
        return true;
    }
    match dependency.kind {
        DependencyKind::Address => {
            is_behind_input(turns, bounds, dependency)
                && are_writes_behind(operations, turns, bounds, dependency)
        }
        DependencyKind::Data => is_behind_input(turns, bounds, dependency),
        DependencyKind::Control => {
            is_below_writes(turns[dependency.on], bounds[dependency.operation].ahead)
        }
    }
}

/// Whether each dependency between operations is kept. True is proved, and false
/// says nothing: behind this guess `judge_by_pairs` decides.
pub fn are_dependencies_kept(
    dependencies: &[Dependency],
    operations: &[Operation],
    turns: &[usize],
    bounds: &[Bounds],
) -> bool
    requires turns { length turns.now ≡ length operations.now }
    requires bounds { length bounds.now ≡ length operations.now }
    ensures { result ≡ true
        → AreDependenciesKept dependencies.now operations.now turns.now bounds.now }
{
    for k in 0..dependencies.len() {
        if !is_dependency_kept(operations, turns, bounds, dependencies[k]) {
            return false;
        }
    }
    true
}
