//! Which rule of preserved program order keeps two operations in their order.

ghost use Rattle.std.specs.Prelude.{◌≡◌, ◌<◌, ℕ, List, length, MatchOption};
ghost use Rattle.weak_models.specs.declared.notes.Note.{Note};
ghost use Rattle.weak_models.specs.declared.notes.Dependency.{Dependency};
ghost use Rattle.weak_models.specs.Preserved.{KeepsBy, IsPreservedBy, IsPreserved, NoneKeeps};
ghost use Rattle.weak_models.specs.Preserved.{is_overlapping, is_synchronization, is_dependency};

use crate::depending::depends_within;
use crate::notes::{Dependency, DependencyKind, Note, is_rcsc, note_of};
use crate::rules::{
    are_different_reads, is_atomic_source, is_fenced, is_paired, is_same_word_store,
    is_through_store,
};
use crate::verdict::PreservedRule;
use memory_models::Operation;
use memory_models::kinds::{is_write, uses_word};

/// Which rule of overlapping addresses keeps two operations of one processor, if any.
fn overlapping_rule_of(
    notes: &[Note],
    operations: &[Operation],
    writes: &[usize],
    x: usize,
    y: usize,
) -> Option<PreservedRule>
    requires x { x < y }
    requires y { y < length operations.now }
    ensures { (dependencies : List Dependency) → MatchOption result
        (NoneKeeps is_overlapping notes.now dependencies operations.now writes.now x y)
        (KeepsBy notes.now dependencies operations.now writes.now x y) }
{
    if is_same_word_store(operations, x, y) {
        return Some(PreservedRule::SameWordStore);
    }
    if are_different_reads(operations, writes, x, y) {
        return Some(PreservedRule::DifferentReads);
    }
    if is_atomic_source(notes, operations, writes, x, y) {
        return Some(PreservedRule::AtomicSource);
    }
    None
}

/// Which rule of explicit synchronization keeps two operations of one processor, if any.
fn synchronization_rule_of(
    notes: &[Note],
    operations: &[Operation],
    x: usize,
    y: usize,
) -> Option<PreservedRule>
    requires x { x < y }
    requires y { y < length operations.now }
    ensures { (dependencies : List Dependency) (writes : List ℕ) → MatchOption result
        (NoneKeeps is_synchronization notes.now dependencies operations.now writes x y)
        (KeepsBy notes.now dependencies operations.now writes x y) }
{
    let first = note_of(notes, x);
    let second = note_of(notes, y);
    if is_fenced(notes, operations, x, y) {
        return Some(PreservedRule::Fenced);
    }
    if first.acquire {
        return Some(PreservedRule::Acquire);
    }
    if second.release {
        return Some(PreservedRule::Release);
    }
    if is_rcsc(first) && is_rcsc(second) {
        return Some(PreservedRule::BothRcsc);
    }
    if is_paired(second, x) {
        return Some(PreservedRule::Paired);
    }
    None
}

/// Which rule of dependencies keeps two operations of one processor, if any.
fn dependency_rule_of(
    dependencies: &[Dependency],
    operations: &[Operation],
    writes: &[usize],
    x: usize,
    y: usize,
) -> Option<PreservedRule>
    requires x { x < y }
    requires y { y < length operations.now }
    ensures { (notes : List Note) → MatchOption result
        (NoneKeeps is_dependency notes dependencies.now operations.now writes.now x y)
        (KeepsBy notes dependencies.now operations.now writes.now x y) }
{
    if depends_within(dependencies, DependencyKind::Address, x, y, y + 1) {
        return Some(PreservedRule::AddressDependency);
    }
    if depends_within(dependencies, DependencyKind::Data, x, y, y + 1) {
        return Some(PreservedRule::DataDependency);
    }
    if is_through_store(dependencies, operations, writes, x, y) {
        return Some(PreservedRule::ThroughStore);
    }
    if !is_write(operations[y].kind) {
        return None;
    }
    if depends_within(dependencies, DependencyKind::Control, x, x + 1, y + 1) {
        return Some(PreservedRule::ControlDependency);
    }
    if depends_within(dependencies, DependencyKind::Address, x, x + 1, y) {
        return Some(PreservedRule::BehindAddress);
    }
    None
}

/// Which rule of preserved program order keeps two operations in their order, if any does.
pub fn rule_of(
    notes: &[Note],
    dependencies: &[Dependency],
    operations: &[Operation],
    writes: &[usize],
    x: usize,
    y: usize,
) -> Option<PreservedRule>
    requires x { x < length operations.now }
    requires y { y < length operations.now }
    ensures { MatchOption result
        (IsPreserved notes.now dependencies.now operations.now writes.now x y → ⊥)
        (IsPreservedBy notes.now dependencies.now operations.now writes.now x y) }
{
    if operations[x].processor != operations[y].processor || x >= y {
        return None;
    }
    if !uses_word(operations[x].kind) || !uses_word(operations[y].kind) {
        return None;
    }
    if let Some(rule) = overlapping_rule_of(notes, operations, writes, x, y) {
        return Some(rule);
    }
    if let Some(rule) = synchronization_rule_of(notes, operations, x, y) {
        return Some(rule);
    }
    dependency_rule_of(dependencies, operations, writes, x, y)
}
