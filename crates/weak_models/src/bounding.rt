//! Bounds of turns along programs: a guess, which is checked.

use crate::bounds::{Bounds, ByKind, bound_of};
use crate::lists::at;
use crate::notes::{Dependency, DependencyKind, FenceOrder, Note, is_rcsc, note_of, orders};
use memory_models::{Kind, Operation};
use std::alloc::{AllocError, Allocator};

/// Bounds that are the same number for each kind.
fn of_each(bound: usize) -> ByKind {
    ByKind {
        load: bound,
        store: bound,
        atomic: bound,
    }
}

/// The bounds before the first operation of a program.
fn no_bounds() -> Bounds {
    Bounds {
        seen: of_each(0),
        ahead: of_each(0),
        rcsc: 0,
        through: 0,
    }
}

/// The higher bound of each kind.
fn higher(bounds: ByKind, others: ByKind) -> ByKind {
    ByKind {
        load: bounds.load.max(others.load),
        store: bounds.store.max(others.store),
        atomic: bounds.atomic.max(others.atomic),
    }
}

/// A bound for one kind alone.
fn of_kind(kind: Kind, bound: usize) -> ByKind {
    let mut bounds = of_each(0);
    match kind {
        Kind::Load => bounds.load = bound,
        Kind::Store => bounds.store = bound,
        Kind::Atomic => bounds.atomic = bound,
        Kind::Fence => {}
    }
    bounds
}

/// A bound for what writes alone.
fn of_writes(bound: usize) -> ByKind {
    ByKind {
        load: 0,
        store: bound,
        atomic: bound,
    }
}

/// The bound, if it is wanted, else 0.
fn wanted(is: bool, bound: usize) -> usize {
    if is { bound } else { 0 }
}

/// What a fence orders behind a kind of which there is a bound.
fn over(fence: FenceOrder, first: Kind, seen: ByKind) -> ByKind {
    let bound = bound_of(seen, first);
    ByKind {
        load: wanted(orders(fence, first, Kind::Load), bound),
        store: wanted(orders(fence, first, Kind::Store), bound),
        atomic: wanted(orders(fence, first, Kind::Atomic), bound),
    }
}

/// What a fence orders behind all that is before it.
fn over_fence(fence: FenceOrder, seen: ByKind) -> ByKind {
    higher(
        over(fence, Kind::Load, seen),
        higher(
            over(fence, Kind::Store, seen),
            over(fence, Kind::Atomic, seen),
        ),
    )
}

/// The bounds behind an operation, below the number of which stands its turn.
fn after(bounds: Bounds, kind: Kind, note: Note, above: usize) -> Bounds {
    let mut ahead = bounds.ahead;
    if kind == Kind::Fence {
        ahead = higher(ahead, over_fence(note.fence, bounds.seen));
    }
    if note.acquire {
        ahead = higher(ahead, of_each(above));
    }
    Bounds {
        seen: higher(bounds.seen, of_kind(kind, above)),
        ahead,
        rcsc: bounds.rcsc.max(wanted(is_rcsc(note), above)),
        through: 0,
    }
}

/// Raises the bounds of an operation for its own input, and for what writes from it on.
fn raise(list: &mut [Bounds], y: usize, through: usize, writes: usize) {
    if y < list.len() {
        let bounds = list[y];
        list[y] = Bounds {
            through: bounds.through.max(through),
            ahead: higher(bounds.ahead, of_writes(writes)),
            ..bounds
        };
    }
}

/// Whether an operation is the first one of its program.
fn is_first(operations: &[Operation], y: usize) -> bool {
    y == 0 || y >= operations.len() || operations[y - 1].processor != operations[y].processor
}

/// Raises bounds by dependencies: by an address also those of the next operation of the program.
fn raise_each(
    dependencies: &[Dependency],
    operations: &[Operation],
    turns: &[usize],
    list: &mut [Bounds],
) {
    for k in 0..dependencies.len() {
        let Dependency {
            on,
            operation,
            kind,
        } = dependencies[k];
        let above = at(turns, on).saturating_add(1);
        let is_branch = kind == DependencyKind::Control;
        raise(
            list,
            operation,
            wanted(!is_branch, above),
            wanted(is_branch, above),
        );
        let next = operation.saturating_add(1);
        let goes_on = kind == DependencyKind::Address && !is_first(operations, next);
        raise(list, next, 0, wanted(goes_on, above));
    }
}

/// The bounds before an operation: those behind the one before it, and its own by dependencies.
fn joined(bounds: Bounds, own: Bounds) -> Bounds {
    Bounds {
        ahead: higher(bounds.ahead, own.ahead),
        through: own.through,
        ..bounds
    }
}

/// Has bounds by dependencies go on along the programs.
fn go_along(notes: &[Note], operations: &[Operation], turns: &[usize], list: &mut [Bounds]) {
    let mut bounds = no_bounds();
    for y in 0..operations.len() {
        if is_first(operations, y) {
            bounds = no_bounds();
        }
        if y < list.len() {
            bounds = joined(bounds, list[y]);
            list[y] = bounds;
        }
        let above = at(turns, y).saturating_add(1);
        bounds = after(bounds, operations[y].kind, note_of(notes, y), above);
    }
}

/// The bounds before each operation.
///
/// Errors: out of memory.
pub fn bounds_of<A: Allocator + Copy>(
    alloc: A,
    notes: &[Note],
    dependencies: &[Dependency],
    operations: &[Operation],
    turns: &[usize],
) -> Result<Vec<Bounds, A>, AllocError> {
    let mut list = vec![in alloc; no_bounds(); operations.len()]?;
    raise_each(dependencies, operations, turns, &mut list);
    go_along(notes, operations, turns, &mut list);
    Ok(list)
}
