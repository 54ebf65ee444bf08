//! The nodes and the edges of a thin graph of preserved program order: helper nodes collect operations,
//! and lead to those behind them. A guess, which is checked.

use crate::notes::{Dependency, DependencyKind, FenceOrder, Note, orders, reads};
use memory_models::Kind;
use memory_models::kinds::is_write;
use rising::Edge;

/// The nodes that help an operation.
#[derive(Clone, Copy)]
pub struct Helpers {
    /// What reads before the operation in its program leads to it.
    pub reads_before: usize,
    /// What writes before it does.
    pub writes_before: usize,
    /// It leads to what reads from the operation on.
    pub reads_behind: usize,
    /// It leads to what writes from the operation on.
    pub writes_behind: usize,
    /// What a store's address or data depends on leads to it, and it to loads of the store.
    pub through: usize,
}

/// How many helpers an operation has.
const HELPERS: usize = 5;

/// How many nodes the thin graph of so many operations has.
pub fn thin_nodes(count: usize) -> Option<usize> {
    count.checked_mul(HELPERS + 1)
}

/// The helpers of an operation among so many.
pub fn helpers_of(count: usize, x: usize) -> Helpers {
    Helpers {
        reads_before: count.saturating_add(x),
        writes_before: count.saturating_mul(2).saturating_add(x),
        reads_behind: count.saturating_mul(3).saturating_add(x),
        writes_behind: count.saturating_mul(4).saturating_add(x),
        through: count.saturating_mul(5).saturating_add(x),
    }
}

/// An edge, if it is wanted.
pub fn when(wanted: bool, from: usize, to: usize) -> Option<Edge> {
    if wanted {
        Some(Edge { from, to })
    } else {
        None
    }
}

/// Joins the helpers of an operation to those of the one before it in its program, of some kind.
pub fn follow(kind: Kind, x: usize, from: Helpers, to: Helpers) -> [Option<Edge>; 6] {
    [
        when(true, from.reads_before, to.reads_before),
        when(true, from.writes_before, to.writes_before),
        when(true, from.reads_behind, to.reads_behind),
        when(true, from.writes_behind, to.writes_behind),
        when(reads(kind), x, to.reads_before),
        when(is_write(kind), x, to.writes_before),
    ]
}

/// Leads through a fence.
pub fn through(fence: FenceOrder, here: Helpers) -> [Option<Edge>; 8] {
    let load_load = orders(fence, Kind::Load, Kind::Load);
    let load_store = orders(fence, Kind::Load, Kind::Store);
    let store_load = orders(fence, Kind::Store, Kind::Load);
    let store_store = orders(fence, Kind::Store, Kind::Store);
    [
        when(load_load, here.reads_before, here.reads_behind),
        when(load_store, here.reads_before, here.writes_behind),
        when(store_load, here.writes_before, here.reads_behind),
        when(store_store, here.writes_before, here.writes_behind),
        None,
        None,
        None,
        None,
    ]
}

/// Leads to a store conditional from the load reserved that it is paired with.
fn by_pair(note: Note, y: usize) -> Option<Edge> {
    match note.pair {
        Some(reserved) => when(true, reserved, y),
        None => None,
    }
}

/// Leads to an operation of a kind from what is to be before that, and by its annotations from all before
/// it and to the helpers of the next one, if there is one.
pub fn by_note(
    kind: Kind,
    note: Note,
    y: usize,
    rcsc: Option<Edge>,
    here: Helpers,
    next: Helpers,
    has_next: bool,
) -> [Option<Edge>; 8] {
    [
        when(reads(kind), here.reads_behind, y),
        when(is_write(kind), here.writes_behind, y),
        rcsc,
        when(note.acquire && has_next, y, next.reads_behind),
        when(note.acquire && has_next, y, next.writes_behind),
        when(note.release, here.reads_before, y),
        when(note.release, here.writes_before, y),
        by_pair(note, y),
    ]
}

/// Leads from what an operation depends on.
pub fn by_dependency(
    dependency: Dependency,
    here: Helpers,
    next: Helpers,
    has_next: bool,
) -> [Option<Edge>; 3] {
    let Dependency {
        on,
        operation,
        kind,
    } = dependency;
    if kind == DependencyKind::Control {
        return [when(true, on, here.writes_behind), None, None];
    }
    let is_address = kind == DependencyKind::Address;
    [
        when(true, on, operation),
        when(true, on, here.through),
        when(is_address && has_next, on, next.writes_behind),
    ]
}
