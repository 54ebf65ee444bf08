//! Bounds of turns that preserved program order sets before an operation, and how they go on along a
//! program. They are guessed: a look at them proves what it says by true, and by false it says nothing.

ghost use Rattle.std.specs.Prelude.{◌≡◌, ◌<◌, ◌≤◌, true};
ghost use Rattle.weak_models.specs.Bounds.{bound_of, AreUnder, AreAtMost, IsBelowAll, IsBelowWrites};
ghost use Rattle.weak_models.specs.Bounds.{IsAhead, IsFenceAhead, GoOn, AreBehind, IsBehindBounds};
ghost use Rattle.weak_models.specs.Notes.{is_rcsc};
ghost use Rattle.memory_models.specs.Trace.{uses_word};
ghost use Rattle.memory_models.specs.declared.kinds.Kind.TheVariants.{Fence};

use crate::notes::{FenceOrder, Note, is_rcsc, orders};
use memory_models::Kind;
use memory_models::kinds::uses_word;

/// A bound for each kind of operations on words.
#[derive(Clone, Copy)]
pub struct ByKind {
    /// For loads.
    pub load: usize,
    /// For stores.
    pub store: usize,
    /// For atomics.
    pub atomic: usize,
}

/// What turns stand below, of the operations of a program before one; 0 where there are none.
#[derive(Clone, Copy)]
pub struct Bounds {
    /// Those of each kind.
    pub seen: ByKind,
    /// Those that fences, acquires and dependencies keep before each operation of a kind from here on.
    pub ahead: ByKind,
    /// Those with RCsc annotations.
    pub rcsc: usize,
    /// Those that the operation's address or data depends on.
    pub through: usize,
}

/// The bound for a kind.
pub fn bound_of(bounds: ByKind, kind: Kind) -> usize
    ensures { result ≡ bound_of bounds kind }
{
    match kind {
        Kind::Load => bounds.load,
        Kind::Store => bounds.store,
        Kind::Atomic => bounds.atomic,
        Kind::Fence => 0,
    }
}

/// Whether each bound is at most the other one of its kind.
fn are_under(low: ByKind, high: ByKind) -> bool
    ensures { result ≡ true → AreUnder low high }
{
    low.load <= high.load && low.store <= high.store && low.atomic <= high.atomic
}

/// Whether each bound is at most a turn.
fn are_at_most(bounds: ByKind, turn: usize) -> bool
    ensures { result ≡ true → AreAtMost bounds turn }
{
    bounds.load <= turn && bounds.store <= turn && bounds.atomic <= turn
}

/// Whether a turn is below the bounds of all kinds.
fn is_below_all(turn: usize, bounds: ByKind) -> bool
    ensures { result ≡ true → IsBelowAll turn bounds }
{
    turn < bounds.load && turn < bounds.store && turn < bounds.atomic
}

/// Whether a turn is below the bounds of what writes. True is proved, and false says nothing.
pub fn is_below_writes(turn: usize, bounds: ByKind) -> bool
    ensures { result ≡ true → IsBelowWrites turn bounds }
{
    turn < bounds.store && turn < bounds.atomic
}

/// Whether the bounds of the kinds that a fence orders behind one are no lower than a bound of that.
fn is_ahead(fence: FenceOrder, first: Kind, bound: usize, ahead: ByKind) -> bool
    ensures { result ≡ true → IsAhead fence first bound ahead }
{
    (!orders(fence, first, Kind::Load) || bound <= ahead.load)
        && (!orders(fence, first, Kind::Store) || bound <= ahead.store)
        && (!orders(fence, first, Kind::Atomic) || bound <= ahead.atomic)
}

/// Whether a fence sets its bounds, for what is before it.
fn is_fence_ahead(fence: FenceOrder, seen: ByKind, ahead: ByKind) -> bool
    ensures { result ≡ true → IsFenceAhead fence seen ahead }
{
    is_ahead(fence, Kind::Load, seen.load, ahead)
        && is_ahead(fence, Kind::Store, seen.store, ahead)
        && is_ahead(fence, Kind::Atomic, seen.atomic, ahead)
}

/// Whether a turn is below the bound of its kind, if that has one.
fn is_seen(kind: Kind, turn: usize, seen: ByKind) -> bool
    ensures { result ≡ true → uses_word kind ≡ true → turn < bound_of seen kind }
{
    !uses_word(kind) || turn < bound_of(seen, kind)
}

/// Whether an operation sets the bounds of a fence, if it is one.
fn is_fence_set(kind: Kind, fence: FenceOrder, seen: ByKind, ahead: ByKind) -> bool
    ensures { result ≡ true → kind ≡ Fence → IsFenceAhead fence seen ahead }
{
    kind != Kind::Fence || is_fence_ahead(fence, seen, ahead)
}

/// Whether a turn is below the bounds of all kinds, if it is that of an acquire.
fn is_acquire_set(note: Note, turn: usize, ahead: ByKind) -> bool
    ensures { result ≡ true → note.acquire ≡ true → IsBelowAll turn ahead }
{
    !note.acquire || is_below_all(turn, ahead)
}

/// Whether a turn is below a bound, if its operation has an RCsc annotation.
fn is_rcsc_set(note: Note, turn: usize, rcsc: usize) -> bool
    ensures { result ≡ true → is_rcsc note ≡ true → turn < rcsc }
{
    !is_rcsc(note) || turn < rcsc
}

/// Whether no bound falls.
fn go_on(old: Bounds, new: Bounds) -> bool
    ensures { result ≡ true → GoOn old new }
{
    are_under(old.seen, new.seen) && are_under(old.ahead, new.ahead) && old.rcsc <= new.rcsc
}

/// Whether bounds go on behind an operation of this kind, note and turn. True is proved, and false says
/// nothing.
pub fn are_behind(kind: Kind, note: Note, turn: usize, old: Bounds, new: Bounds) -> bool
    ensures { result ≡ true → AreBehind kind note turn old new }
{
    go_on(old, new)
        && is_seen(kind, turn, new.seen)
        && is_fence_set(kind, note.fence, old.seen, new.ahead)
        && is_acquire_set(note, turn, new.ahead)
        && is_rcsc_set(note, turn, new.rcsc)
}

/// Whether the turn of an operation of this kind and note is no lower than the bounds before it. True is
/// proved, and false says nothing.
pub fn is_behind_bounds(kind: Kind, note: Note, turn: usize, bounds: Bounds) -> bool
    ensures { result ≡ true → IsBehindBounds kind note turn bounds }
{
    bound_of(bounds.ahead, kind) <= turn
        && (!note.release || are_at_most(bounds.seen, turn))
        && (!is_rcsc(note) || bounds.rcsc <= turn)
}
