//! What a log says of operations beside their kinds: annotations, pairs, what fences order, and
//! dependencies.

ghost use Rattle.std.specs.Prelude.{◌≡◌};
ghost use Rattle.weak_models.specs.Notes.{note_at, reads, is_among, orders, is_rcsc, is_conditional};

use memory_models::kinds::is_write;
use memory_models::{Kind, Operation};

/// Some accesses of memory. An atomic reads and writes.
#[derive(Clone, Copy)]
pub struct Accesses {
    /// Those that read are.
    pub reads: bool,
    /// Those that write are.
    pub writes: bool,
}

/// What a fence keeps in order.
#[derive(Clone, Copy)]
pub enum FenceOrder {
    /// Its predecessors before its successors.
    Sets(Accesses, Accesses),
    /// What reads before all accesses, and what writes before what writes.
    Tso,
}

/// What a log says of an operation beside its kind.
#[derive(Clone, Copy)]
pub struct Note {
    /// It has an acquire annotation.
    pub acquire: bool,
    /// It has a release annotation.
    pub release: bool,
    /// Its annotations are RCpc, and else RCsc.
    pub rcpc: bool,
    /// Of a store conditional, the load reserved that it is paired with.
    pub pair: Option<usize>,
    /// Of a fence, what it keeps in order.
    pub fence: FenceOrder,
}

/// How an operation depends on another.
#[derive(Clone, Copy, PartialEq, Eq)]
pub enum DependencyKind {
    /// Its address comes of what the other read.
    Address,
    /// What it writes does.
    Data,
    /// A branch before it does.
    Control,
}

/// A dependency of an operation on one before it.
#[derive(Clone, Copy)]
pub struct Dependency {
    /// The operation that it depends on.
    pub on: usize,
    /// The operation that depends; of a branch the first one behind it.
    pub operation: usize,
    /// How.
    pub kind: DependencyKind,
}

/// An operation's note. Beyond the list, no annotation and a fence of all accesses.
pub fn note_of(notes: &[Note], x: usize) -> Note
    ensures { result ≡ note_at notes.now x }
{
    if x < notes.len() {
        return notes[x];
    }
    let all = Accesses {
        reads: true,
        writes: true,
    };
    Note {
        acquire: false,
        release: false,
        rcpc: false,
        pair: None,
        fence: FenceOrder::Sets(all, all),
    }
}

/// Whether a kind reads its word.
pub fn reads(kind: Kind) -> bool
    ensures { result ≡ reads kind }
{
    match kind {
        Kind::Load => true,
        Kind::Store => false,
        Kind::Atomic => true,
        Kind::Fence => false,
    }
}

/// Whether a kind is among some accesses.
fn is_among(accesses: Accesses, kind: Kind) -> bool
    ensures { result ≡ is_among accesses kind }
{
    (accesses.reads && reads(kind)) || (accesses.writes && is_write(kind))
}

/// Whether a fence keeps one kind before it before another behind it.
pub fn orders(fence: FenceOrder, first: Kind, second: Kind) -> bool
    ensures { result ≡ orders fence first second }
{
    match fence {
        FenceOrder::Sets(before, behind) => is_among(before, first) && is_among(behind, second),
        FenceOrder::Tso => {
            (reads(first) && (reads(second) || is_write(second)))
                || (is_write(first) && is_write(second))
        }
    }
}

/// Whether it has an RCsc annotation.
pub fn is_rcsc(note: Note) -> bool
    ensures { result ≡ is_rcsc note }
{
    (note.acquire || note.release) && !note.rcpc
}

/// Whether it is of a store conditional.
pub fn is_conditional(note: Note) -> bool
    ensures { result ≡ is_conditional note.pair }
{
    match note.pair {
        Some(_) => true,
        None => false,
    }
}
