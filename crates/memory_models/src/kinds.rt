//! Operations of a trace, the rules of a memory model, and the verdict on a trace.

ghost use Rattle.std.specs.Prelude.{◌≡◌};
ghost use Rattle.memory_models.specs.Trace.{has, is_load, is_write, uses_word, rule_key};

use std::alloc::{Allocator, Global};

/// What an operation does.
#[derive(Clone, Copy, PartialEq, Eq)]
pub enum Kind {
    /// It reads its word.
    Load,
    /// It writes its word.
    Store,
    /// It reads its word and writes it, at once.
    Atomic,
    /// It has no word.
    Fence,
}

/// An operation of a trace.
#[derive(Clone, Copy)]
pub struct Operation {
    /// Who made it. An opening word is a store of a processor of its own.
    pub processor: usize,
    /// What it does.
    pub kind: Kind,
    /// The word.
    pub word: usize,
    /// Of a write its own place in the list of all words' writes; of a load the place of the write
    /// that it read.
    pub place: usize,
}

/// Some kinds of operations.
#[derive(Clone, Copy)]
pub struct Kinds {
    /// Loads are.
    pub load: bool,
    /// Stores are.
    pub store: bool,
    /// Atomics are.
    pub atomic: bool,
    /// Fences are.
    pub fence: bool,
}

/// A rule of a memory model: operations of these kinds stay before later ones of those kinds of the
/// same processor.
#[derive(Clone, Copy)]
pub struct Rule {
    /// The kinds of the earlier one.
    pub from: Kinds,
    /// The kinds of the later one.
    pub to: Kinds,
    /// Only if both are on one word.
    pub same_word: bool,
}

/// Why one operation comes before another.
#[derive(Clone, Copy, PartialEq, Eq)]
pub enum Why {
    /// The model keeps their program order.
    Program,
    /// The second read what the first wrote, and isn't of the same processor behind it.
    Read,
    /// The second is the write that follows in the word's order: on the first, or on the write that
    /// the first read.
    Overwritten,
    /// The first is a write of the second's processor before it on its word, and the second read an
    /// earlier one.
    Stale,
}

/// A step of a cycle.
#[derive(Clone, Copy)]
pub struct Step {
    /// The operation that comes first.
    pub from: usize,
    /// The one that comes behind it.
    pub to: usize,
}

/// What is found of a trace.
#[derive(Drop)]
pub enum Verdict<A: Allocator = Global> {
    /// The turn of each operation in one order that explains the trace.
    Ordered(Vec<usize, A>),
    /// Operations that come each before the next, and the last before the first: there is no such
    /// order.
    Cycle(Vec<Step, A>),
}

/// Whether a kind is among some.
pub fn has(kinds: Kinds, kind: Kind) -> bool
    ensures { result ≡ has kinds kind }
{
    match kind {
        Kind::Load => kinds.load,
        Kind::Store => kinds.store,
        Kind::Atomic => kinds.atomic,
        Kind::Fence => kinds.fence,
    }
}

/// Whether a kind is a load.
pub fn is_load(kind: Kind) -> bool
    ensures { result ≡ is_load kind }
{
    match kind {
        Kind::Load => true,
        Kind::Store => false,
        Kind::Atomic => false,
        Kind::Fence => false,
    }
}

/// Whether a kind writes.
pub fn is_write(kind: Kind) -> bool
    ensures { result ≡ is_write kind }
{
    match kind {
        Kind::Load => false,
        Kind::Store => true,
        Kind::Atomic => true,
        Kind::Fence => false,
    }
}

/// Whether a kind has a word.
pub fn uses_word(kind: Kind) -> bool
    ensures { result ≡ uses_word kind }
{
    match kind {
        Kind::Load => true,
        Kind::Store => true,
        Kind::Atomic => true,
        Kind::Fence => false,
    }
}

/// The word that a rule looks at, and 0 for a rule of all words.
pub fn rule_key(rule: Rule, operation: Operation) -> usize
    ensures { result ≡ rule_key rule operation }
{
    if rule.same_word { operation.word } else { 0 }
}
