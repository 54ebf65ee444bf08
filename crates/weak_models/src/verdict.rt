//! The rules of preserved program order, reasons of one operation before another, and the verdict.

use std::alloc::{Allocator, Global};

/// A rule of preserved program order, in the order of the manual's numbers 1 to 13.
#[derive(Clone, Copy)]
pub enum PreservedRule {
    /// 1: the second is a store on the first's word.
    SameWordStore,
    /// 2: loads on one word, with no store on it between them, that read different writes.
    DifferentReads,
    /// 3: the second is a load that reads what the first wrote, an atomic or a store conditional.
    AtomicSource,
    /// 4: a fence between them orders the first before the second.
    Fenced,
    /// 5: the first has an acquire annotation.
    Acquire,
    /// 6: the second has a release annotation.
    Release,
    /// 7: both have RCsc annotations.
    BothRcsc,
    /// 8: the second is a store conditional that is paired with the first.
    Paired,
    /// 9: the second has an address dependency on the first.
    AddressDependency,
    /// 10: the second has a data dependency on the first.
    DataDependency,
    /// 11: the second is a store behind a branch that depends on the first.
    ControlDependency,
    /// 12: the second is a load that reads what a store between them wrote, and that store has an
    /// address or data dependency on the first.
    ThroughStore,
    /// 13: the second is a store, and an operation between them has an address dependency on the
    /// first.
    BehindAddress,
}

/// Why one operation comes before another.
#[derive(Clone, Copy)]
pub enum Reason {
    /// A rule keeps their program order.
    Preserved(PreservedRule),
    /// The second read what the first wrote, and isn't of the same processor behind it.
    Read,
    /// The second is the write that follows in the word's order: on the first, or on the write that
    /// the first read.
    Overwritten,
    /// The first is a write of the second's processor before it on its word, and the second read an
    /// earlier one.
    Stale,
    /// The first is a store conditional, and the second a write of another processor behind what its
    /// load reserved read.
    Atomicity,
}

/// A step of a cycle.
#[derive(Clone, Copy)]
pub struct ReasonedStep {
    /// The operation that comes first.
    pub from: usize,
    /// The one that comes behind it.
    pub to: usize,
    /// Why it does.
    pub why: Reason,
}

/// What is found of a trace.
#[derive(Drop)]
pub enum RvwmoVerdict<A: Allocator = Global> {
    /// The turn of each operation in one global order that explains the trace.
    Ordered(Vec<usize, A>),
    /// Operations that come each before the next, and the last before the first: there is no such
    /// order.
    Cycle(Vec<ReasonedStep, A>),
}
