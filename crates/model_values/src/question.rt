//! A trace that gives no order of each word's writes, and the answer on it.

use memory_models::{Operation, Rule};
use std::alloc::{Allocator, Global};

/// A trace that gives no order of each word's writes.
#[derive(Clone, Copy)]
pub struct Unordered<'a> {
    /// The rules of the memory model.
    pub rules: &'a [Rule],
    /// The operations, opening stores first. Their places are not read.
    pub operations: &'a [Operation],
    /// The source of each operation, as its index in `operations`. A load's source is the write that
    /// it read. An atomic's source is the write just before it in its word's order. The entries of
    /// stores and fences are not read.
    pub sources: &'a [usize],
    /// How many words there are.
    pub words: usize,
    /// How many of the first operations are opening stores.
    pub openings: usize,
    /// The number from which on each load is a closing one: it read the last write of its word.
    pub closing: usize,
}

/// An order of each word's writes with which a trace obeys a memory model.
#[derive(Drop)]
pub struct Explanation<A: Allocator = Global> {
    /// The operations with their places.
    pub operations: Vec<Operation, A>,
    /// The writes of each word in an order.
    pub writes: Vec<usize, A>,
    /// The turn of each operation.
    pub turns: Vec<usize, A>,
}

/// Whether a trace obeys a memory model.
#[derive(Drop)]
pub enum OrderVerdict<A: Allocator = Global> {
    /// The trace obeys the model with this order of each word's writes.
    Obeys(Explanation<A>),
    /// No order of each word's writes makes the trace obey the model.
    Breaks,
    /// The search looked at as many tables as it may, and found neither.
    Undecided,
}
