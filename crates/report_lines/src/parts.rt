//! The rows of a report, and the parts that it is made of.

ghost use Rattle.std.specs.Prelude.{◌≡◌, [], slice_index_or};
ghost use Rattle.report_lines.specs.Contents.{items_of};
ghost use Rattle.report_lines.specs.Parts.{contents_of};

use crate::line::OrderLine;
use crate::shows::Shows;
use packet::{Op, Reply};
use std::alloc::{Allocator, Global};
use torus::Torus;

/// An entry of a bank; where it stands says its bank and its place.
#[derive(Clone, Copy)]
pub struct EntryRow {
    /// The processor that asked.
    pub source: u32,
    /// The tag by which it asked.
    pub tag: u32,
    pub address: u32,
    pub op: Op,
    pub reply: Reply,
}

/// An answer of a processor; where it stands says of which one.
#[derive(Clone, Copy)]
pub struct AnswerRow {
    /// The number of the operation among those of its processor, below 4096.
    pub index: u32,
    pub bank: u32,
    pub place: u32,
    pub reply: Reply,
}

/// What a report is made of.
#[derive(Drop)]
pub struct Parts<A: Allocator = Global> {
    pub torus: Torus,
    /// The words at the beginning, by address.
    pub opening: Vec<u64, A>,
    /// The entries of each bank, in the order of their places.
    pub entries: Vec<Vec<EntryRow, A>, A>,
    /// The answers of each processor, in any order.
    pub answers: Vec<Vec<AnswerRow, A>, A>,
    /// The words at the end, by address.
    pub last: Vec<u64, A>,
    /// The entries in the order of service; none where order lines are not wanted.
    pub order: Vec<OrderLine, A>,
    /// Whether every script is finished.
    pub finished: bool,
}

/// The list at a place among some lists; none at all past the last one.
fn row_at<T, A: Allocator>(rows: &[Vec<T, A>], place: u32) -> &[T]
    ensures { result.now ≡ slice_index_or (items_of rows.now) place [] }
{
    match rows.get(place as usize) {
        Some(row) => row,
        None => &[],
    }
}

impl<A: Allocator> Shows for Parts<A> {
    ghost contents = { λ parts. contents_of parts };

    fn torus(&self) -> &Torus {
        &self.torus
    }

    fn words(&self) -> usize {
        self.opening.len()
    }

    fn opening(&self, address: u32) -> Option<u64> {
        self.opening.get(address as usize).copied()
    }

    fn entries(&self, bank: u32) -> usize {
        row_at(&self.entries, bank).len()
    }

    fn entry(&self, bank: u32, place: usize) -> Option<EntryRow> {
        row_at(&self.entries, bank).get(place).copied()
    }

    fn answers(&self, processor: u32) -> usize {
        row_at(&self.answers, processor).len()
    }

    fn answer(&self, processor: u32, number: usize) -> Option<AnswerRow> {
        row_at(&self.answers, processor).get(number).copied()
    }

    fn word(&self, address: u32) -> Option<u64> {
        self.last.get(address as usize).copied()
    }

    fn order_lines(&self) -> usize {
        self.order.len()
    }

    fn order_line(&self, number: usize) -> Option<OrderLine> {
        self.order.get(number).copied()
    }

    fn finished(&self) -> bool {
        self.finished
    }
}
