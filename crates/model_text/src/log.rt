//! What the lines of a log give.

ghost use Rattle.std.specs.Prelude.{◌≡◌, IfOk};
ghost use Rattle.model_text.specs.Made.{nothing_logged};
ghost use Rattle.model_text.specs.Views.{log_so_far};

use crate::annotation::Reservation;
use crate::logged::Logged;
use crate::rows::Rows;
use std::alloc::{AllocError, Allocator, Global};
use std::collections::BTreeMap;
use trace_lines::Head;
use weak_models::{Dependency, Note};

/// What the lines of a log give.
#[derive(Drop)]
pub struct Log<A: Allocator = Global> {
    /// The head: the line `log 1`, the number of words and the opening words.
    pub head: Head<A>,
    /// The numbers of addresses among those that operations are on.
    pub places: BTreeMap<u32, usize, A>,
    /// The addresses that operations are on, by their numbers.
    pub addresses: Vec<u32, A>,
    /// Of each processor the numbers of its operations, in program order; behind these a row for each
    /// final word.
    pub rows: Rows<A>,
    /// Of each word that occurs the numbers of its writes, in the word's order.
    pub orders: Rows<A>,
    /// The operations by number.
    pub made: Vec<Logged, A>,
    /// What `made` lines say of operations beside their kinds, by their numbers; pairs by numbers, too.
    pub notes: BTreeMap<usize, Note, A>,
    /// Of each processor its last load reserved; `None` where a store conditional came behind it.
    pub reserved: BTreeMap<u32, Option<Reservation>, A>,
    /// The dependencies, by the numbers of operations.
    pub dependencies: Vec<Dependency, A>,
    /// The final words, by address.
    pub finals: BTreeMap<u32, u64, A>,
}

impl<A: Allocator + Copy> Log<A> {
    /// Nothing is given.
    pub fn none(alloc: A) -> Result<Log<A>, AllocError>
        ensures { IfOk result (λ r. log_so_far r ≡ nothing_logged) }
    {
        let rows = Rows::empty(alloc, 4096)?;
        let orders = Rows::empty(alloc, 0)?;
        Ok(Log {
            head: Head::none(alloc),
            places: BTreeMap::new(alloc),
            addresses: Vec::new(alloc),
            rows,
            orders,
            made: Vec::new(alloc),
            notes: BTreeMap::new(alloc),
            reserved: BTreeMap::new(alloc),
            dependencies: Vec::new(alloc),
            finals: BTreeMap::new(alloc),
        })
    }
}
