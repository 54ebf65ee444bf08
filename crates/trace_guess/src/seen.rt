//! Where a search has been: a table that forgets.

ghost use Rattle.std.specs.Prelude.{◌<◌, ◌≤◌, length};

use std::alloc::{AllocError, Allocator};

/// How many places the table has at most.
const PLACES: usize = 1 << 20;

/// Numbers that stand for where a search was, each at a place that it gives itself.
#[derive(Drop)]
pub(crate) struct Seen<A: Allocator> {
    pub table: Vec<u64, A>,
}

/// A number that looks drawn, of each number another.
pub(crate) fn scattered(number: u64) -> u64 {
    let product = number.wrapping_add(1).wrapping_mul(0x9E37_79B9_7F4A_7C15);
    (product ^ (product >> 32)).wrapping_mul(0xD6E8_FEB8_6659_FD93)
}

/// A table for a trace of so many events.
pub(crate) fn seen_of<A: Allocator>(alloc: A, events: usize) -> Result<Seen<A>, AllocError> {
    seen_with(alloc, events.saturating_mul(16).min(PLACES))
}

/// A table with so many places.
pub(crate) fn seen_with<A: Allocator>(alloc: A, places: usize) -> Result<Seen<A>, AllocError> {
    Ok(Seen {
        table: vec![in alloc; 0u64; places]?,
    })
}

impl<A: Allocator> Seen<A> {
    /// Notes a number. Says whether it was there.
    pub(crate) fn note(&mut self, number: u64) -> bool {
        let places = self.table.len();
        if places == 0 {
            return false;
        }
        let place = (number ^ (number >> 32)) as usize % places;
        if self.table[place] == number {
            return true;
        }
        self.table[place] = number;
        false
    }
}
