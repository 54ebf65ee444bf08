//! What is kept of the lines so far.

ghost use Rattle.std.specs.Prelude.{◌≡◌, ◌≤◌, vec_len};

use packet::Reply;
use std::alloc::{Allocator, Global};

/// The greatest event number.
pub const EVENTS: u32 = 196608;

/// What is kept of an entry.
#[derive(Clone, Copy)]
pub struct Served {
    pub source: u32,
    pub reply: Reply,
    pub answered: bool,
}

/// What is kept of the lines so far.
#[derive(Drop)]
pub struct Checker<A: Allocator = Global> {
    /// The kind of the last line, from 1 for the first line to 8 for the end; 0 before the first.
    pub section: u8,
    pub version: u32,
    pub tiles: u32,
    pub words: u32,
    /// The words by address.
    pub memory: Vec<u64, A>,
    /// One more than the address of the last `init` line.
    pub next_init: u64,
    pub last_bank: u32,
    pub entry_count: u64,
    /// Whether some entry is one of and, or, xor, max and min.
    pub has_newer: bool,
    /// The entries of each bank.
    pub banks: Vec<Vec<Served, A>, A>,
    /// One more than the key of the last answer.
    pub next_answer: u64,
    /// One more than the address of the last `word` line.
    pub next_word: u64,
    /// One more than the last number of service.
    pub next_served: u64,
    /// How many order lines each bank has.
    pub ordered: Vec<u64, A>,
    /// Which event numbers are named.
    pub used: Vec<bool, A>,
    ghost memory_sized: { vec_len memory ≡ words },
    ghost banks_sized: { vec_len banks ≡ tiles },
    ghost ordered_sized: { vec_len ordered ≡ tiles },
    ghost used_sized: { vec_len used ≡ 196609 },
    ghost few_words: { words ≤ 65536 },
    ghost few_tiles: { tiles ≤ 64 },
}
