ghost use Rattle.std.specs.Prelude.{◌≡◌, ◌^◌, ◌<◌, ◌≤◌, ◌==◌, nat_lt, if◌then◌else◌, vec_len, slice_set};
ghost use Rattle.flit_buffer.specs.Ends.{put_op, credit_op, after_put, after_credit};
ghost use Rattle.flit_buffer.specs.Tries.{put_place, credit_place, is_credited};

use crate::ring::place_after;
use crate::word_op::WordOp;
use std::alloc::Allocator;
use std::marker::Model;

/// The sending end of a channel: which place is filled next, and how many credits are held.
#[derive(Drop, Debug)]
pub struct Sender {
    base: usize,
    next: usize,
    // stands between the two that steps change: loaded as one, they wait for the store of either
    depth: usize,
    credits: usize,
}

impl Model for Sender {
    ghost use Rattle.std.specs.Prelude.{◌^◌, ◌<◌, ◌≤◌};
    ghost use Rattle.flit_buffer.specs.Ends.{SendingEnd};

    ghost Value = { SendingEnd };

    ghost view = { λ s. record {
      base = s.base;
      depth = s.depth;
      next = s.next;
      credits = s.credits;
    } };

    ghost invariant = { λ s. (s.next < s.depth) × (s.credits ≤ s.depth) × (s.depth ≤ 8)
        × (s.base ≤ 2 ^ 32) };
}

impl Sender {
    /// The sending end of an empty channel, whose `depth` places stand from position `base` of the
    /// row on: all credits are held. The depth is 1 to 8, the base at most 2^32.
    pub fn new(base: usize, depth: usize) -> Self
        requires some { 0 < depth }
        requires few { depth ≤ 8 }
        requires low { base ≤ 2 ^ 32 }
        ensures { result ≡ record { base = base; depth = depth; next = 0; credits = depth } }
    {
        Sender {
            base,
            depth,
            next: 0,
            credits: depth,
        }
    }

    /// The store that puts a flit in the next place; None exactly when no credit is held.
    pub fn put_op(&self, flit: u64) -> Option<WordOp>
        ensures { result ≡ put_op self.now flit }
    {
        if self.credits > 0 {
            Some(WordOp::Store(self.base + self.next, flit))
        } else {
            None
        }
    }

    /// Notes that the store of `put_op` was made.
    pub fn put_done(&mut self)
        requires { 0 < self.old.credits }
        ensures { self.new ≡ after_put self.old }
    {
        self.next = place_after(self.next, 1, self.depth);
        self.credits -= 1;
    }

    /// The load of the oldest place not yet credited; None exactly when all credits are held.
    pub fn credit_op(&self) -> Option<WordOp>
        ensures { result ≡ credit_op self.now }
    {
        if self.credits < self.depth {
            Some(WordOp::Load(self.base + place_after(self.next, self.credits, self.depth)))
        } else {
            None
        }
    }

    /// Takes the word that the load of `credit_op` found, and answers whether a credit came back: a
    /// cleared place is one.
    pub fn credit_got(&mut self, got: u64) -> bool
        requires { self.old.credits < self.old.depth }
        ensures came { result ≡ (got == 0) }
        ensures after { self.new ≡ (if got == 0 then after_credit self.old else self.old) }
    {
        if got == 0 {
            self.credits += 1;
            true
        } else {
            false
        }
    }

    /// Puts a flit in the next place of a row, and answers whether a credit was held: else nothing
    /// changes. This is the store of `put_op`, with `put_done`.
    pub fn put<A: Allocator>(&mut self, flit: u64, row: &mut Vec<u64, A>) -> bool
        requires { 0 < self.old.credits → put_place self.old < vec_len row.old }
        ensures done { result ≡ nat_lt 0 self.old.credits }
        ensures after { self.new
            ≡ (if nat_lt 0 self.old.credits then after_put self.old else self.old) }
        ensures row { row.new.items
            ≡ (if nat_lt 0 self.old.credits then slice_set row.old.items (put_place self.old) flit
            else row.old.items) }
    {
        if self.credits == 0 {
            return false;
        }
        row[self.base + self.next] = flit;
        self.put_done();
        true
    }

    /// Looks in a row for a credit, and answers whether one came back. This is the load of
    /// `credit_op`, with `credit_got` of what it finds.
    pub fn credit<A: Allocator>(&mut self, row: &Vec<u64, A>) -> bool
        requires { self.old.credits < self.old.depth → credit_place self.old < vec_len row.now }
        ensures came { result ≡ is_credited self.old row.now.items }
        ensures after { self.new
            ≡ (if is_credited self.old row.now.items then after_credit self.old else self.old) }
    {
        if self.credits == self.depth {
            return false;
        }
        self.credit_got(row[self.base + place_after(self.next, self.credits, self.depth)])
    }
}
