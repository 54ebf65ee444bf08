//! The sending end of a channel, in six bytes.

ghost use Rattle.std.specs.Prelude.{◌≡◌, ◌^◌, ◌<◌, ◌≤◌, ◌==◌, nat_lt, if◌then◌else◌, vec_len};
ghost use Rattle.std.specs.Prelude.{slice_set};
ghost use Rattle.flit_buffer.specs.Ends.{put_op, credit_op, after_put, after_credit};
ghost use Rattle.flit_buffer.specs.Tries.{put_place, credit_place, is_credited};

use crate::ring::place_after;
use flit_buffer::WordOp;
use std::alloc::Allocator;
use std::marker::Model;

/// The sending end of a channel of the network: which place is filled next, and how many credits are held.
#[derive(Drop)]
pub(crate) struct Sending {
    base: u16,
    next: u8,
    // stands between the two that steps change: loaded as one, they wait for the store of either
    depth: u8,
    credits: u8,
}

impl Model for Sending {
    ghost use Rattle.std.specs.Prelude.{◌<◌, ◌≤◌};
    ghost use Rattle.flit_buffer.specs.Ends.{SendingEnd};

    ghost Value = { SendingEnd };

    ghost view = { λ s. record {
      base = s.base;
      depth = s.depth;
      next = s.next;
      credits = s.credits;
    } };

    ghost invariant = { λ s. (s.next < s.depth) × (s.credits ≤ s.depth) × (s.depth ≤ 8) };
}

impl Default for Sending {
    ghost is_default = { λ s. s ≡ record { base = 0; depth = 1; next = 0; credits = 0 } };

    /// Of a channel of one place, without a credit.
    fn default() -> Self {
        Sending {
            base: 0,
            next: 0,
            depth: 1,
            credits: 0,
        }
    }
}

impl Sending {
    /// The sending end of an empty channel, whose `depth` places stand from position `base` of the
    /// row on: all credits are held. The depth is 1 to 8.
    pub(crate) fn new(base: u16, depth: u8) -> Self
        requires some { 0 < depth }
        requires few { depth ≤ 8 }
        ensures { result ≡ record { base = base; depth = depth; next = 0; credits = depth } }
    {
        Sending {
            base,
            next: 0,
            depth,
            credits: depth,
        }
    }

    /// The position of the place that is filled next.
    #[inline(always)]
    fn place(&self) -> usize
        ensures value { result ≡ put_place self.now }
    {
        usize::from(self.base) + usize::from(self.next)
    }

    /// The position of the oldest place not yet credited.
    #[inline(always)]
    fn oldest(&self) -> usize
        ensures value { result ≡ credit_place self.now }
    {
        usize::from(self.base) + usize::from(place_after(self.next, self.credits, self.depth))
    }

    /// The store that puts a flit in the next place; None exactly when no credit is held.
    #[inline(always)]
    pub(crate) fn put_op(&self, flit: u64) -> Option<WordOp>
        ensures { result ≡ put_op self.now flit }
    {
        if self.credits > 0 {
            Some(WordOp::Store(self.place(), flit))
        } else {
            None
        }
    }

    /// Notes that the store of `put_op` was made.
    #[inline(always)]
    pub(crate) fn put_done(&mut self)
        requires { 0 < self.old.credits }
        ensures { self.new ≡ after_put self.old }
    {
        self.next = place_after(self.next, 1, self.depth);
        self.credits -= 1;
    }

    /// The load of the oldest place not yet credited; None exactly when all credits are held.
    #[inline(always)]
    pub(crate) fn credit_op(&self) -> Option<WordOp>
        ensures { result ≡ credit_op self.now }
    {
        if self.credits < self.depth {
            Some(WordOp::Load(self.oldest()))
        } else {
            None
        }
    }

    /// Takes the word that the load of `credit_op` found, and answers whether a credit came back: a
    /// cleared place is one.
    #[inline(always)]
    pub(crate) fn credit_got(&mut self, got: u64) -> bool
        requires { self.old.credits < self.old.depth }
        ensures came { result ≡ (got == 0) }
        ensures after { self.new ≡ (if got == 0 then after_credit self.old else self.old) }
    {
        if got == 0 {
            self.credits += 1;
            true
        } else {
            false
        }
    }

    /// Puts a flit in the next place of a row, and answers whether a credit was held: else nothing
    /// changes. This is the store of `put_op`, with `put_done`.
    #[inline(always)]
    pub(crate) fn put<A: Allocator>(&mut self, flit: u64, row: &mut Vec<u64, A>) -> bool
        requires { 0 < self.old.credits → put_place self.old < vec_len row.old }
        ensures done { result ≡ nat_lt 0 self.old.credits }
        ensures after { self.new
            ≡ (if nat_lt 0 self.old.credits then after_put self.old else self.old) }
        ensures row { row.new.items
            ≡ (if nat_lt 0 self.old.credits then slice_set row.old.items (put_place self.old) flit
            else row.old.items) }
    {
        if self.credits == 0 {
            return false;
        }
        let place = self.place();
        row[place] = flit;
        self.put_done();
        true
    }

    /// Looks in a row for a credit, and answers whether one came back. This is the load of
    /// `credit_op`, with `credit_got` of what it finds.
    #[inline(always)]
    pub(crate) fn credit<A: Allocator>(&mut self, row: &Vec<u64, A>) -> bool
        requires { self.old.credits < self.old.depth → credit_place self.old < vec_len row.now }
        ensures came { result ≡ is_credited self.old row.now.items }
        ensures after { self.new
            ≡ (if is_credited self.old row.now.items then after_credit self.old else self.old) }
    {
        if self.credits == self.depth {
            return false;
        }
        self.credit_got(row[self.oldest()])
    }
}
