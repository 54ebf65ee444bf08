//! The receiving end of a channel, in four bytes.

ghost use Rattle.std.specs.Prelude.{◌≡◌, ◌^◌, ◌<◌, ◌≤◌, ◌==◌, if◌then◌else◌, vec_len, slice_index};
ghost use Rattle.std.specs.Prelude.{slice_set};
ghost use Rattle.flit_buffer.specs.Ends.{take_op, after_take};
ghost use Rattle.flit_buffer.specs.Tries.{take_place, flit_in};

use crate::ring::place_after;
use flit_buffer::WordOp;
use std::alloc::Allocator;
use std::marker::Model;

/// The receiving end of a channel of the network: which place is emptied next.
#[derive(Drop)]
pub(crate) struct Receiving {
    base: u16,
    next: u8,
    depth: u8,
}

impl Model for Receiving {
    ghost use Rattle.std.specs.Prelude.{◌<◌, ◌≤◌};
    ghost use Rattle.flit_buffer.specs.Ends.{ReceivingEnd};

    ghost Value = { ReceivingEnd };

    ghost view = { λ r. record { base = r.base; depth = r.depth; next = r.next } };

    ghost invariant = { λ r. (r.next < r.depth) × (r.depth ≤ 8) };
}

impl Default for Receiving {
    ghost is_default = { λ r. r ≡ record { base = 0; depth = 1; next = 0 } };

    /// Of a channel of one place.
    fn default() -> Self {
        Receiving {
            base: 0,
            next: 0,
            depth: 1,
        }
    }
}

impl Receiving {
    /// The receiving end of an empty channel, whose `depth` places stand from position `base` of
    /// the row on. The depth is 1 to 8.
    pub(crate) fn new(base: u16, depth: u8) -> Self
        requires some { 0 < depth }
        requires few { depth ≤ 8 }
        ensures { result ≡ record { base = base; depth = depth; next = 0 } }
    {
        Receiving {
            base,
            next: 0,
            depth,
        }
    }

    /// The position of the next place.
    #[inline(always)]
    fn place(&self) -> usize
        ensures value { result ≡ take_place self.now }
    {
        usize::from(self.base) + usize::from(self.next)
    }

    /// The swap with 0 that takes the flit of the next place.
    #[inline(always)]
    pub(crate) fn take_op(&self) -> WordOp
        ensures { result ≡ take_op self.now }
    {
        WordOp::Swap(self.place(), 0)
    }

    /// Takes the word that the swap of `take_op` found, and answers the flit; None exactly when the
    /// place was empty.
    #[inline(always)]
    pub(crate) fn take_got(&mut self, got: u64) -> Option<u64>
        ensures flit { result ≡ flit_in got }
        ensures after { self.new ≡ (if got == 0 then self.old else after_take self.old) }
    {
        if got == 0 {
            return None;
        }
        self.next = place_after(self.next, 1, self.depth);
        Some(got)
    }

    /// Takes the flit of the next place of a row; None exactly when the place is empty. This is the
    /// swap of `take_op`, with `take_got` of what it finds.
    #[inline(always)]
    pub(crate) fn take<A: Allocator>(&mut self, row: &mut Vec<u64, A>) -> Option<u64>
        requires { take_place self.old < vec_len row.old }
        ensures flit { result ≡ flit_in (slice_index row.old.items (take_place self.old)) }
        ensures after { self.new
            ≡ (if slice_index row.old.items (take_place self.old) == 0 then self.old
            else after_take self.old) }
        ensures row { row.new.items ≡ slice_set row.old.items (take_place self.old) 0 }
    {
        let place = self.place();
        let flit = self.take_got(row[place])?;
        row[place] = 0;
        Some(flit)
    }
}
