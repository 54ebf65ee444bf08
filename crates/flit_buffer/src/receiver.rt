ghost use Rattle.std.specs.Prelude.{◌≡◌, ◌^◌, ◌<◌, ◌≤◌, ◌==◌, if◌then◌else◌, vec_len, slice_index, slice_set};
ghost use Rattle.flit_buffer.specs.Ends.{take_op, after_take};
ghost use Rattle.flit_buffer.specs.Tries.{take_place, flit_in};

use crate::ring::place_after;
use crate::word_op::WordOp;
use std::alloc::Allocator;
use std::marker::Model;

/// The receiving end of a channel: which place is emptied next.
#[derive(Drop, Debug)]
pub struct Receiver {
    base: usize,
    depth: usize,
    next: usize,
}

impl Model for Receiver {
    ghost use Rattle.std.specs.Prelude.{◌^◌, ◌<◌, ◌≤◌};
    ghost use Rattle.flit_buffer.specs.Ends.{ReceivingEnd};

    ghost Value = { ReceivingEnd };

    ghost view = { λ r. record { base = r.base; depth = r.depth; next = r.next } };

    ghost invariant = { λ r. (r.next < r.depth) × (r.depth ≤ 8) × (r.base ≤ 2 ^ 32) };
}

impl Receiver {
    /// The receiving end of an empty channel, whose `depth` places stand from position `base` of
    /// the row on. The depth is 1 to 8, the base at most 2^32.
    pub fn new(base: usize, depth: usize) -> Self
        requires some { 0 < depth }
        requires few { depth ≤ 8 }
        requires low { base ≤ 2 ^ 32 }
        ensures { result ≡ record { base = base; depth = depth; next = 0 } }
    {
        Receiver {
            base,
            depth,
            next: 0,
        }
    }

    /// The swap with 0 that takes the flit of the next place.
    pub fn take_op(&self) -> WordOp
        ensures { result ≡ take_op self.now }
    {
        WordOp::Swap(self.base + self.next, 0)
    }

    /// Takes the word that the swap of `take_op` found, and answers the flit; None exactly when the
    /// place was empty.
    pub fn take_got(&mut self, got: u64) -> Option<u64>
        ensures flit { result ≡ flit_in got }
        ensures after { self.new ≡ (if got == 0 then self.old else after_take self.old) }
    {
        if got == 0 {
            return None;
        }
        self.next = place_after(self.next, 1, self.depth);
        Some(got)
    }

    /// Takes the flit of the next place of a row; None exactly when the place is empty. This is the
    /// swap of `take_op`, with `take_got` of what it finds.
    pub fn take<A: Allocator>(&mut self, row: &mut Vec<u64, A>) -> Option<u64>
        requires { take_place self.old < vec_len row.old }
        ensures flit { result ≡ flit_in (slice_index row.old.items (take_place self.old)) }
        ensures after { self.new
            ≡ (if slice_index row.old.items (take_place self.old) == 0 then self.old
            else after_take self.old) }
        ensures row { row.new.items ≡ slice_set row.old.items (take_place self.old) 0 }
    {
        let place = self.base + self.next;
        let flit = self.take_got(row[place])?;
        row[place] = 0;
        Some(flit)
    }
}
