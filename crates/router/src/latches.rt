//! The latches of a router, a word each.

ghost use Rattle.std.specs.Prelude.{◌≡◌, ◌≢◌, ◌<◌, ◌≤◌, length, replicate, slice_index_or};
ghost use Rattle.std.specs.Prelude.{slice_set, Some, None};

use crate::ports::{ByPort, filled};
use std::marker::Model;

/// The flit in the latch of each input.
#[derive(Drop)]
pub(crate) struct Latches {
    /// By input its flit, which is never 0, or 0.
    words: ByPort<u64>,
}

impl Model for Latches {
    ghost use Rattle.std.specs.Prelude.{ℕ, List, Option, map};
    ghost use Rattle.flit_buffer.specs.Tries.{flit_in};

    ghost Value = { List (Option ℕ) };

    ghost view = { λ l. map flit_in l.words.items };
}

impl Latches {
    /// Of so many inputs, all empty.
    #[tactic(auto, using(crate::proofs::Words::empty_latches))]
    pub(crate) fn new(count: usize) -> Latches
        requires { count ≤ 26 }
        ensures { result ≡ replicate count None }
    {
        Latches {
            words: filled(0, count),
        }
    }

    /// How many inputs there are.
    #[inline(always)]
    pub(crate) fn count(&self) -> usize
        ensures { result ≡ length self.now }
    {
        self.words.len()
    }

    /// The flit in the latch of an input.
    #[inline(always)]
    #[tactic(auto, using(crate::proofs::Words::latch_told))]
    pub(crate) fn flit(&self, input: u32) -> Option<u64>
        requires { input < length self.now }
        ensures { result ≡ slice_index_or self.now input None }
    {
        let word = self.words[input as usize];
        if word == 0 { None } else { Some(word) }
    }

    /// Puts a flit in the latch of an input.
    #[inline(always)]
    #[tactic(auto, using(crate::proofs::Words::filled_latch))]
    pub(crate) fn fill(&mut self, input: u32, flit: u64)
        requires input { input < length self.old }
        requires flit { flit ≢ 0 }
        ensures { self.new ≡ slice_set self.old input (Some flit) }
    {
        self.words[input as usize] = flit;
    }

    /// Empties the latch of an input.
    #[inline(always)]
    #[tactic(auto, using(crate::proofs::Words::emptied_latch))]
    pub(crate) fn clear(&mut self, input: u32)
        requires { input < length self.old }
        ensures { self.new ≡ slice_set self.old input None }
    {
        self.words[input as usize] = 0;
    }
}
