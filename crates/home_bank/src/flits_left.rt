//! The flits of a packet that are not put yet.

ghost use Rattle.std.specs.Prelude.{◌≡◌, ◌≢◌, [], ◌∷◌};
ghost use Rattle.flit_buffer.specs.Channel.{first_of, rest};
ghost use Rattle.home_bank.specs.BankTable.{is_nil};

use arrayvec::ArrayVec;
use std::marker::Model;

/// The flits of a packet that are left to be put.
#[derive(Drop)]
pub(crate) struct FlitsLeft {
    flits: ArrayVec<u64, 5>,
    next: usize,
}

/// Contracts see the flits that are left.
impl Model for FlitsLeft {
    ghost use Rattle.std.specs.Prelude.{List, ℕ, ◌≤◌, length, drop};

    ghost Value = { List ℕ };

    ghost view = { λ a. drop a.next a.flits.items };

    ghost invariant = { λ a. a.next ≤ length a.flits.items };
}

impl FlitsLeft {
    /// No flit is left.
    pub(crate) fn none() -> FlitsLeft
        ensures { result ≡ [] }
    {
        FlitsLeft {
            flits: ArrayVec::new(),
            next: 0,
        }
    }

    /// All these flits are left.
    pub(crate) fn all_of(flits: ArrayVec<u64, 5>) -> FlitsLeft
        ensures { result ≡ flits.items }
    {
        FlitsLeft { flits, next: 0 }
    }

    /// The next flit; None exactly when none is left.
    pub(crate) fn first(&self) -> Option<u64>
        ensures { result ≡ first_of self.now }
    {
        self.flits.get(self.next).copied()
    }

    /// Whether no flit is left.
    pub(crate) fn is_empty(&self) -> bool
        ensures { result ≡ is_nil self.now }
    {
        self.next == self.flits.len()
    }

    /// The next flit is put, if one is left.
    pub(crate) fn pass(&mut self)
        ensures { self.new ≡ rest self.old }
    {
        if self.next < self.flits.len() {
            self.next += 1;
        }
    }
}
