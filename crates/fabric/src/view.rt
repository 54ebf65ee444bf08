//! What a seat at the table knows, and what is fixed when the table is made.

use atomic_table::Seat;
use std::marker::Model;

/// A run of the core, and the groups of tiles that are the seat's. No value of it is made.
pub struct Knowledge {
    unused: bool,
}

impl Model for Knowledge {
    ghost use Rattle.fabric_rule.specs.View.{View, blank};

    ghost Value = { View };

    ghost view = { λ v. blank };
}

/// What is loaded, and how its tiles are dealt. No value of it is made.
pub struct Picked {
    unused: bool,
}

impl Model for Picked {
    ghost use Rattle.fabric.specs.Key.{Opening, no_opening};

    ghost Value = { Opening };

    ghost view = { λ v. no_opening };
}

/// What is loaded, and how its tiles are dealt, in proofs alone: it has no bytes.
#[derive(Drop)]
pub struct Dealing {
    pub(crate) picked: Seat<(), Picked>,
}

impl Model for Dealing {
    ghost use Rattle.fabric.specs.Key.{Opening};

    ghost Value = { Opening };

    ghost view = { λ d. d.picked.me.0 };
}
