//! What a seat learns by a look, and how views of seats are cut and joined.
ghost use Rattle.std.specs.Prelude.{◌≡◌, ◌<◌, []};
ghost use Rattle.fabric.specs.Turns.{LearnsBoth};

use crate::steps::Row;
use crate::view::Knowledge;
use atomic_table::{Join, Play, Seat, Split};

pub(crate) struct Look;

impl Play<(), Knowledge> for Look {
    ghost use Rattle.fabric.specs.Table.{looked};

    ghost then = { looked };
}

// The seat learns of all runs that it was told of.
pub(crate) struct Learn;

impl Play<(), Knowledge> for Learn {
    ghost use Rattle.fabric.specs.Table.{learned};

    ghost then = { learned };
}

// The seat learns of all runs that it was told of, and its groups become one.
pub(crate) struct Merge;

impl Play<(), Knowledge> for Merge {
    ghost use Rattle.fabric.specs.Table.{merged};

    ghost then = { merged };
}

pub(crate) struct Halves;

impl Split<Knowledge> for Halves {
    ghost use Rattle.fabric_rule.specs.Groups.{first_half, second_half};

    ghost left = { first_half };

    ghost right = { second_half };
}

pub(crate) struct Note;

impl Split<Knowledge> for Note {
    ghost use Rattle.fabric_rule.specs.Groups.{with_groups, note};

    ghost left = { λ v. with_groups v v.groups };

    ghost right = { note };
}

pub(crate) struct Both;

impl Join<Knowledge> for Both {
    ghost use Rattle.fabric_rule.specs.Groups.{both};
    ghost use Rattle.fabric_rule.specs.View.{blank};

    ghost both = { both };

    ghost spent = { blank };
}

// The first seat takes the other in, and learns at a word of the row of all that either knew.
pub(crate) fn take_in(
    row: &Row,
    seat: &mut Seat<(), Knowledge>,
    other: Seat<(), Knowledge>,
    word: usize,
)
    requires tables { (seat.old.table_id ≡ row.now.table_id) × (other.table_id ≡ row.now.table_id) }
    requires none_held { other.me.1 ≡ [] }
    requires word { word < row.now.table_id.words }
    ensures seat { (seat.new.table_id ≡ seat.old.table_id) × (seat.new.me.1 ≡ seat.old.me.1) }
    ensures learned { LearnsBoth seat.old.me.0 other.me.0 seat.new.me.0 }
{
    row.join_seat::<Both>(seat, other);
    row.load::<Learn>(seat, word);
}
