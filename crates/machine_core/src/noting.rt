//! What is asked before a step, and what is noted of it: told by how many operations, answers and
//! entries its tile had before it.

ghost use Rattle.std.specs.Prelude.{◌≡◌, ◌<◌, length, false, IsTrue, Some, slice_get};
ghost use Rattle.one_order.specs.ProcessorRecord.{index_of};
ghost use Rattle.tile.specs.declared.agent.Agent.TheVariants.{Bank};
ghost use Rattle.tile.specs.Agents.{state_of};
ghost use Rattle.order_book.specs.RoomyBook.{KeepsRoom};
ghost use Rattle.machine_parts.specs.Placed.{HasRoomForEntry, PlacedTile};
ghost use Rattle.machine_parts.specs.Notes.{book_noted};
ghost use Rattle.machine_core.specs.Noted.{HasRoomToNote, IsOfFullBank, counts_of, records_in};

use machine_parts::TileAgents;
use order_book::EventBook;
use std::alloc::Allocator;
use tag_table::{OpId, Tag};
use torus::Choice;

/// Whether a choice of a bank is a service for the entry of which it has no room.
#[inline(always)]
pub fn lacks_room<A: Allocator>(agents: &TileAgents<A>, choice: Choice) -> bool
    ensures full { IsTrue result → IsOfFullBank agents.now choice }
    ensures room { result ≡ false → HasRoomForEntry agents.now Bank choice }
{
    match choice {
        Choice::Serve => agents.is_full(),
        _ => false,
    }
}

/// How many operations a tile's processor has issued and had answered, and how many requests its
/// bank has served.
#[derive(Clone, Copy)]
pub struct Counts {
    issued: usize,
    answers: usize,
    entries: usize,
}

impl Counts {
    /// Those of a tile now.
    pub fn of<A: Allocator>(agents: &TileAgents<A>) -> Counts
        ensures { result ≡ counts_of agents.now }
    {
        Counts {
            issued: agents.issued().len(),
            answers: agents.answers().len(),
            entries: agents.entries().len(),
        }
    }
}

/// The index of the operation that holds a tag of a tile's processor; 0 where none holds it.
pub(crate) fn holder<A: Allocator>(agents: &TileAgents<A>, tag: Tag) -> u32
    ensures { result ≡ index_of agents.now.place.processor.state.operations tag.0 }
{
    match agents.holder(tag) {
        Some(OpId(index)) => index,
        None => 0,
    }
}

/// Notes the event of a step at a tile, by the counts that the tile had before it.
pub fn note<A: Allocator>(
    tiles: &[TileAgents<A>],
    book: &mut EventBook<A>,
    tile: usize,
    before: Counts,
)
    requires tile { tile < length tiles.now }
    requires tiles { tile < 64 }
    requires room { HasRoomToNote tiles.now tile before book.old }
    ensures book { (v : PlacedTile) → slice_get tiles.now tile ≡ Some v
        → book.new.book ≡ book_noted tile (records_in tiles.now) before.issued before.answers
        before.entries (state_of v.place) book.old.book }
    ensures room { KeepsRoom book.old book.new }
{
    let agents = &tiles[tile];
    if before.issued < agents.issued().len() {
        book.note_issue(tile as u32);
    } else if let Some(answer) = agents.answers().get(before.answers) {
        book.note_answer(answer.bank, answer.place);
    } else if let Some(entry) = agents.entries().get(before.entries) {
        let index = holder(&tiles[entry.source as usize], entry.tag);
        book.note_service(tile as u32, entry.source, index);
    }
}
