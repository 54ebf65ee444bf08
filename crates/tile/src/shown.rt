//! What the agents of a tile show.

ghost use Rattle.std.specs.Prelude.{◌≡◌, ◌≤◌, ◌↔◌, [], length, IsTrue, is_some};
ghost use Rattle.tag_table.specs.Tags.{holder_of, out_count};
ghost use Rattle.one_order.specs.Following.{is_finished};
ghost use Rattle.one_order.specs.ProcessorRecord.{ready};
ghost use Rattle.router.specs.Table.{latch_of};

use crate::Answer;
use crate::agents::TileAgents;
use home_bank::Entry;
use packet::Operation;
use std::alloc::Allocator;
use tag_table::{OpId, Tag};

impl<A: Allocator> TileAgents<A> {
    /// The number of the tile.
    pub fn tile(&self) -> u32
        ensures { result ≡ self.now.place.tile }
    {
        self.tile
    }

    /// The depth of the channels.
    pub fn depth(&self) -> u32
        ensures { result ≡ self.now.place.design.depth }
    {
        self.depth
    }

    /// The operations that the processor has issued, in the order of issue.
    pub fn issued(&self) -> &[Operation]
        ensures { result.now ≡ self.now.place.processor.state.operations.issued }
    {
        self.processor.issued()
    }

    /// The answers that the processor has received, in the order of answering.
    pub fn answers(&self) -> &[Answer]
        ensures { result.now ≡ self.now.place.processor.state.operations.answers }
    {
        self.processor.answers()
    }

    /// The operation of the processor that holds a tag; None exactly where the tag isn't out.
    pub fn holder(&self, tag: Tag) -> Option<OpId>
        ensures { result ≡ holder_of self.now.place.processor.state.operations.tags tag.0 }
    {
        self.processor.holder(tag)
    }

    /// Whether no request of the processor is in course: the next flit that it sends begins one.
    pub fn is_between_requests(&self) -> bool
        ensures { IsTrue result ↔ (self.now.place.processor.state.to_put ≡ []) }
    {
        self.processor.is_between_requests()
    }

    /// How many tags of the processor are out.
    pub fn outstanding(&self) -> u32
        ensures { result ≡ out_count self.now.place.processor.state.operations.tags }
    {
        self.processor.outstanding()
    }

    /// Whether an operation of the processor's script is ready, under a free tag.
    pub fn is_ready(&self) -> bool
        ensures { result ≡ is_some (ready self.now.place.processor.state.operations) }
    {
        self.processor.is_ready()
    }

    /// The flit in the latch of an input of the router; `None` where the latch is empty, or there is no
    /// such input.
    #[inline(always)]
    pub fn latched(&self, input: u32) -> Option<u64>
        ensures { result ≡ latch_of self.now.place.router.state input }
    {
        self.router.latched(input)
    }

    /// Whether the processor's script is finished.
    pub fn is_finished(&self) -> bool
        ensures { result ≡ is_finished self.now.place.processor.state.operations.following }
    {
        self.processor.is_finished()
    }

    /// Whether the processor has seen that all processors have reported.
    pub fn has_seen(&self) -> bool
        ensures { result ≡ self.now.place.processor.state.seen }
    {
        self.processor.has_seen()
    }

    /// The entries of the bank, in the order of the services.
    pub fn entries(&self) -> &[Entry]
        ensures { result.now ≡ self.now.place.bank.state.entries }
    {
        self.bank.entries()
    }

    /// Whether the bank has room for no further entry.
    pub fn is_full(&self) -> bool
        ensures full { IsTrue result ↔ (length self.now.place.bank.state.entries ≡ self.now.room) }
        ensures within { length self.now.place.bank.state.entries ≤ self.now.room }
    {
        self.bank.is_full()
    }

    /// Whether the processor has reported that its script is finished.
    pub fn has_reported(&self) -> bool
        ensures { result ≡ self.now.place.processor.state.reported }
    {
        self.processor.has_reported()
    }

    /// For how many entries the bank has room.
    pub fn room(&self) -> usize
        ensures { result ≡ self.now.room }
    {
        self.bank.room()
    }
}
