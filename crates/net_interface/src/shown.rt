//! What a processor shows.

ghost use Rattle.std.specs.Prelude.{◌≡◌, ◌<◌, ◌↔◌, Option, [], IsTrue, is_some};
ghost use Rattle.packet.specs.declared.kinds.Operation.{Operation};
ghost use Rattle.tag_table.specs.Tags.{holder_of, out_count};
ghost use Rattle.one_order.specs.Following.{is_finished};
ghost use Rattle.one_order.specs.ProcessorRecord.{ready};

use crate::processor::Processor;
use one_order::Answer;
use packet::Operation;
use std::alloc::Allocator;
use tag_table::{OpId, Tag};

impl<A: Allocator> Processor<A> {
    /// The operations that the processor has issued, in the order of issue.
    pub fn issued(&self) -> &[Operation]
        ensures { result.now ≡ self.now.agent.state.operations.issued }
    {
        self.operations.issued()
    }

    /// The answers that it has received, in the order of answering.
    pub fn answers(&self) -> &[Answer]
        ensures { result.now ≡ self.now.agent.state.operations.answers }
    {
        self.operations.answers()
    }

    /// The operation that holds a tag; None exactly where the tag isn't out.
    pub fn holder(&self, tag: Tag) -> Option<OpId>
        ensures { result ≡ holder_of self.now.agent.state.operations.tags tag.0 }
    {
        self.operations.holder(tag)
    }

    /// Whether no request is in course: the next flit that is sent begins one.
    pub fn is_between_requests(&self) -> bool
        ensures { IsTrue result ↔ (self.now.agent.state.to_put ≡ []) }
    {
        self.put == 0
    }

    /// Whether an operation of the script is ready, under a free tag.
    pub fn is_ready(&self) -> bool
        ensures { result ≡ is_some (ready self.now.agent.state.operations) }
    {
        self.operations.ready().is_some()
    }

    /// How many tags are out: of so many requests the reply has not come.
    pub fn outstanding(&self) -> u32
        ensures { result ≡ out_count self.now.agent.state.operations.tags }
    {
        self.operations.outstanding()
    }

    /// Whether the script is finished: all its operations are issued and answered, and no spin wants
    /// another load.
    pub fn is_finished(&self) -> bool
        ensures { result ≡ is_finished self.now.agent.state.operations.following }
    {
        self.operations.is_finished()
    }

    /// Whether the processor has reported that its script is finished.
    pub fn has_reported(&self) -> bool
        ensures { result ≡ self.now.agent.state.reported }
    {
        self.reported
    }

    /// Whether it has seen that all processors have reported.
    pub fn has_seen(&self) -> bool
        ensures { result ≡ self.now.agent.state.seen }
    {
        self.seen
    }
}
