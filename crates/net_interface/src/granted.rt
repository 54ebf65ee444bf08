//! What follows in a processor once a want of it is granted.

ghost use Rattle.std.specs.Prelude.{◌≡◌, ◌≢◌, ◌<◌, ◌+◌, ◌==◌, if◌then◌else◌, ℕ, Option, unwrap_or};
ghost use Rattle.std.specs.Prelude.{true, IsSome};
ghost use Rattle.torus.specs.declared.step.Choice.TheVariants as chosen;
ghost use Rattle.packet.specs.Answer.{flits_left};
ghost use Rattle.packet.specs.declared.kinds.Operation.{Operation};
ghost use Rattle.packet.specs.Flits.{offered};
ghost use Rattle.flit_buffer.specs.Channel.{first_of, rest};
ghost use Rattle.one_order.specs.ProcessorRecord.{ready};
ghost use Rattle.one_order.specs.ProcessorTable.{request_flits, flits_due, issued_of, record_sent};
ghost use Rattle.one_order.specs.ProcessorTable.{record_offered, processor_wants, processor_after};
ghost use Rattle.net_interface.specs.Inside.{with_tag};
ghost use Rattle.net_interface.specs.Place.{with_state, IsForProcessor, IsAcceptableToProcessor};

use crate::processor::Processor;
use crate::record::Record;
use crate::requests::request_flits;
use flit_buffer::Want;
use packet::{Offered, Operation, Packet};
use std::alloc::Allocator;
use tag_table::Tag;
use torus::Choice;

/// With no flit put yet, the operation that is ready is issued: this is it, with the tag.
fn begin<A: Allocator>(operations: &mut Record<A>, put: usize, next: Option<(Tag, Operation)>)
    requires { put ≡ 0 → next ≡ with_tag (ready operations.old) }
    ensures { (tiles words tile : ℕ)
        → operations.new ≡ (if put == 0
        then issued_of tiles words tile (ready operations.old) operations.old
        else operations.old) }
{
    if put == 0 {
        if let Some((tag, operation)) = next {
            operations.issue(tag, operation);
        }
    }
}

impl<A: Allocator> Processor<A> {
    /// What follows in the processor once a want of a choice is granted.
    pub(crate) fn note(&mut self, choice: Choice, want: Want, learned: u64)
        requires wanted { processor_wants self.old.tiles self.old.words self.old.tile
            self.old.agent.state choice ≡ Some want }
        requires flit { IsAcceptableToProcessor self.old.agent.state choice learned }
        requires some { choice ≡ chosen.Take → learned ≢ 0 }
        ensures { self.new
            ≡ with_state self.old (processor_after self.old.tiles self.old.words self.old.tile
            self.old.agent.state choice want learned) }
    {
        match choice {
            Choice::Send => self.sent(),
            Choice::Take => self.taken(learned),
            Choice::Done => self.reported = true,
            Choice::Look => self.seen = true,
            _ => {}
        }
    }

    /// A flit is put: with no request in course it was a head, and the operation is issued.
    #[inline(never)]
    fn sent(&mut self)
        requires { IsSome
            (first_of (flits_due self.old.tiles self.old.words self.old.tile
            self.old.agent.state.to_put (ready self.old.agent.state.operations))) }
        ensures { self.new
            ≡ with_state self.old (record self.old.agent.state {
              operations = record_sent self.old.tiles self.old.words self.old.tile
                  self.old.agent.state.to_put self.old.agent.state.operations;
              to_put = rest (flits_due self.old.tiles self.old.words self.old.tile
                  self.old.agent.state.to_put (ready self.old.agent.state.operations));
            }) }
    {
        begin(&mut self.operations, self.put, self.next);
        let count = self.flits.len();
        if self.put + 1 < count {
            self.put += 1;
        } else {
            self.put = 0;
            self.next = self.operations.ready();
            self.flits = request_flits(self.tiles, self.tile, self.next);
        }
    }

    /// A flit is taken: where a reply is whole with it, the operation is answered, and its tag is free
    /// again.
    #[inline(never)]
    fn taken(&mut self, flit: u64)
        requires { IsForProcessor self.old.agent.state.operations
            (offered self.old.agent.state.so_far flit) }
        ensures { self.new
            ≡ with_state self.old (record self.old.agent.state {
              operations = record_offered self.old.tiles self.old.words self.old.tile
                  self.old.agent.state.operations (offered self.old.agent.state.so_far flit);
              so_far = flits_left (offered self.old.agent.state.so_far flit)
                  self.old.agent.state.so_far flit;
            }) }
    {
        match self.assembler.offer(flit) {
            Offered::More => self.begun = Some(self.begun.unwrap_or(flit)),
            Offered::Whole(packet) => {
                self.begun = None;
                if let Packet::Response(response) = packet {
                    self.operations.answer(response);
                    if self.put == 0 {
                        self.next = self.operations.ready();
                        self.flits = request_flits(self.tiles, self.tile, self.next);
                    }
                }
            }
            Offered::Refused(_) => {}
        }
    }
}
