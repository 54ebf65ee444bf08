//! Why a move may not be made.

ghost use Rattle.std.specs.Prelude.{◌≡◌, ◌<◌, ℕ, length, true, false, IfSome, IfNone};
ghost use Rattle.network_judge.specs.Replies.{reply_at};
ghost use Rattle.network_judge.specs.Verdicts.{AllArrive};
ghost use Rattle.network_judge.specs.Table.{channels_of};
ghost use Rattle.network_machine.specs.declared.moves.Move.TheVariants.{Send, More, Take, Put};
ghost use Rattle.network_machine.specs.declared.moves.Move.TheVariants.{Accept, Credit};
ghost use Rattle.network_machine.specs.Machine.{Settles, IsInReach};
ghost use Rattle.network_machine.specs.Outputs.{LacksAnswer, LacksNoAnswer, HasAnswers};

use crate::channel::{
    Channel, accept_hindrance, begin_hindrance, credit_hindrance, more_hindrance, take_hindrance,
};
use crate::flit::is_head;
use crate::machine::Machine;
use crate::moves::{Hindrance, Move, Packet};
use network_judge::Reply;
use network_judge::walk::{is_receiver, is_sender};
use std::alloc::Allocator;

/// Whether a reply is of channel x, and has no credit.
fn lacks_answer(replies: &[Reply], channels: &[Channel], place: usize, x: usize) -> bool
    requires { place < length replies.now }
    ensures yes { result ≡ true
        → LacksAnswer replies.now channels.now x (reply_at replies.now place).to }
    ensures no { result ≡ false → LacksNoAnswer replies.now channels.now x place }
{
    let reply = replies[place];
    if reply.from != x || reply.to >= channels.len() {
        return false;
    }
    channels[reply.to].held == 0
}

/// A channel on which the receiver of channel x answers, without a credit.
fn lacking_answer(replies: &[Reply], channels: &[Channel], x: usize) -> Option<usize>
    ensures some { IfSome result (LacksAnswer replies.now channels.now x) }
    ensures none { IfNone result (HasAnswers replies.now channels.now x) }
{
    for place in 0..replies.len() {
        if lacks_answer(replies, channels, place, x) {
            return Some(replies[place].to);
        }
    }
    None
}

impl<'a, A: Allocator> Machine<'a, A> {
    /// How many channels there are.
    pub fn channels(&self) -> usize
        ensures value { result ≡ length self.now.channels }
        ensures size { length self.now.channels ≡ channels_of self.now.table }
        ensures arrive { AllArrive self.now.table }
    {
        self.channels.len()
    }

    /// Why a sender can't begin a packet.
    fn send_hindrance(&self, packet: Packet) -> Option<Hindrance>
        requires { packet.from < length self.now.channels }
        ensures settles { Settles self.now (Send packet) result }
        ensures reach { IfNone result (IsInReach self.now (Send packet)) }
    {
        if !self.is_joined(packet.from, packet.to) {
            return Some(Hindrance::NotJoined(packet.from, packet.to));
        }
        if packet.length == 0 {
            return Some(Hindrance::NoFlit);
        }
        begin_hindrance(&self.channels[packet.from], packet.from)
    }

    /// Why a sender can't go on with its packet.
    fn go_on_hindrance(&self, x: usize) -> Option<Hindrance>
        requires { x < length self.now.channels }
        ensures { Settles self.now (More x) result }
    {
        if !is_sender(self.kind(x)) {
            return Some(Hindrance::NoInjection(x));
        }
        more_hindrance(&self.channels[x], x)
    }

    /// Why a router can't take a flit.
    fn latch_hindrance(&self, x: usize) -> Option<Hindrance>
        requires { x < length self.now.channels }
        ensures { Settles self.now (Take x) result }
    {
        if is_receiver(self.kind(x)) {
            return Some(Hindrance::Ejection(x));
        }
        take_hindrance(&self.channels[x], x)
    }

    /// Why a router can't put the flit in a latch.
    fn put_hindrance(&self, x: usize) -> Option<Hindrance>
        requires { x < length self.now.channels }
        ensures { Settles self.now (Put x) result }
    {
        match self.way_out(x) {
            Err(hindrance) => Some(hindrance),
            Ok((flit, y)) => {
                let output = &self.channels[y];
                if output.held == 0 {
                    return Some(Hindrance::NoCredit(y));
                }
                if !is_head(flit) {
                    return None;
                }
                match output.owner {
                    None => None,
                    Some(owner) => Some(Hindrance::Owned(y, owner)),
                }
            }
        }
    }

    /// Why a receiver can't take a flit.
    fn receiver_hindrance(&self, x: usize) -> Option<Hindrance>
        requires { x < length self.now.channels }
        ensures { Settles self.now (Accept x) result }
    {
        if !is_receiver(self.kind(x)) {
            return Some(Hindrance::NoEjection(x));
        }
        if let Some(y) = lacking_answer(self.replies, &self.channels, x) {
            return Some(Hindrance::NoAnswer(y));
        }
        accept_hindrance(&self.channels[x], x)
    }

    /// Why no credit comes back.
    fn return_hindrance(&self, x: usize) -> Option<Hindrance>
        requires { x < length self.now.channels }
        ensures { Settles self.now (Credit x) result }
    {
        credit_hindrance(&self.channels[x], x)
    }

    /// Why a move may not be made, in the states that the machine shows; none, if an event makes it.
    pub fn hindrance(&self, of: Move) -> Option<Hindrance>
        ensures settles { Settles self.now of result }
        ensures reach { IfNone result (IsInReach self.now of) }
        ensures arrive { AllArrive self.now.table }
    {
        if of.channel() >= self.channels() {
            return Some(Hindrance::NoChannel(of.channel()));
        }
        match of {
            Move::Send(packet) => self.send_hindrance(packet),
            Move::More(x) => self.go_on_hindrance(x),
            Move::Take(x) => self.latch_hindrance(x),
            Move::Put(x) => self.put_hindrance(x),
            Move::Accept(x) => self.receiver_hindrance(x),
            Move::Credit(x) => self.return_hindrance(x),
        }
    }
}
