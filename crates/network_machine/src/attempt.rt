//! Moves that are attempted.

ghost use Rattle.std.specs.Prelude.{◌≡◌, ◌<◌, length, true, false, OnOk, OnErr, IfErr, IfSome};
ghost use Rattle.std.specs.Prelude.{IfNone};
ghost use Rattle.network_machine.specs.declared.moves.Move.TheVariants.{Send, More, Take, Put};
ghost use Rattle.network_machine.specs.declared.moves.Move.TheVariants.{Accept, Credit};
ghost use Rattle.network_machine.specs.Machine.{SameTables, MovesAll, Prevents, MakesAll};
ghost use Rattle.network_machine.specs.Machine.{IsInReach, KeepsOtherChannels};
ghost use Rattle.network_machine.specs.Outputs.{IsWayOut};
ghost use Rattle.network_judge.specs.Verdicts.{AllArrive};
ghost use Rattle.network_machine.specs.Moves.{move_channel, IsOfOneChannel, AsksChannelAlone};

use crate::flit::{is_head, is_tail};
use crate::machine::Machine;
use crate::moves::{Hindrance, Move, Packet};
use crate::steps::{accept_at, begin_at, credit_at, forward_known, send_more_at, take_at};
use network_judge::walk::{is_receiver, is_sender};
use std::alloc::Allocator;

/// Whether a move asks for what stands at its channel alone.
fn asks_channel_alone(of: Move) -> bool
    ensures { result ≡ true → AsksChannelAlone of }
{
    match of {
        Move::More(_) => true,
        Move::Take(_) => true,
        Move::Credit(_) => true,
        _ => false,
    }
}

impl<'a, A: Allocator> Machine<'a, A> {
    /// Begins a packet.
    fn make_send(&mut self, packet: Packet) -> bool
        requires { IsInReach self.old (Send packet) }
        ensures made { MakesAll self.old self.new (Send packet) result }
        ensures others { KeepsOtherChannels self.old self.new packet.from packet.from }
        ensures same { SameTables self.old self.new }
    {
        begin_at(&mut self.channels, packet)
    }

    /// Goes on with a packet.
    fn make_more(&mut self, x: usize) -> bool
        requires { IsInReach self.old (More x) }
        ensures made { MakesAll self.old self.new (More x) result }
        ensures others { KeepsOtherChannels self.old self.new x x }
        ensures stays { result ≡ false → self.new ≡ self.old }
        ensures same { SameTables self.old self.new }
    {
        if !is_sender(self.kind(x)) {
            return false;
        }
        send_more_at(&mut self.channels, x)
    }

    /// Takes a flit into a latch.
    fn make_take(&mut self, x: usize) -> bool
        requires { IsInReach self.old (Take x) }
        ensures made { MakesAll self.old self.new (Take x) result }
        ensures others { KeepsOtherChannels self.old self.new x x }
        ensures stays { result ≡ false → self.new ≡ self.old }
        ensures same { SameTables self.old self.new }
    {
        if is_receiver(self.kind(x)) {
            return false;
        }
        take_at(&mut self.channels, x)
    }

    /// Puts the flit from a latch into its output, channel y, if an event does.
    fn put_along(&mut self, x: usize, y: usize, flit: u64) -> bool
        requires { IsWayOut self.old.table self.old.channels x flit y }
        ensures made { MakesAll self.old self.new (Put x) result }
        ensures others { KeepsOtherChannels self.old self.new x y }
        ensures stays { result ≡ false → self.new ≡ self.old }
        ensures same { SameTables self.old self.new }
        ensures arrive { AllArrive self.old.table }
    {
        let head = is_head(flit);
        forward_known(
            &mut self.channels,
            &mut self.owned,
            x,
            y,
            flit,
            head,
            is_tail(flit),
        )
    }

    /// Puts the flit from a latch.
    fn make_put(&mut self, x: usize) -> bool
        requires { IsInReach self.old (Put x) }
        ensures made { MakesAll self.old self.new (Put x) result }
        ensures same { SameTables self.old self.new }
    {
        match self.way_out(x) {
            Err(_) => false,
            Ok((flit, y)) => self.put_along(x, y, flit),
        }
    }

    /// Takes a flit from an ejection channel.
    fn make_accept(&mut self, x: usize) -> bool
        requires { IsInReach self.old (Accept x) }
        ensures made { MakesAll self.old self.new (Accept x) result }
        ensures others { KeepsOtherChannels self.old self.new x x }
        ensures same { SameTables self.old self.new }
    {
        if !is_receiver(self.kind(x)) {
            return false;
        }
        accept_at(&mut self.channels, x)
    }

    /// Gives a credit back.
    fn make_credit(&mut self, x: usize) -> bool
        requires { IsInReach self.old (Credit x) }
        ensures made { MakesAll self.old self.new (Credit x) result }
        ensures others { KeepsOtherChannels self.old self.new x x }
        ensures stays { result ≡ false → self.new ≡ self.old }
        ensures same { SameTables self.old self.new }
    {
        credit_at(&mut self.channels, x)
    }

    /// Makes a move, if an event does.
    fn make(&mut self, of: Move) -> bool
        requires { IsInReach self.old of }
        ensures made { MakesAll self.old self.new of result }
        ensures others { IsOfOneChannel of
            → KeepsOtherChannels self.old self.new (move_channel of) (move_channel of) }
        ensures stays { AsksChannelAlone of → result ≡ false → self.new ≡ self.old }
        ensures same { SameTables self.old self.new }
    {
        match of {
            Move::Send(packet) => self.make_send(packet),
            Move::More(x) => self.make_more(x),
            Move::Take(x) => self.make_take(x),
            Move::Put(x) => self.make_put(x),
            Move::Accept(x) => self.make_accept(x),
            Move::Credit(x) => self.make_credit(x),
        }
    }

    /// Attempts to put the flit from a latch, and answers the channel into which it goes.
    fn try_put(&mut self, x: usize) -> Option<usize>
        ensures moves { IfSome result (λ y. MovesAll self.old self.new (Put x)) }
        ensures others { IfSome result (KeepsOtherChannels self.old self.new x) }
        ensures prevented { IfNone result (Prevents self.old (Put x)) }
        ensures stays { IfNone result (self.new ≡ self.old) }
        ensures same { SameTables self.old self.new }
    {
        if x >= self.channels.len() {
            return None;
        }
        let Ok((flit, y)) = self.way_out(x) else {
            return None;
        };
        if !self.put_along(x, y, flit) {
            return None;
        }
        Some(y)
    }

    /// Attempts a move that asks for what stands at its channel alone.
    fn try_alone(&mut self, of: Move) -> bool
        requires alone { AsksChannelAlone of }
        requires here { move_channel of < length self.old.channels }
        requires arrive { AllArrive self.old.table }
        ensures moves { result ≡ true → MovesAll self.old self.new of }
        ensures others { result ≡ true
            → KeepsOtherChannels self.old self.new (move_channel of) (move_channel of) }
        ensures prevented { result ≡ false → Prevents self.old of }
        ensures stays { result ≡ false → self.new ≡ self.old }
        ensures same { SameTables self.old self.new }
    {
        self.make(of)
    }

    /// Attempts another move than a put.
    fn try_here(&mut self, of: Move) -> bool
        requires { IsOfOneChannel of }
        ensures moves { result ≡ true → MovesAll self.old self.new of }
        ensures others { result ≡ true
            → KeepsOtherChannels self.old self.new (move_channel of) (move_channel of) }
        ensures prevented { result ≡ false → Prevents self.old of }
        ensures stays { result ≡ false → self.new ≡ self.old }
        ensures same { SameTables self.old self.new }
    {
        if asks_channel_alone(of) {
            if of.channel() < self.channels() {
                return self.try_alone(of);
            }
        }
        if !self.is_free(of) {
            return false;
        }
        let _made = self.make(of);
        true
    }

    /// Attempts a move, and answers, where it is made, another channel at which something changed, or
    /// its own where there is none. If it isn't made, nothing changes. It takes no memory.
    pub fn try_move(&mut self, of: Move) -> Option<usize>
        ensures moves { IfSome result (λ y. MovesAll self.old self.new of) }
        ensures others { IfSome result (KeepsOtherChannels self.old self.new (move_channel of)) }
        ensures prevented { IfNone result (Prevents self.old of) }
        ensures stays { IfNone result (self.new ≡ self.old) }
        ensures same { SameTables self.old self.new }
    {
        match of {
            Move::Put(x) => self.try_put(x),
            _ => {
                if self.try_here(of) {
                    Some(of.channel())
                } else {
                    None
                }
            }
        }
    }

    /// Attempts a move: where an event makes it, the machine shows the state after the event; where
    /// none does, nothing changes. It takes no memory.
    ///
    /// Errors: why the move may not be made.
    pub fn attempt(&mut self, of: Move) -> Result<(), Hindrance>
        ensures moves { OnOk result (MovesAll self.old self.new of) }
        ensures prevented { IfErr result (λ h. Prevents self.old of) }
        ensures stays { OnErr result (self.new ≡ self.old) }
        ensures same { SameTables self.old self.new }
    {
        if let Some(hindrance) = self.hindrance(of) {
            return Err(hindrance);
        }
        let _made = self.make(of);
        Ok(())
    }
}
