//! What a seat tells of its tiles, and the end of a run.
ghost use Rattle.std.specs.Prelude.{◌≡◌, ◌↔◌, ◌≤◌, true, IsNone, IsTrue, IfSome, Some, length};
ghost use Rattle.std.specs.Prelude.{slice_get, is_some};
ghost use Rattle.std.specs.Option.{option_copied};
ghost use Rattle.torus.specs.Shape.{tiles_of};
ghost use Rattle.fabric_rule.specs.AbstractScripts.{AreFinished};
ghost use Rattle.fabric_rule.specs.Core.{after, run_of};
ghost use Rattle.fabric_rule.specs.Runs.{IsAcceptedLoad};
ghost use Rattle.fabric_rule.specs.Machine.{all_finished};
ghost use Rattle.fabric_rule.specs.Groups.{Owns};
ghost use Rattle.fabric.specs.Seats.{IsSeatOf, IsWhole, StandsAt};
ghost use Rattle.fabric.specs.Ending.{IsLongest, WasLongest, shown_after, slot_finished};
ghost use Rattle.fabric.specs.Lawful.{HasLawfulRun};

use crate::plays::Note;
use crate::seats::{Fabric, TileSeat};
use crate::view::Knowledge;
use atomic_table::{Closed, Seat};
use home_bank::Entry;
use machine_core::TileAgents;
use one_order::Answer;
use std::alloc::{Allocator, Global};
use std::marker::Model;
use torus::Torus;

impl<A: Allocator> TileSeat<A> {
    /// Whether every tile is the seat's.
    pub fn is_whole(&self) -> bool
        ensures { (result ≡ true) ↔ IsWhole self.now }
    {
        self.slots.iter().all(
            |slot|
                ensures { result ≡ is_some slot.now }
            { slot.is_some() },
        )
    }

    /// The answers of a processor, in the order of answering, after the run that the seat knows;
    /// `None` exactly where its tile isn't the seat's.
    pub fn answers(&self, processor: u32) -> Option<&[Answer]>
        ensures none { IsNone result ↔ (Owns self.now.tiles processor → ⊥) }
        ensures some { IfSome result
            (λ r. slice_get (shown_after self.now.load self.now.run).answers processor
            ≡ Some r.now) }
    {
        let number = processor as usize;
        if number >= self.slots.len() {
            return None;
        }
        let Some(own) = &self.slots[number] else {
            return None;
        };
        Some(own.answers())
    }
}

impl<A: Allocator> Fabric<A> {
    /// The end. The seat has every tile, so no other seat knows a longer run.
    pub fn close(self, seat: TileSeat<A>) -> Final<A>
        requires { IsSeatOf self seat × IsWhole seat }
        ensures known { result ≡ record { load = seat.load; run = seat.run } }
        ensures longest { IsLongest seat }
        ensures was_longest { WasLongest seat }
        ensures one_order { HasLawfulRun result.load result.run }
    {
        let Fabric {
            table,
            base,
            words: _,
            ports: _,
            torus,
            opening,
        } = self;
        let TileSeat {
            slots,
            mut seat,
            flags: _,
        } = seat;
        let behind = table.shared.split_seat::<Note>(&mut seat);
        let closed = table.close_with(seat);
        Final {
            slots,
            closed,
            base,
            torus,
            opening,
            behind,
        }
    }
}

/// What stands at the end. Contracts see of it the run behind it, and what was loaded.
pub struct Final<A: Allocator = Global> {
    slots: Vec<Option<TileAgents<A>>, A>,
    closed: Closed<(), A>,
    // The position in the row of the word of address 0.
    base: usize,
    torus: Torus,
    opening: Vec<u64, A>,
    // It has no bytes: it names the run.
    behind: Seat<(), Knowledge>,
}

impl<A: Allocator> Model for Final<A> {
    ghost use Rattle.std.specs.Prelude.{◌≡◌};
    ghost use Rattle.std.specs.Slots.{slots_items, slots_len, IsFull};
    ghost use Rattle.fabric_rule.specs.Known.{row_length};
    ghost use Rattle.fabric.specs.Ending.{Ended, ended, IsEnd};

    ghost Value = { Ended };

    ghost view = { λ f. ended f.behind.me.0 };

    ghost invariant = { λ f. IsEnd (ended f.behind.me.0) f.slots.items (slots_items f.closed.words)
        f.base f.torus f.opening.items
        × (slots_len f.closed.slots ≡ 0) × IsFull f.closed.words
        × (slots_len f.closed.words ≡ row_length f.behind.me.0.load) };
}

impl<A: Allocator> Drop for Final<A> {
    fn drop(self) {
        let Self {
            slots,
            closed,
            base: _,
            torus: _,
            opening,
            behind,
        } = self;
        drop(slots);
        drop(opening);
        drop(behind);
        closed.free();
    }
}

impl<A: Allocator> Final<A> {
    /// What was loaded was accepted, and the run behind the end is lawful: its operations have one
    /// legal order, that of the services, and every processor has followed its script.
    pub fn reached(&self)
        ensures accepted { IsAcceptedLoad self.now.load }
        ensures one_order { HasLawfulRun self.now.load self.now.run }
    {
        let _ = &self.slots;
    }

    /// The torus that was loaded.
    pub fn torus(&self) -> &Torus
        ensures { result.now ≡ self.now.load.shape }
    {
        &self.torus
    }

    /// The number of words that was loaded, 1 to 65536.
    pub fn words(&self) -> u32
        ensures { result ≡ length self.now.load.opening }
    {
        self.opening.len() as u32
    }

    /// The word that an address held at first; `None` exactly where there is no such address.
    pub fn opening(&self, address: u32) -> Option<u64>
        ensures { result ≡ slice_get self.now.load.opening address }
    {
        let at = address as usize;
        if at >= self.opening.len() {
            return None;
        }
        Some(self.opening[at])
    }

    /// A tile, as it stands at the end; `None` exactly where there is no such tile.
    fn tile(&self, number: u32) -> Option<&TileAgents<A>>
        ensures none { IsNone result ↔ (tiles_of self.now.load.shape ≤ number) }
        ensures some { IfSome result (λ x. StandsAt self.now.load self.now.run number x.now) }
        ensures accepted { IsAcceptedLoad self.now.load }
    {
        let at = number as usize;
        if at >= self.slots.len() {
            return None;
        }
        let Some(tile) = &self.slots[at] else {
            return None;
        };
        Some(tile)
    }

    /// A processor's answers, in the order of answering; `None` exactly where there is no such
    /// processor.
    pub fn answers(&self, processor: u32) -> Option<&[Answer]>
        ensures { option_copied result
            ≡ slice_get (shown_after self.now.load self.now.run).answers processor }
    {
        let Some(tile) = self.tile(processor) else {
            return None;
        };
        Some(tile.answers())
    }

    /// A bank's entries, in the order of its services; `None` exactly where there is no such bank.
    pub fn bank(&self, bank: u32) -> Option<&[Entry]>
        ensures { option_copied result
            ≡ slice_get (shown_after self.now.load self.now.run).entries bank }
    {
        let Some(tile) = self.tile(bank) else {
            return None;
        };
        Some(tile.entries())
    }

    /// The word of an address; `None` exactly where there is no such address.
    pub fn word(&self, address: u32) -> Option<u64>
        ensures { result ≡ slice_get (shown_after self.now.load self.now.run).memory address }
    {
        let at = address as usize;
        if at >= self.opening.len() {
            return None;
        }
        let place = self.base + at;
        Some(self.closed.word(place))
    }

    /// Whether every script is finished: all its operations are issued and answered, and no spin
    /// wants another load.
    pub fn finished(&self) -> bool
        ensures value { result ≡ all_finished (after self.now.load self.now.run) }
        ensures scripts { IsTrue result
            ↔ AreFinished (run_of self.now.load self.now.run) (length self.now.run)
            self.now.load.scripts }
    {
        self.slots.iter().all(
            |slot|
                ensures { result ≡ slot_finished slot.now }
            { slot_is_finished(slot) },
        )
    }
}

// Whether the script of a slot's tile is finished.
fn slot_is_finished<A: Allocator>(slot: &Option<TileAgents<A>>) -> bool
    ensures { result ≡ slot_finished slot.now }
{
    match slot {
        Some(tile) => tile.is_finished(),
        None => true,
    }
}
