//! Seats, and the calls that step by them.
ghost use Rattle.std.specs.Prelude.{◌≡◌, ◌≤◌, ◌↔◌, ◌⊎◌, ℕ, IsNone, IfSome, length, slice_get};
ghost use Rattle.fabric_rule.specs.Known.{word_after};
ghost use Rattle.fabric_rule.specs.Groups.{Extends};
ghost use Rattle.fabric.specs.Turns.{Sees};
ghost use Rattle.fabric.specs.Seats.{MovesSeats, Idles, Grows, IsNotMine, IsSeatOf, Learns};
ghost use Rattle.fabric.specs.Seats.{JoinsTo, Placed, mix_at};
ghost use Rattle.fabric.specs.Seats.{seat_knows, with_run};
ghost use Rattle.fabric.specs.Lawful.{HasLawfulRun, KeepsBothFirst};
ghost use Rattle.fabric.specs.declared.steps.Turned.TheVariants.{Moved, Idle, NotMine};

use crate::plays::{Both, Halves, Look, Merge, Note, take_in};
use crate::steps::{OneRun, Turned, turn_tile};
use crate::view::{Dealing, Knowledge};
use atomic_table::{Seat, Table};
use fabric_rule::SeatFlags;
use machine_core::{TileAgents, agent_kind, agent_tile};
use std::alloc::{Allocator, Global};
use std::marker::Model;
use torus::{Step, Torus};

/// A row of words that threads share, and the rule that it keeps.
#[derive(Drop)]
pub struct Fabric<A: Allocator = Global> {
    pub(crate) table: Table<(), Knowledge, Dealing, OneRun, A>,
    // The position in the row of the word of address 0, how many words the memory has, and how many
    // ports a router.
    pub(crate) base: usize,
    pub(crate) words: usize,
    pub(crate) ports: u32,
    // What was loaded of shape and words.
    pub(crate) torus: Torus,
    pub(crate) opening: Vec<u64, A>,
}

impl<A: Allocator> Model for Fabric<A> {
    ghost use Rattle.std.specs.Prelude.{◌≡◌, ◌+◌, ◌*◌, ◌<◌, ◌^◌, length};
    ghost use Rattle.torus.specs.Shape.{dims_of};
    ghost use Rattle.channel_number.specs.Order.{channel_count};
    ghost use Rattle.channel_number.specs.Ports.{port_count};
    ghost use Rattle.fabric_rule.specs.Known.{row_length};
    ghost use Rattle.fabric.specs.Seats.{Origin};

    ghost Value = { Origin };

    ghost view = { λ f. record {
      table = f.table.shared.table_id;
      load = f.table.shared.key.load;
    } };

    ghost invariant = { λ f.
        (f.base ≡ channel_count f.table.shared.key.load.shape * f.table.shared.key.load.depth)
        × (f.words ≡ length f.table.shared.key.load.opening)
        × (f.table.shared.table_id.words ≡ row_length f.table.shared.key.load)
        × (f.table.shared.table_id.slots ≡ 0) × (f.base + f.words < 2 ^ 32)
        × (f.ports ≡ port_count (dims_of f.table.shared.key.load.shape))
        × (f.torus ≡ f.table.shared.key.load.shape)
        × (f.opening.items ≡ f.table.shared.key.load.opening) };
}

/// Some tiles, and what is known of the row. Contracts see what it knows.
#[derive(Drop)]
pub struct TileSeat<A: Allocator = Global> {
    pub(crate) slots: Vec<Option<TileAgents<A>>, A>,
    pub(crate) seat: Seat<(), Knowledge>,
    // Which choices of its tiles' agents count as asleep.
    pub(crate) flags: SeatFlags<A>,
}

impl<A: Allocator> Model for TileSeat<A> {
    ghost use Rattle.fabric_rule.specs.Counted.{AreRight};
    ghost use Rattle.fabric.specs.Seats.{Knowing, seat_knows, Seated};

    ghost Value = { Knowing };

    ghost view = { λ s. seat_knows s.seat };

    ghost invariant = { λ s. Seated s.slots.items s.seat
        × AreRight s.seat.me.0.load s.seat.me.0.run s.seat.me.0.groups s.flags };
}

/// A seat with no tile, which only looks.
#[derive(Drop)]
pub struct ProbeSeat {
    pub(crate) seat: Seat<(), Knowledge>,
}

impl Model for ProbeSeat {
    ghost use Rattle.fabric.specs.Seats.{Knowing, seat_knows, Looking};

    ghost Value = { Knowing };

    ghost view = { λ s. seat_knows s.seat };

    ghost invariant = { λ s. Looking s.seat };
}

impl<A: Allocator> Fabric<A> {
    /// Attempts a step of one of the seat's tiles. `Moved`: perhaps steps of other tiles, and then this step,
    /// which was enabled there, are added to the run that the seat knows. `Idle`: the agent isn't ready for it,
    /// and the seat stays as it was; or steps of other tiles may be added, behind which the step isn't
    /// enabled. `NotMine` exactly where the step is of no tile of the seat, or its agent hasn't the choice;
    /// the seat stays as it was.
    #[inline(always)]
    pub fn turn(&self, seat: &mut TileSeat<A>, step: Step) -> Turned
        requires { IsSeatOf self.now seat.old }
        ensures moved { result ≡ Moved → MovesSeats seat.old step seat.new }
        ensures idle { result ≡ Idle → Idles seat.old step seat.new }
        ensures not_mine { (result ≡ NotMine) ↔ IsNotMine seat.old step }
        ensures unchanged { result ≡ NotMine → seat.new ≡ seat.old }
        ensures same { seat.new ≡ with_run seat.old seat.new.run }
        ensures later { Extends seat.new.run seat.old.run }
        ensures one_order { HasLawfulRun seat.new.load seat.new.run }
    {
        let number = agent_tile(step.agent) as usize;
        if number >= seat.slots.len() {
            return Turned::NotMine;
        }
        let Some(tile) = &mut seat.slots[number] else {
            return Turned::NotMine;
        };
        if !agent_kind(step.agent).has_choice(step.choice, self.ports) {
            return Turned::NotMine;
        }
        turn_tile(
            &self.table.shared,
            &mut seat.seat,
            &mut seat.flags,
            tile,
            step,
        )
    }

    // The memory word at an address, after the run that the seat knows then.
    fn look(&self, seat: &mut Seat<(), Knowledge>, address: usize) -> Option<u64>
        requires own { IsSeatOf self.now (seat_knows seat.old) }
        requires placed { Placed seat.old }
        ensures none { IsNone result ↔ (length self.now.load.opening ≤ address) }
        ensures word { IfSome result
            (λ n. n ≡ word_after seat.new.me.0.load seat.new.me.0.run address) }
        ensures sees { Sees seat.old seat.new }
    {
        if address >= self.words {
            return None;
        }
        Some(self.table.shared.load::<Look>(seat, self.base + address))
    }

    /// The memory word at an address, after the run that the seat knows then; None exactly where the
    /// address isn't below the number of words.
    pub fn probe(&self, seat: &mut ProbeSeat, address: usize) -> Option<u64>
        requires { IsSeatOf self.now seat.old }
        ensures none { IsNone result ↔ (length self.now.load.opening ≤ address) }
        ensures word { IfSome result (λ n. n ≡ word_after seat.new.load seat.new.run address) }
        ensures later { Grows seat.old seat.new }
    {
        self.look(&mut seat.seat, address)
    }

    /// The memory word at an address, after the run that a seat with tiles knows then; None exactly where
    /// the address isn't below the number of words.
    pub fn probe_as(&self, seat: &mut TileSeat<A>, address: usize) -> Option<u64>
        requires { IsSeatOf self.now seat.old }
        ensures none { IsNone result ↔ (length self.now.load.opening ≤ address) }
        ensures word { IfSome result (λ n. n ≡ word_after seat.new.load seat.new.run address) }
        ensures later { Grows seat.old seat.new }
        ensures one_order { HasLawfulRun seat.new.load seat.new.run }
    {
        self.look(&mut seat.seat, address)
    }
}

impl<A: Allocator> Fabric<A> {
    /// Each of the seats comes to know what either knew. What either then issues stands, once served,
    /// behind all that either knew as answered.
    pub fn meet(&self, one: TileSeat<A>, other: TileSeat<A>) -> (TileSeat<A>, TileSeat<A>)
        requires { IsSeatOf self.now one × IsSeatOf self.now other }
        ensures one { Learns one other result.0 }
        ensures other { Learns other one result.1 }
        ensures one_order { HasLawfulRun result.0.load result.0.run
            × HasLawfulRun result.1.load result.1.run }
        ensures answers_first { KeepsBothFirst one other result.0 ×
            KeepsBothFirst one other result.1 }
    {
        let TileSeat {
            slots,
            mut seat,
            flags,
        } = one;
        let TileSeat {
            slots: other_slots,
            seat: other_seat,
            flags: other_flags,
        } = other;
        let row = &self.table.shared;
        take_in(row, &mut seat, other_seat, self.base + self.words);
        let other_seat = row.split_seat::<Halves>(&mut seat);
        let one = TileSeat { slots, seat, flags };
        let other = TileSeat {
            slots: other_slots,
            seat: other_seat,
            flags: other_flags,
        };
        (one, other)
    }

    /// The probe seat comes to know what either knew.
    pub fn hear(&self, probe: ProbeSeat, other: TileSeat<A>) -> (ProbeSeat, TileSeat<A>)
        requires { IsSeatOf self.now probe × IsSeatOf self.now other }
        ensures probe { Learns probe other result.0 }
        ensures other { result.1 ≡ other }
    {
        let ProbeSeat { mut seat } = probe;
        let TileSeat {
            slots,
            seat: mut teller,
            flags,
        } = other;
        let row = &self.table.shared;
        let told = row.split_seat::<Note>(&mut teller);
        take_in(row, &mut seat, told, self.base + self.words);
        let probe = ProbeSeat { seat };
        let other = TileSeat {
            slots,
            seat: teller,
            flags,
        };
        (probe, other)
    }

    /// One seat with the tiles of both, which knows what either knew.
    pub fn join(&self, one: TileSeat<A>, other: TileSeat<A>) -> TileSeat<A>
        requires { IsSeatOf self.now one × IsSeatOf self.now other }
        ensures both { JoinsTo one other result }
        ensures ordered { Extends one.run other.run ⊎ Extends other.run one.run }
        ensures one_order { HasLawfulRun result.load result.run }
        ensures answers_first { KeepsBothFirst one other result }
    {
        let TileSeat {
            slots,
            mut seat,
            mut flags,
        } = one;
        let TileSeat {
            slots: other_slots,
            seat: other_seat,
            flags: _,
        } = other;
        let row = &self.table.shared;
        row.join_seat::<Both>(&mut seat, other_seat);
        row.load::<Merge>(&mut seat, self.base + self.words);
        let slots = mix(slots, other_slots);
        flags.rouse();
        TileSeat { slots, seat, flags }
    }
}

// The second's tiles go to the first's places.
fn mix<T: Drop, A: Allocator>(
    mut left: Vec<Option<T>, A>,
    mut right: Vec<Option<T>, A>,
) -> Vec<Option<T>, A>
    requires { length left.items ≡ length right.items }
    ensures len { length result.items ≡ length left.items }
    ensures slots { (k : ℕ)
        → slice_get result.items k ≡ mix_at (slice_get left.items k) (slice_get right.items k) }
{
    for i in 0..left.len() {
        if let Some(tile) = right[i].take() {
            left[i] = Some(tile);
        }
    }
    left
}
