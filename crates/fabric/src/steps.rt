//! The atomic operations on the row.
ghost use Rattle.std.specs.Prelude.{◌≡◌, ◌≢◌, ◌<◌, IsTrue, true, false, Some, []};
ghost use Rattle.tile.specs.Agents.{tile_next_op};
ghost use Rattle.fabric_rule.specs.Runs.{IsAcceptedLoad};
ghost use Rattle.fabric_rule.specs.Known.{tile_of, enabled, row_length};
ghost use Rattle.fabric_rule.specs.Groups.{In};
ghost use Rattle.fabric_rule.specs.Rule.{Attempted};
ghost use Rattle.fabric.specs.Seats.{StandsAt};
ghost use Rattle.fabric_rule.specs.Counted.{AreRight, Falls};
ghost use Rattle.fabric.specs.Turns.{StepMoves, StepIdles, SeesIdle, Sees, OnlyTile, has_choice};
ghost use Rattle.fabric.specs.declared.steps.Turned.TheVariants.{Moved, Idle, NotMine};

use crate::plays::Look;
use crate::view::{Dealing, Knowledge};
use atomic_table::{Play, Seat, Shared, TableRule};
use fabric_rule::SeatFlags;
use flit_buffer::WordOp;
use machine_core::{TileAgents, agent_kind};
use std::alloc::Allocator;
use std::marker::{Brand, PhantomData};
use tile::Agent;
use torus::{Step, Stepped};

/// The rule of the shared row.
pub struct OneRun;

impl TableRule<(), Knowledge, Dealing> for OneRun {
    ghost use Rattle.fabric.specs.Table.{Holds};
    ghost use Rattle.fabric.specs.Key.{first_view};

    ghost holds = { λ key. Holds key.load };

    ghost first = { first_view };
}

/// The shared row.
pub type Row = Shared<(), Knowledge, Dealing, OneRun>;

/// A turn: what the seat knows as it begins, the step that is attempted, and its tile in its place. Each turn
/// picks them. That a seat still knows what it knew is its leave to make the turn's one operation: after that
/// its run may have grown, so it has none for a second.
pub trait Turning {
    ghost use Rattle.torus.specs.declared.step.Step.{Step};
    ghost use Rattle.tile.specs.Agents.{TilePlace};
    ghost use Rattle.fabric_rule.specs.View.{View};

    ghost view: { View };

    ghost step: { Step };

    ghost place: { TilePlace };
}

impl Turning for Brand {
    ghost use Rattle.fabric_rule.specs.View.{blank};
    ghost use Rattle.fabric.specs.Key.{no_step, no_place};

    ghost view = { blank };

    ghost step = { no_step };

    ghost place = { no_place };
}

struct Attempt<B> {
    of: PhantomData<B>,
}

impl<B: Turning> Play<(), Knowledge> for Attempt<B> {
    ghost use Rattle.fabric.specs.Table.{attempted};

    ghost then = { attempted B.view B.step B.place };
}

// The operation of a step of the tile, as its agent has it.
#[inline(always)]
fn tile_op<A: Allocator>(tile: &TileAgents<A>, step: Step) -> Option<WordOp>
    requires { tile.now.place.tile ≡ tile_of step }
    ensures { result ≡ tile_next_op tile.now.place step }
{
    match agent_kind(step.agent) {
        Agent::Processor => tile.processor_op(step.choice),
        Agent::Router => tile.router_op(step.choice),
        Agent::Bank => tile.bank_op(step.choice),
    }
}

// Makes the operation, the turn's only one. At a store the answer is what was stored.
#[inline(always)]
fn perform<A: Allocator, B: Turning>(
    row: &Row,
    seat: &mut Seat<(), Knowledge>,
    step: Step,
    tile: &TileAgents<A>,
    op: WordOp,
) -> u64
    requires turning { seat.old.me.0 ≡ B.view }
    requires picked { (B.step ≡ step) × (B.place ≡ tile.now.place) }
    requires table { (seat.old.table_id ≡ row.now.table_id)
        × (row.now.table_id.words ≡ row_length B.view.load) }
    requires load { IsAcceptedLoad B.view.load }
    requires seat { (B.view.live ≡ true) × (B.view.told ≡ []) × In B.view.groups (tile_of B.step) }
    requires tile { StandsAt B.view.load B.view.run (tile_of step) tile.now }
    requires op { Some op ≡ tile_next_op tile.now.place step }
    ensures seat { (seat.new.table_id ≡ seat.old.table_id) × (seat.new.id ≡ seat.old.id)
        × (seat.new.me.1 ≡ seat.old.me.1) }
    ensures told { Attempted B.step B.place seat.old.me.0 result seat.new.me.0 }
{
    let _ = step;
    let _ = tile;
    match op {
        WordOp::Load(word) => row.load::<Attempt<B>>(seat, word),
        WordOp::Store(word, value) => {
            row.store::<Attempt<B>>(seat, word, value);
            value
        }
        WordOp::Swap(word, value) => row.swap::<Attempt<B>>(seat, word, value),
        WordOp::Cas(word, expected, new) => {
            row.compare_exchange::<Attempt<B>>(seat, word, expected, new)
        }
        WordOp::Add(word, value) => row.fetch_add::<Attempt<B>>(seat, word, value),
        WordOp::And(word, value) => row.fetch_and::<Attempt<B>>(seat, word, value),
        WordOp::Or(word, value) => row.fetch_or::<Attempt<B>>(seat, word, value),
        WordOp::Xor(word, value) => row.fetch_xor::<Attempt<B>>(seat, word, value),
        WordOp::Max(word, value) => row.fetch_max::<Attempt<B>>(seat, word, value),
        WordOp::Min(word, value) => row.fetch_min::<Attempt<B>>(seat, word, value),
    }
}

/// What a turn came to.
#[derive(Clone, Copy, PartialEq, Eq)]
pub enum Turned {
    /// The step was enabled and was made.
    Moved,
    /// The step was not enabled.
    Idle,
    /// The step is of no agent of the seat, or of one without that choice.
    NotMine,
}

// Where the attempt is a take that no other seat can disturb, looks at its place first. Whether there is no
// flit: then the attempt isn't enabled.
#[inline(always)]
fn finds_no_flit<A: Allocator>(
    row: &Row,
    seat: &mut Seat<(), Knowledge>,
    flags: &SeatFlags<A>,
    tile: &TileAgents<A>,
    step: Step,
    op: WordOp,
) -> bool
    requires table { (seat.old.table_id ≡ row.now.table_id)
        × (row.now.table_id.words ≡ row_length seat.old.me.0.load) }
    requires load { IsAcceptedLoad seat.old.me.0.load }
    requires seat { (seat.old.me.0.live ≡ true) × (seat.old.me.0.told ≡ [])
        × In seat.old.me.0.groups (tile_of step) }
    requires tile { StandsAt seat.old.me.0.load seat.old.me.0.run (tile_of step) tile.now }
    requires op { Some op ≡ tile_next_op tile.now.place step }
    requires agent { step.agent < 192 }
    ensures sees { Sees seat.old seat.new }
    ensures idle { IsTrue result → enabled seat.new.me.0.load seat.new.me.0.run step ≡ false }
{
    let _ = tile;
    if !flags.is_inner_take(step) {
        return false;
    }
    row.load::<Look>(seat, op.word()) == 0
}

// Attempts the step of the tile by its operation, of which the seat knows what it knew before.
#[inline(always)]
fn attempt_op<A: Allocator, B: Turning>(
    row: &Row,
    seat: &mut Seat<(), Knowledge>,
    flags: &mut SeatFlags<A>,
    tile: &mut TileAgents<A>,
    step: Step,
    op: WordOp,
) -> Turned
    requires turning { seat.old.me.0 ≡ B.view }
    requires picked { (B.step ≡ step) × (B.place ≡ tile.old.place) }
    requires table { (seat.old.table_id ≡ row.now.table_id)
        × (row.now.table_id.words ≡ row_length B.view.load) }
    requires load { IsAcceptedLoad B.view.load }
    requires seat { (B.view.live ≡ true) × (B.view.told ≡ []) × In B.view.groups (tile_of B.step) }
    requires tile { StandsAt B.view.load B.view.run (tile_of step) tile.old }
    requires op { Some op ≡ tile_next_op tile.old.place step }
    requires flags { AreRight B.view.load B.view.run B.view.groups flags.old }
    requires choice { has_choice B.view.load.shape step ≡ true }
    ensures seat { (seat.new.table_id ≡ seat.old.table_id) × (seat.new.id ≡ seat.old.id)
        × (seat.new.me.1 ≡ seat.old.me.1) }
    ensures tile { StandsAt seat.new.me.0.load seat.new.me.0.run (tile_of step) tile.new }
    ensures moved { result ≡ Moved → StepMoves seat.old.me.0 step seat.new.me.0 }
    ensures idle { result ≡ Idle → SeesIdle seat.old.me.0 step seat.new.me.0 }
    ensures mine { result ≢ NotMine }
    ensures rest { OnlyTile seat.old.me.0 (tile_of step) seat.new.me.0 }
    ensures flags { AreRight seat.new.me.0.load seat.new.me.0.run seat.new.me.0.groups flags.new }
    ensures falls { result ≡ Idle → Falls step flags.old flags.new }
{
    let found = perform::<A, B>(row, seat, step, tile, op);
    match tile.absorb(step, found) {
        Stepped::Moved => {
            flags.moved(step, op);
            Turned::Moved
        }
        Stepped::Idle => {
            flags.rests(step);
            Turned::Idle
        }
    }
}

// Attempts the step of the tile.
#[inline(always)]
pub(crate) fn turn_tile<A: Allocator>(
    row: &Row,
    seat: &mut Seat<(), Knowledge>,
    flags: &mut SeatFlags<A>,
    tile: &mut TileAgents<A>,
    step: Step,
) -> Turned
    requires table { (seat.old.table_id ≡ row.now.table_id)
        × (row.now.table_id.words ≡ row_length seat.old.me.0.load) }
    requires load { IsAcceptedLoad seat.old.me.0.load }
    requires seat { (seat.old.me.0.live ≡ true) × (seat.old.me.0.told ≡ [])
        × In seat.old.me.0.groups (tile_of step) }
    requires tile { StandsAt seat.old.me.0.load seat.old.me.0.run (tile_of step) tile.old }
    requires flags { AreRight seat.old.me.0.load seat.old.me.0.run seat.old.me.0.groups flags.old }
    requires choice { has_choice seat.old.me.0.load.shape step ≡ true }
    ensures seat { (seat.new.table_id ≡ seat.old.table_id) × (seat.new.me.1 ≡ seat.old.me.1) }
    ensures tile { StandsAt seat.new.me.0.load seat.new.me.0.run (tile_of step) tile.new }
    ensures moved { result ≡ Moved → StepMoves seat.old.me.0 step seat.new.me.0 }
    ensures idle { result ≡ Idle → StepIdles seat.old.me.0 step seat.new.me.0 }
    ensures mine { result ≢ NotMine }
    ensures rest { OnlyTile seat.old.me.0 (tile_of step) seat.new.me.0 }
    ensures flags { AreRight seat.new.me.0.load seat.new.me.0.run seat.new.me.0.groups flags.new }
    ensures falls { result ≡ Idle → Falls step flags.old flags.new }
{
    let Some(op) = tile_op(tile, step) else {
        flags.rests(step);
        return Turned::Idle;
    };
    if finds_no_flit(row, seat, flags, tile, step, op) {
        flags.rests(step);
        return Turned::Idle;
    }
    attempt_op::<A, Brand>(row, seat, flags, tile, step, op)
}
