//! The turns of a worker at a tile, but for the last: the choices of its agents, agent by agent. Each
//! attempt names its choice, so that little is left of it once the calls are inlined.
ghost use Rattle.std.specs.Prelude.{◌≡◌, ◌<◌, ◌+◌, ◌*◌, ℕ, false};
ghost use Rattle.fabric_rule.specs.Known.{enabled};
ghost use Rattle.fabric.specs.Seats.{IsSeatOf};
ghost use Rattle.worker_run.specs.Going.{LeadsSeats, Tries, at_place};

use crate::gate::Gate;
use crate::router_turns::{Port, router_turns};
use fabric::seats::{Fabric, TileSeat};
use fabric::steps::Turned;
use std::alloc::Allocator;
use torus::{Choice, Step};

/// How far a worker is.
#[derive(Drop)]
pub(crate) struct Run {
    /// How many turns it has made.
    pub(crate) made: u64,
    /// How many it makes at most: those that it has made, once it is to make no more.
    pub(crate) most: u64,
    /// Whether nothing has moved in this pass over its tiles.
    pub(crate) quiet: bool,
}

/// Attempts a choice of an agent, where a turn is left and the gate lets it.
#[inline(always)]
pub(crate) fn attempt<A: Allocator, G: Gate>(
    fabric: &Fabric<A>,
    seat: &mut TileSeat<A>,
    gate: &G,
    worker: usize,
    run: &mut Run,
    agent: u32,
    choice: Choice,
)
    requires { IsSeatOf fabric.now seat.old }
    ensures own { IsSeatOf fabric.now seat.new }
    ensures tried { Tries (G.stops gate.now worker) run.old seat.old
        (record { agent = agent; choice = choice }) run.new seat.new }
{
    if run.most <= run.made {
        return;
    }
    let step = Step { agent, choice };
    if !gate.before(worker, step) {
        run.most = run.made;
        return;
    }
    let moved = matches!(fabric.turn(seat, step), Turned::Moved);
    run.made += 1;
    run.quiet = run.quiet && !moved;
    if moved && is_look(choice) && seat.has_seen() {
        run.most = run.made;
    }
}

fn is_look(choice: Choice) -> bool {
    matches!(choice, Choice::Look)
}

/// Counts a turn of a choice that isn't enabled, where a turn is left and the gate lets it.
#[inline(always)]
pub(crate) fn leave_out<A: Allocator, G: Gate>(
    seat: &TileSeat<A>,
    gate: &G,
    worker: usize,
    run: &mut Run,
    agent: u32,
    choice: Choice,
)
    requires idle { enabled seat.now.load seat.now.run (record { agent = agent; choice = choice })
        ≡ false }
    ensures { Tries (G.stops gate.now worker) run.old seat.now
        (record { agent = agent; choice = choice }) run.new seat.now }
{
    let _ = seat;
    if run.most <= run.made {
        return;
    }
    if !gate.before(worker, Step { agent, choice }) {
        run.most = run.made;
        return;
    }
    run.made += 1;
}

/// Attempts a choice of a processor or a bank, or leaves it out where it is asleep.
#[inline(always)]
pub(crate) fn attempt_awake<A: Allocator, G: Gate>(
    fabric: &Fabric<A>,
    seat: &mut TileSeat<A>,
    gate: &G,
    worker: usize,
    run: &mut Run,
    agent: u32,
    choice: Choice,
)
    requires own { IsSeatOf fabric.now seat.old }
    requires agent { agent < 192 }
    ensures own { IsSeatOf fabric.now seat.new }
    ensures tried { Tries (G.stops gate.now worker) run.old seat.old
        (record { agent = agent; choice = choice }) run.new seat.new }
{
    if !seat.is_awake(agent, choice) {
        leave_out(seat, gate, worker, run, agent, choice);
        return;
    }
    attempt(fabric, seat, gate, worker, run, agent, choice);
}

/// All choices of a tile's agents but the last, where a router has so many ports.
#[inline(always)]
pub(crate) fn tile_turns<A: Allocator, G: Gate>(
    fabric: &Fabric<A>,
    seat: &mut TileSeat<A>,
    gate: &G,
    worker: usize,
    run: &mut Run,
    tile: u32,
    ports: u32,
)
    requires own { IsSeatOf fabric.now seat.old }
    requires tile { tile < 64 }
    requires ports { ports < 32 }
    ensures own { IsSeatOf fabric.now seat.new }
    ensures leads { LeadsSeats (G.stops gate.now worker) ports run.old seat.old
        (at_place tile 0) run.new
        seat.new (at_place tile (8 + 3 * ports)) }
{
    processor_turns(fabric, seat, gate, worker, run, tile);
    router_turns(fabric, seat, gate, worker, run, tile, ports, Port::Take);
    router_turns(fabric, seat, gate, worker, run, tile, ports, Port::Put);
    router_turns(fabric, seat, gate, worker, run, tile, ports, Port::Credit);
    bank_turns(fabric, seat, gate, worker, run, tile);
}

// The choices of a tile's processor.
#[inline(always)]
fn processor_turns<A: Allocator, G: Gate>(
    fabric: &Fabric<A>,
    seat: &mut TileSeat<A>,
    gate: &G,
    worker: usize,
    run: &mut Run,
    tile: u32,
)
    requires own { IsSeatOf fabric.now seat.old }
    requires tile { tile < 64 }
    ensures own { IsSeatOf fabric.now seat.new }
    ensures leads { (ports : ℕ) → LeadsSeats (G.stops gate.now worker) ports run.old seat.old
        (at_place tile 0) run.new seat.new (at_place tile 5) }
{
    let agent = 3 * tile;
    attempt_awake(fabric, seat, gate, worker, run, agent, Choice::Send);
    attempt_awake(fabric, seat, gate, worker, run, agent, Choice::Take);
    attempt_awake(fabric, seat, gate, worker, run, agent, Choice::Credit);
    attempt_awake(fabric, seat, gate, worker, run, agent, Choice::Done);
    attempt(fabric, seat, gate, worker, run, agent, Choice::Look);
}

// The choices of a tile's bank, but for the last.
#[inline(always)]
fn bank_turns<A: Allocator, G: Gate>(
    fabric: &Fabric<A>,
    seat: &mut TileSeat<A>,
    gate: &G,
    worker: usize,
    run: &mut Run,
    tile: u32,
)
    requires own { IsSeatOf fabric.now seat.old }
    requires tile { tile < 64 }
    ensures own { IsSeatOf fabric.now seat.new }
    ensures leads { (ports : ℕ) → LeadsSeats (G.stops gate.now worker) ports run.old seat.old
        (at_place tile (5 + 3 * ports)) run.new seat.new (at_place tile (8 + 3 * ports)) }
{
    let agent = 3 * tile + 2;
    attempt_awake(fabric, seat, gate, worker, run, agent, Choice::Take);
    attempt_awake(fabric, seat, gate, worker, run, agent, Choice::Serve);
    attempt_awake(fabric, seat, gate, worker, run, agent, Choice::Send);
}
