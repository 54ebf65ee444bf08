//! The turns of a worker at a tile's router. Choices that are asleep are left out, a stretch at a time:
//! behind a gate that stops nobody little is left of the loop once the calls are inlined.
ghost use Rattle.std.specs.Prelude.{◌≡◌, ◌≤◌, ◌<◌, ◌+◌, ℕ, false};
ghost use Rattle.core_laws.specs.Routers.{of_router};
ghost use Rattle.fabric_rule.specs.Known.{enabled};
ghost use Rattle.fabric.specs.Seats.{IsSeatOf};
ghost use Rattle.worker_run.specs.Going.{LeadsSeats, at_place};
ghost use Rattle.worker_run.specs.RouterTurns.{choice_of, start_of};

use crate::gate::Gate;
use crate::turns::{Run, attempt, leave_out};
use fabric::seats::{Fabric, TileSeat};
use std::alloc::Allocator;
use torus::Choice;

/// A kind of choices of a router: one for each of its inputs or outputs.
#[derive(Clone, Copy)]
pub(crate) enum Port {
    Take,
    Put,
    Credit,
}

impl Port {
    /// The choice of this kind at an input or output.
    #[inline(always)]
    fn choice(self, port: u32) -> Choice
        ensures { result ≡ choice_of self port }
    {
        match self {
            Port::Take => Choice::TakeFrom(port),
            Port::Put => Choice::Put(port),
            Port::Credit => Choice::CreditOf(port),
        }
    }
}

/// The first input or output of a tile's router, from one on, whose choice is worth an attempt; `ports`
/// where none is.
#[inline(always)]
fn next_port<A: Allocator>(seat: &TileSeat<A>, tile: u32, from: u32, ports: u32, kind: Port) -> u32
    requires tile { tile < 64 }
    requires ports { (from ≤ ports) × (ports < 32) }
    ensures within { (from ≤ result) × (result ≤ ports) }
    ensures idle { (k : ℕ) → from ≤ k → k < result
        → enabled seat.now.load seat.now.run (of_router tile (choice_of kind k)) ≡ false }
{
    match kind {
        Port::Take => seat.next_take(tile, from, ports),
        Port::Put => seat.next_put(tile, from, ports),
        Port::Credit => seat.next_credit(tile, from, ports),
    }
}

/// Leaves out the choices of a tile's router from one port on, below another.
#[inline(always)]
fn leave_out_ports<A: Allocator, G: Gate>(
    seat: &TileSeat<A>,
    gate: &G,
    worker: usize,
    run: &mut Run,
    tile: u32,
    ports: u32,
    kind: Port,
    from: u32,
    to: u32,
)
    requires tile { tile < 64 }
    requires within { (from ≤ to) × (to ≤ ports) }
    requires idle { (k : ℕ) → from ≤ k → k < to
        → enabled seat.now.load seat.now.run (of_router tile (choice_of kind k)) ≡ false }
    ensures { LeadsSeats (G.stops gate.now worker) ports run.old seat.now
        (at_place tile (start_of ports kind + from)) run.new seat.now
        (at_place tile (start_of ports kind + to)) }
{
    for port in from..to {
        leave_out(seat, gate, worker, run, 3 * tile + 1, kind.choice(port));
    }
}

/// Attempts the first choice of a tile's router that is awake, from a port on, and leaves out those
/// before it. Answers the port after it, or `ports`.
#[inline(always)]
fn port_turns<A: Allocator, G: Gate>(
    fabric: &Fabric<A>,
    seat: &mut TileSeat<A>,
    gate: &G,
    worker: usize,
    run: &mut Run,
    tile: u32,
    ports: u32,
    kind: Port,
    from: u32,
) -> u32
    requires own { IsSeatOf fabric.now seat.old }
    requires tile { tile < 64 }
    requires ports { (from < ports) × (ports < 32) }
    ensures own { IsSeatOf fabric.now seat.new }
    ensures within { (from < result) × (result ≤ ports) }
    ensures leads { LeadsSeats (G.stops gate.now worker) ports run.old seat.old
        (at_place tile (start_of ports kind + from)) run.new seat.new
        (at_place tile (start_of ports kind + result)) }
{
    let port = next_port(seat, tile, from, ports, kind);
    leave_out_ports(seat, gate, worker, run, tile, ports, kind, from, port);
    if port >= ports {
        return ports;
    }
    let agent = 3 * tile + 1;
    attempt(fabric, seat, gate, worker, run, agent, kind.choice(port));
    port + 1
}

/// The choices of one kind of a tile's router.
#[inline(always)]
pub(crate) fn router_turns<A: Allocator, G: Gate>(
    fabric: &Fabric<A>,
    seat: &mut TileSeat<A>,
    gate: &G,
    worker: usize,
    run: &mut Run,
    tile: u32,
    ports: u32,
    kind: Port,
)
    requires own { IsSeatOf fabric.now seat.old }
    requires tile { tile < 64 }
    requires ports { ports < 32 }
    ensures own { IsSeatOf fabric.now seat.new }
    ensures leads { LeadsSeats (G.stops gate.now worker) ports run.old seat.old
        (at_place tile (start_of ports kind)) run.new seat.new
        (at_place tile (start_of ports kind + ports)) }
{
    let mut from = 0;
    while from < ports {
        from = port_turns(fabric, seat, gate, worker, run, tile, ports, kind, from);
    }
}
