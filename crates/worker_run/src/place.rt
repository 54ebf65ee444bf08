ghost use Rattle.std.specs.Prelude.{◌≡◌, ◌<◌, ◌≤◌, ◌+◌, ◌*◌, ◌↔◌, IsTrue, Some, slice_get};
ghost use Rattle.torus.specs.Shape.{dims_of};
ghost use Rattle.channel_number.specs.Ports.{port_count};
ghost use Rattle.fabric_rule.specs.Core.{round_at};
ghost use Rattle.torus.specs.Choices.{processor_choices, router_choices, bank_choices};
ghost use Rattle.worker_run.specs.Places.{EndsPass, IsPlaceOf, ComesAfter, IsFirstPlace};

use fabric::seats::TileSeat;
use std::alloc::Allocator;
use torus::{Choice, Step};

/// Where a worker is in its rounds: at a tile, at one of the choices of the tile's agents.
#[derive(Clone, Copy)]
pub struct Place {
    pub tile: u32,
    pub at: u32,
}

impl Place {
    /// The first place of a seat's rounds; that of tile 0 where it has no tile.
    pub fn first<A: Allocator>(seat: &TileSeat<A>) -> Place
        ensures first { IsFirstPlace seat.now.tiles result }
        ensures within { IsPlaceOf (port_count (dims_of seat.now.load.shape)) result }
    {
        seat.accepted();
        match seat.next_tile(0) {
            Some(tile) => Place {
                tile: tile as u32,
                at: 0,
            },
            None => Place { tile: 0, at: 0 },
        }
    }

    /// The step to attempt at this place, where a router has so many ports.
    pub fn step(self, ports: u32) -> Step
        requires ports { ports ≤ 26 }
        requires within { IsPlaceOf ports self }
        ensures { slice_get (round_at ports self.tile) self.at ≡ Some result }
    {
        let processor = 3 * self.tile;
        if self.at < 5 {
            Step {
                agent: processor,
                choice: processor_choice(self.at),
            }
        } else if self.at < 5 + 3 * ports {
            Step {
                agent: processor + 1,
                choice: router_choice(ports, self.at - 5),
            }
        } else {
            Step {
                agent: processor + 2,
                choice: bank_choice(self.at - 5 - 3 * ports),
            }
        }
    }

    /// Whether a pass over the tiles is over between this place and the next.
    pub fn ends_pass(self, next: Place) -> bool
        ensures { IsTrue result ↔ EndsPass self next }
    {
        next.at == 0 && next.tile <= self.tile
    }

    /// The place after this one in the rounds of a seat.
    pub fn after<A: Allocator>(self, ports: u32, seat: &TileSeat<A>) -> Place
        requires ports { ports ≡ port_count (dims_of seat.now.load.shape) }
        requires within { IsPlaceOf ports self }
        ensures follows { ComesAfter ports seat.now.tiles self result }
        ensures within { IsPlaceOf (port_count (dims_of seat.now.load.shape)) result }
    {
        seat.accepted();
        if self.at + 1 < 9 + 3 * ports {
            return Place {
                tile: self.tile,
                at: self.at + 1,
            };
        }
        match seat.next_tile(self.tile as usize + 1) {
            Some(tile) => Place {
                tile: tile as u32,
                at: 0,
            },
            None => Place::first(seat),
        }
    }
}

// The choices of an agent in the order of a round.
fn processor_choice(at: u32) -> Choice
    requires { at < 5 }
    ensures { slice_get processor_choices at ≡ Some result }
{
    match at {
        0 => Choice::Send,
        1 => Choice::Take,
        2 => Choice::Credit,
        3 => Choice::Done,
        _ => Choice::Look,
    }
}

fn router_choice(ports: u32, at: u32) -> Choice
    requires ports { ports ≤ 26 }
    requires at { at < 3 * ports }
    ensures { slice_get (router_choices ports) at ≡ Some result }
{
    if at < ports {
        Choice::TakeFrom(at)
    } else if at < 2 * ports {
        Choice::Put(at - ports)
    } else {
        Choice::CreditOf(at - 2 * ports)
    }
}

fn bank_choice(at: u32) -> Choice
    requires { at < 4 }
    ensures { slice_get bank_choices at ≡ Some result }
{
    match at {
        0 => Choice::Take,
        1 => Choice::Serve,
        2 => Choice::Send,
        _ => Choice::Credit,
    }
}
