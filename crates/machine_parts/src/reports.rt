//! Reports that are taken back.

ghost use Rattle.std.specs.Prelude.{◌≡◌, ◌<◌, ◌≤◌, ◌*◌, Some, length, map, slice_get};
ghost use Rattle.tile.specs.Agents.{state_of};
ghost use Rattle.tile.specs.Placed.{PlacedTile};
ghost use Rattle.core_laws.specs.Reopened.{mark, marks};
ghost use Rattle.machine_parts.specs.Grown.{tile_reopened, marks_in, AreAsReported};

use crate::{TileAgents, WakeFlags};
use std::alloc::Allocator;

/// 1 for a mark that is set.
fn mark(set: bool) -> u64
    ensures value { result ≡ mark set }
    ensures small { result ≤ 1 }
{
    if set { 1 } else { 0 }
}

/// How many marks a tile's processor has: that it has reported, and that it has seen that all have.
fn marks<A: Allocator>(agents: &TileAgents<A>) -> u64
    ensures value { result ≡ marks (state_of agents.now.place) }
    ensures small { result ≤ 2 }
{
    mark(agents.has_reported()) + mark(agents.has_seen())
}

/// The marks of all tiles, at most 64.
fn marks_in<A: Allocator>(tiles: &[TileAgents<A>]) -> u64
    requires { length tiles.now ≤ 64 }
    ensures value { result ≡ marks_in tiles.now }
    ensures small { result ≤ 2 * length tiles.now }
{
    let mut all = 0;
    for agents in tiles {
        all += marks(agents);
    }
    all
}

/// Takes back the marks of all tiles.
fn reopen<A: Allocator>(tiles: &mut Vec<TileAgents<A>, A>)
    ensures { tiles.new.items ≡ map tile_reopened tiles.old.items }
{
    for tile in 0..tiles.len() {
        tiles[tile].reopen();
    }
}

/// Where the processor of a tile has reported, takes back all reports, and answers how many marks they
/// were: the done word, the last of the row, is 0 then, and all agents count as awake.
pub fn take_back<A: Allocator>(
    tiles: &mut Vec<TileAgents<A>, A>,
    row: &mut Vec<u64, A>,
    awake: &mut WakeFlags<A>,
    own: usize,
) -> u64
    requires tile { own < length tiles.old.items }
    requires tiles { length tiles.old.items ≤ 64 }
    requires row { 0 < length row.old.items }
    ensures reports { (v : PlacedTile) → slice_get tiles.old.items own ≡ Some v
        → AreAsReported tiles.old.items tiles.new.items row.old.items row.new.items awake.old
        awake.new result v.place.processor.state.reported }
    ensures small { result ≤ 128 }
{
    if !tiles[own].has_reported() {
        return 0;
    }
    let taken = marks_in(tiles.as_slice());
    reopen(tiles);
    let done = row.len() - 1;
    row[done] = 0;
    awake.rouse_all();
    taken
}
