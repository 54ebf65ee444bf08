//! Which inputs and outputs of routers lead to tiles of other seats.

ghost use Rattle.std.specs.Prelude.{◌≡◌, ◌≤◌, ◌<◌, ◌/◌, ◌%◌, ◌↔◌, ℕ, List, IsTrue, true, false};
ghost use Rattle.torus.specs.Shape.{dims_of, tiles_of};
ghost use Rattle.channel_number.specs.Ports.{port_count, input_channel, output_channel};
ghost use Rattle.channel_number.specs.Ports.{input_router, output_router, opposite};
ghost use Rattle.channel_number.specs.Order.{dir_at};
ghost use Rattle.machine_parts.specs.Ports.{is_raised, lowered};
ghost use Rattle.fabric_rule.specs.Groups.{In};
ghost use Rattle.fabric_rule.specs.Border.{AreOf, TakesInside, CreditsInside};

use machine_parts::PortSet;
use torus::{Dir, Torus};

// The direction of the hops of a port.
fn direction(port: u32) -> Dir
    ensures { result ≡ dir_at (port / 4 % 2) }
{
    if port / 4 % 2 == 0 {
        Dir::Plus
    } else {
        Dir::Minus
    }
}

// The other direction.
fn opposite(dir: Dir) -> Dir
    ensures { result ≡ opposite dir }
{
    match dir {
        Dir::Plus => Dir::Minus,
        Dir::Minus => Dir::Plus,
    }
}

// The tile from which the channel at an input of a tile's router comes.
fn tile_before(torus: &Torus, tile: u32, input: u32) -> u32
    requires tile { tile < tiles_of torus.now }
    requires input { input < port_count (dims_of torus.now) }
    ensures { result ≡ output_router torus.now (input_channel torus.now tile input) }
{
    let _tiles = torus.tiles();
    if input >= 8 * torus.dims() {
        return tile;
    }
    torus.neighbour(tile, input / 8, opposite(direction(input)))
}

// The tile to which the channel at an output of a tile's router leads.
fn tile_behind(torus: &Torus, tile: u32, output: u32) -> u32
    requires tile { tile < tiles_of torus.now }
    requires output { output < port_count (dims_of torus.now) }
    ensures { result ≡ input_router torus.now (output_channel torus.now tile output) }
{
    let _tiles = torus.tiles();
    if output >= 8 * torus.dims() {
        return tile;
    }
    torus.neighbour(tile, output / 8, direction(output))
}

// Whether a tile is one from `first` on, below `end`.
fn is_between(tile: u32, first: u32, end: u32) -> bool
    ensures { (result ≡ true) ↔ ((first ≤ tile) × (tile < end)) }
{
    first <= tile && tile < end
}

// Whether the flag of a port is lowered in a set.
#[inline(always)]
pub(crate) fn is_lowered(set: &PortSet, tile: usize, port: u32) -> bool
    requires { tile < 64 }
    ensures exact { port < 31 → (IsTrue result ↔ (is_raised set.now tile port ≡ false)) }
    ensures low { IsTrue result → is_raised set.now tile port ≡ false }
    ensures few { IsTrue result → port < 31 }
{
    if port >= 31 {
        return false;
    }
    match set.next(tile, port, port + 1) {
        None => true,
        Some(_) => false,
    }
}

// Lowers the flag of a port where that is wanted.
fn lower_if(set: &mut PortSet, tile: usize, port: u32, wanted: bool)
    requires { tile < 64 }
    ensures wanted { wanted ≡ true → (u k : ℕ)
        → is_raised set.new u k ≡ lowered (is_raised set.old) tile port u k }
    ensures same { wanted ≡ false → set.new ≡ set.old }
{
    if wanted {
        set.lower(tile, port);
    }
}

// Lowers the inputs of a tile's router that come from one of the tiles from `first` on, below `end`.
fn lower_takes(set: &mut PortSet, torus: &Torus, tile: u32, first: u32, end: u32)
    requires tile { tile < tiles_of torus.now }
    requires own { (first ≤ tile) × (tile < end) }
    ensures { (gs : List (List ℕ)) → AreOf gs first end → TakesInside torus.now gs set.old
        → TakesInside torus.now gs set.new }
{
    let _tiles = torus.tiles();
    let ports = 8 * torus.dims() + 2;
    for input in 0..ports {
        let before = tile_before(torus, tile, input);
        let own = is_between(before, first, end);
        lower_if(set, tile as usize, input, own);
    }
}

// Lowers the outputs of a tile's router that lead to one of the tiles from `first` on, below `end`.
fn lower_credits(set: &mut PortSet, torus: &Torus, tile: u32, first: u32, end: u32)
    requires tile { tile < tiles_of torus.now }
    requires own { (first ≤ tile) × (tile < end) }
    ensures { (gs : List (List ℕ)) → AreOf gs first end → CreditsInside torus.now gs set.old
        → CreditsInside torus.now gs set.new }
{
    let _tiles = torus.tiles();
    let ports = 8 * torus.dims() + 2;
    for output in 0..ports {
        let behind = tile_behind(torus, tile, output);
        let own = is_between(behind, first, end);
        lower_if(set, tile as usize, output, own);
    }
}

/// Of the routers of the tiles from `first` on, below `end`, the inputs that come from other tiles, and
/// the outputs that lead to other ones; all of the other routers are raised too.
pub(crate) fn border(torus: &Torus, first: u32, end: u32) -> (PortSet, PortSet)
    requires { end ≤ tiles_of torus.now }
    ensures takes { (gs : List (List ℕ)) → AreOf gs first end → TakesInside torus.now gs result.0 }
    ensures credits { (gs : List (List ℕ)) → AreOf gs first end
        → CreditsInside torus.now gs result.1 }
{
    let mut takes = PortSet::all();
    let mut credits = PortSet::all();
    for tile in first..end {
        lower_takes(&mut takes, torus, tile, first, end);
        lower_credits(&mut credits, torus, tile, first, end);
    }
    (takes, credits)
}
