//! A line at the end of a script, with the room that its operations need.

ghost use Rattle.std.specs.Prelude.{◌≡◌, ◌≢◌, ℕ, ◌+◌, ◌<◌, ◌≤◌, Some, length, slice_get, OnOk};
ghost use Rattle.std.specs.Prelude.{OnErr};
ghost use Rattle.script_lines.specs.declared.line.Line.{Line};
ghost use Rattle.script_lines.specs.Lines.{operations_of};
ghost use Rattle.one_order.specs.Homes.{line_home_count};
ghost use Rattle.tile.specs.Placed.{PlacedTile};
ghost use Rattle.core_laws.specs.Appended.{changed_at};
ghost use Rattle.machine_parts.specs.Grown.{tile_given, tile_wider, tile_narrower, tiles_given};
ghost use Rattle.machine_parts.specs.Grown.{HasRoomFor};

use crate::TileAgents;
use order_book::address;
use script::Line;
use std::alloc::{AllocError, Allocator};

/// The tile of the bank that the operations of a line come to: the home of its address. A fence has
/// none, and is counted at the processor's own tile.
pub fn home_of(tiles: u32, own: u32, line: Line) -> u32
    requires { own < tiles }
    ensures tile { result < tiles }
    ensures here { line_home_count tiles result line ≡ operations_of line }
    ensures others { (b : ℕ) → b ≢ result → line_home_count tiles b line ≡ 0 }
{
    match address(line) {
        None => own,
        Some(address) => address % tiles,
    }
}

/// Makes room for so many entries more in the bank of a tile.
fn widen<A: Allocator>(
    tiles: &mut Vec<TileAgents<A>, A>,
    home: usize,
    more: usize,
) -> Result<(), AllocError>
    requires tile { home < length tiles.old.items }
    requires few { (v : PlacedTile) → slice_get tiles.old.items home ≡ Some v
        → v.room + more ≤ 65536 }
    ensures wider { OnOk result
        (tiles.new.items ≡ changed_at (tile_wider more) tiles.old.items home) }
    ensures same { OnErr result (tiles.new.items ≡ tiles.old.items) }
{
    tiles[home].reserve(more)
}

/// Gives up the room for so many entries in the bank of a tile, which no entry has taken.
fn narrow<A: Allocator>(tiles: &mut Vec<TileAgents<A>, A>, home: usize, fewer: usize)
    requires tile { home < length tiles.old.items }
    requires room { (v : PlacedTile) → slice_get tiles.old.items home ≡ Some v
        → length v.place.bank.state.entries + fewer ≤ v.room }
    ensures { tiles.new.items ≡ changed_at (tile_narrower fewer) tiles.old.items home }
{
    tiles[home].release(fewer);
}

/// Puts a line at the end of the script of a tile's processor, with room for so many operations in all.
fn give<A: Allocator>(
    tiles: &mut Vec<TileAgents<A>, A>,
    own: usize,
    line: Line,
    room: usize,
) -> Result<(), AllocError>
    requires tile { own < length tiles.old.items }
    requires loads { (a v m : ℕ) → line ≡ Line.Spin a v m → 0 < m }
    requires takes { (v : PlacedTile) → slice_get tiles.old.items own ≡ Some v
        → HasRoomFor line room v.place.processor.state.operations }
    requires few { room ≤ 65536 }
    ensures given { OnOk result
        (tiles.new.items ≡ changed_at (tile_given line) tiles.old.items own) }
    ensures same { OnErr result (tiles.new.items ≡ tiles.old.items) }
{
    tiles[own].append(line, room)
}

/// Puts a line at the end of the script of tile `own`, which makes at most so many operations then, with
/// room for the line's in the bank of tile `home`.
///
/// Errors: out of memory; then nothing has changed.
pub fn put_line<A: Allocator>(
    tiles: &mut Vec<TileAgents<A>, A>,
    own: usize,
    home: usize,
    line: Line,
    room: usize,
) -> Result<(), AllocError>
    requires own_tile { own < length tiles.old.items }
    requires home_tile { home < length tiles.old.items }
    requires loads { (a v m : ℕ) → line ≡ Line.Spin a v m → 0 < m }
    requires takes { (v : PlacedTile) → slice_get tiles.old.items own ≡ Some v
        → HasRoomFor line room v.place.processor.state.operations }
    requires few { room ≤ 65536 }
    requires bank { (v : PlacedTile) → slice_get tiles.old.items home ≡ Some v
        → v.room + operations_of line ≤ 65536 }
    ensures given { OnOk result (tiles.new.items ≡ tiles_given line own home tiles.old.items) }
    ensures same { OnErr result (tiles.new.items ≡ tiles.old.items) }
{
    let more = line.operations() as usize;
    let _full = tiles[home].is_full();
    widen(tiles, home, more)?;
    match give(tiles, own, line, room) {
        Ok(()) => Ok(()),
        Err(error) => {
            narrow(tiles, home, more);
            Err(error)
        }
    }
}
