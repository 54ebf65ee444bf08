//! A machine in its parts.
ghost use Rattle.std.specs.Prelude.{◌≡◌, List, [], length, map};
ghost use Rattle.torus.specs.Shape.{tiles_of};
ghost use Rattle.torus.specs.declared.step.Step.{Step};
ghost use Rattle.machine_parts.specs.Core.{Load, design_of, after};
ghost use Rattle.machine_parts.specs.Machine.{IsAfter};
ghost use Rattle.machine_parts.specs.Seen.{IsShown};
ghost use Rattle.machine_core.specs.Inside.{HaveRoom};

use crate::machine::Machine;
use machine_parts::TileAgents;
use std::alloc::{Allocator, Global};
use torus::Torus;

/// What a machine is made of: what was loaded, but for the scripts, the tiles by number, and the row
/// of words that they share.
#[derive(Drop)]
pub struct Parts<A: Allocator = Global> {
    /// The torus.
    pub torus: Torus,
    /// How many flits a channel holds.
    pub depth: u32,
    /// How many tags a processor has.
    pub tags: u32,
    /// The words that the addresses held at first.
    pub opening: Vec<u64, A>,
    /// The agents of each tile.
    pub tiles: Vec<TileAgents<A>, A>,
    /// The places of the channels, the memory, and the done word.
    pub row: Vec<u64, A>,
}

impl<A: Allocator> Machine<A> {
    /// The machine's parts; its book of events is given up. The tiles and the row show where it stands,
    /// and where it stands freshly loaded, each bank has as much room as the scripts have operations
    /// for it.
    pub fn into_parts(self) -> Parts<A>
        ensures loaded { (result.torus ≡ self.shape) × (result.depth ≡ self.depth)
            × (result.tags ≡ self.tags) × (result.opening.items ≡ self.opening) }
        ensures count { length result.tiles.items ≡ tiles_of self.shape }
        ensures shown { (l : Load) (steps : List Step) → IsAfter l self steps
            → IsShown (design_of l) (after l steps) (map (λ v. v.place) result.tiles.items)
            result.row.items }
        ensures rooms { (l : Load) → IsAfter l self [] → HaveRoom l result.tiles.items }
    {
        let Machine {
            torus,
            depth,
            tags,
            opening,
            tiles,
            row,
            ..
        } = self;
        Parts {
            torus,
            depth,
            tags,
            opening,
            tiles,
            row,
        }
    }
}
