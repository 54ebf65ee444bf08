//! The choices for packets to some ejection channels in a row, side by side.

ghost use Rattle.std.specs.Prelude.{◌≡◌, ◌+◌, ◌*◌, ◌<◌, ◌≤◌, ◌++◌, true, length, IfOk, OnOk};
ghost use Rattle.network_text.specs.ChoosingRead.{choosing_text_of, IsChoosingRead};
ghost use Rattle.network_text.specs.ChoiceLists.{listed_choice};
ghost use Rattle.network_text.specs.Tiles.{tile_line, tile_lines, IsTile, IsTileFor};

use crate::choosing::Choosing;
use std::alloc::{AllocError, Allocator};

/// The most ejection channels of a tile: with fewer each line of the table's memory is fetched more often,
/// with more each line of the tile's.
const MOST_WIDTH: usize = 4;

/// The choices for packets to some ejection channels in a row, those behind a channel side by side: so each
/// line of the table's memory is fetched once for all of them.
#[derive(Drop)]
pub(crate) struct Tile<A: Allocator> {
    /// The column of the first of these ejection channels.
    pub(crate) from: usize,
    /// How many they are.
    pub(crate) width: usize,
    /// By channel, then by place: a choice for each of them.
    pub(crate) cells: Vec<u32, A>,
}

impl<A: Allocator + Copy> Choosing<A> {
    /// The place of a further choice: that of its cell in a layer.
    fn further_place(&self, layer: usize, cell: usize) -> usize
        requires read { IsChoosingRead self.now }
        requires layer { layer < self.now.layers }
        requires cell { cell < length self.now.fixed.choices.items }
        ensures value { result ≡ layer * length self.now.fixed.choices.items + cell }
        ensures within { result < length self.now.further.items }
    {
        layer * self.fixed.choices.len() + cell
    }

    /// The choice of a cell of the table that comes after so many others.
    fn listed(&self, cell: usize, place: usize) -> u32
        requires read { IsChoosingRead self.now }
        requires cell { cell < length self.now.fixed.choices.items }
        requires place { place ≤ self.now.layers }
        ensures { result ≡ listed_choice (choosing_text_of self.now) cell place }
    {
        if place == 0 {
            self.fixed.choices[cell]
        } else {
            self.further[self.further_place(place - 1, cell)]
        }
    }

    /// Adds the choices behind a channel that come after so many others, for packets to the ejection
    /// channels of so many columns from one on.
    fn put_line(
        &self,
        cells: &mut Vec<u32, A>,
        from: usize,
        width: usize,
        at: usize,
        place: usize,
    ) -> Result<(), AllocError>
        requires read { IsChoosingRead self.now }
        requires begun { self.now.fixed.begun ≡ true }
        requires at { at < length self.now.fixed.kinds.items }
        requires place { place ≤ self.now.layers }
        requires room { from + width ≤ self.now.fixed.ejections }
        ensures { OnOk result (cells.new.items
            ≡ cells.old.items ++ tile_line (choosing_text_of self.now) from width at place) }
    {
        for k in 0..width {
            cells.push(self.listed(at * self.fixed.ejections + (from + k), place))?;
        }
        Ok(())
    }

    /// Adds all choices behind a channel, for packets to these ejection channels.
    fn put_lines(
        &self,
        cells: &mut Vec<u32, A>,
        from: usize,
        width: usize,
        at: usize,
    ) -> Result<(), AllocError>
        requires read { IsChoosingRead self.now }
        requires begun { self.now.fixed.begun ≡ true }
        requires at { at < length self.now.fixed.kinds.items }
        requires room { from + width ≤ self.now.fixed.ejections }
        ensures { OnOk result (cells.new.items
            ≡ cells.old.items ++ tile_lines (choosing_text_of self.now) from width at) }
    {
        for place in 0..self.layers + 1 {
            self.put_line(cells, from, width, at, place)?;
        }
        Ok(())
    }

    /// The tile whose first ejection channel has a column.
    ///
    /// Errors: out of memory.
    pub(crate) fn tile_from(&self, alloc: A, from: usize) -> Result<Tile<A>, AllocError>
        requires read { IsChoosingRead self.now }
        requires begun { self.now.fixed.begun ≡ true }
        requires from { from ≤ self.now.fixed.ejections }
        ensures tile { IfOk result (IsTile (choosing_text_of self.now)) }
        ensures from { IfOk result (λ tile. tile.from ≡ from) }
        ensures some { IfOk result (λ tile.
            from < self.now.fixed.ejections → from < tile.from + tile.width) }
    {
        let width = (self.fixed.ejections - from).min(MOST_WIDTH);
        let mut cells = Vec::new(alloc);
        for channel in 0..self.fixed.kinds.len() {
            self.put_lines(&mut cells, from, width, channel)?;
        }
        Ok(Tile { from, width, cells })
    }

    /// A tile that has the choices for packets to a channel, if it is an ejection channel: the one that is
    /// given, where it has them.
    ///
    /// Errors: out of memory.
    pub(crate) fn tile_for(&self, alloc: A, tile: Tile<A>, to: usize) -> Result<Tile<A>, AllocError>
        requires read { IsChoosingRead self.now }
        requires begun { self.now.fixed.begun ≡ true }
        requires tile { IsTile (choosing_text_of self.now) tile }
        ensures { IfOk result (λ it. IsTileFor (choosing_text_of self.now) it to) }
    {
        if !self.fixed.ejects(to) {
            return Ok(tile);
        }
        let column = self.fixed.columns[to];
        if tile.from <= column && column < tile.from + tile.width {
            return Ok(tile);
        }
        let found = self.tile_from(alloc, column)?;
        Ok(found)
    }
}
