//! Which source-destination pairs packets go between, in a row for each channel, so that none is looked for
//! among all pairs.

ghost use Rattle.std.specs.Prelude.{◌≡◌, ◌==◌, ◌&&◌, IfOk, IfSome, false, true, slice_set, length};
ghost use Rattle.std.specs.Prelude.{replicate};
ghost use Rattle.std.specs.List.{list_any};
ghost use Rattle.network_machine.specs.Pairs.{cells_of, cell_marked, TellsPair, ArePairs, NoPairs};

use network_judge::walk::{is_sender, kind_at};
use network_judge::{Join, Kind};
use std::alloc::{AllocError, Allocator};

/// Whether packets go from the source to the destination of a pair, if it has a cell.
fn pair_at<A: Allocator>(rows: &[Vec<bool, A>], x: usize, y: usize) -> Option<bool>
    ensures { IfSome result (TellsPair (cells_of rows.now) x y) }
{
    if x >= rows.len() {
        return None;
    }
    let row = &rows[x];
    if y >= row.len() {
        return None;
    }
    Some(row[y])
}

/// Whether packets go from one channel to another, by the rows of all pairs.
pub fn is_joined<A: Allocator>(
    rows: &[Vec<bool, A>],
    joins: &[Join],
    from: usize,
    to: usize,
) -> bool
    requires { ArePairs joins.now (cells_of rows.now) }
    ensures { result ≡ list_any (λ pair. pair.from == from && pair.to == to) joins.now }
{
    match pair_at(rows, from, to) {
        Some(is_one) => is_one,
        None => joins.iter().any(|pair| pair.from == from && pair.to == to),
    }
}

/// Marks a cell of a row, if it is there.
fn mark_cell<A: Allocator>(row: &mut Vec<bool, A>, y: usize)
    ensures { row.new.items ≡ slice_set row.old.items y true }
{
    if y < row.len() {
        row[y] = true;
    }
}

/// Marks the cell of a pair, if there is one.
fn mark_pair<A: Allocator>(rows: &mut [Vec<bool, A>], x: usize, y: usize)
    ensures size { length rows.new ≡ length rows.old }
    ensures marks { cells_of rows.new ≡ cell_marked (cells_of rows.old) x y }
{
    if x < rows.len() {
        mark_cell(&mut rows[x], y);
    }
}

/// Marks the cells of some pairs, where none is marked.
fn mark_pairs<A: Allocator>(rows: &mut [Vec<bool, A>], joins: &[Join])
    requires { NoPairs (cells_of rows.old) }
    ensures size { length rows.new ≡ length rows.old }
    ensures pairs { ArePairs joins.now (cells_of rows.new) }
{
    for k in 0..joins.len() {
        mark_pair(rows, joins[k].from, joins[k].to);
    }
}

/// How many cells a channel of this kind has: one for each channel, if packets begin there.
fn cells_for(kind: Option<Kind>, channels: usize) -> usize {
    if is_sender(kind) { channels } else { 0 }
}

/// So many cells without a mark.
///
/// Errors: out of memory.
fn empty_row<A: Allocator + Copy>(alloc: A, cells: usize) -> Result<Vec<bool, A>, AllocError>
    ensures { IfOk result (λ row. row.items ≡ replicate cells false) }
{
    vec![in alloc; false; cells]
}

/// Rows without a mark.
///
/// Errors: out of memory.
fn empty_rows<A: Allocator + Copy>(
    alloc: A,
    kinds: &[Kind],
) -> Result<Vec<Vec<bool, A>, A>, AllocError>
    ensures { IfOk result (λ rows. NoPairs (cells_of rows.items)) }
{
    let mut rows = Vec::with_capacity(alloc, kinds.len())?;
    for x in 0..kinds.len() {
        let cells = cells_for(kind_at(kinds, x), kinds.len());
        rows.push(empty_row(alloc, cells)?)?;
    }
    Ok(rows)
}

/// The rows of some pairs, one for each channel.
///
/// Errors: out of memory.
pub fn rows_of<A: Allocator + Copy>(
    alloc: A,
    kinds: &[Kind],
    joins: &[Join],
) -> Result<Vec<Vec<bool, A>, A>, AllocError>
    ensures { IfOk result (λ rows. ArePairs joins.now (cells_of rows.items)) }
{
    let mut rows = empty_rows(alloc, kinds)?;
    mark_pairs(&mut rows, joins);
    Ok(rows)
}
