//! The operations of a report, by their services.

ghost use Rattle.std.specs.Prelude.{◌≡◌, ◌<◌, ◌++◌, ℕ, Some, IfOk, OnOk, length, option_map};
ghost use Rattle.std.specs.Prelude.{slice_get};
ghost use Rattle.std.specs.BTreeMap.{get};
ghost use Rattle.std.specs.List.{filter_map};
ghost use Rattle.std.specs.Option.{option_to_list};
ghost use Rattle.std.specs.Ordering.{nat_cmp};
ghost use Rattle.report_model.specs.Rows.{entry_of_key, order_key, report_row_of, row_ordered};
ghost use Rattle.report_model.specs.Rows.{rows_of};
ghost use Rattle.report_model.specs.Run.{run_seen};

use crate::row::{ReportRow, entry_key, order_key, row_of};
use crate::run::{RunLines, ServedLine};
use report_lines::OrderLine;
use std::alloc::{AllocError, Allocator};
use std::collections::BTreeMap;

/// The entry at a place.
fn served_at(entries: &[ServedLine], k: usize) -> ServedLine
    requires { k < length entries.now }
    ensures { slice_get entries.now k ≡ Some result }
{
    entries[k]
}

/// Entries by their banks and places, the first of each.
///
/// Errors: out of memory.
fn entries_by_key<A: Allocator + Copy>(
    alloc: A,
    entries: &[ServedLine],
) -> Result<BTreeMap<usize, ServedLine, A>, AllocError>
    ensures { IfOk result (λ by. (x : ℕ) → get nat_cmp by x ≡ entry_of_key entries.now x) }
{
    let mut place = entries.len();
    let mut by = BTreeMap::new(alloc);
    'back: while place > 0 {
        place -= 1;
        let served = served_at(entries, place);
        by.insert(entry_key(served), served)?;
    }
    Ok(by)
}

/// The operation of an order line, by entries of banks and places.
fn row_named<A: Allocator>(
    by: &BTreeMap<usize, ServedLine, A>,
    order: OrderLine,
) -> Option<ReportRow>
    ensures { result
        ≡ option_map (λ s. report_row_of s order) (get nat_cmp by.now (order_key order)) }
{
    match by.get(&order_key(order)) {
        Some(served) => Some(row_of(*served, order)),
        None => None,
    }
}

/// The order line at a place.
fn order_at(orders: &[OrderLine], k: usize) -> OrderLine
    requires { k < length orders.now }
    ensures { slice_get orders.now k ≡ Some result }
{
    orders[k]
}

/// Adds an operation, where there is one.
pub(crate) fn push_some<A: Allocator>(
    rows: &mut Vec<ReportRow, A>,
    row: Option<ReportRow>,
) -> Result<(), AllocError>
    ensures { OnOk result (rows.new.items ≡ rows.old.items ++ option_to_list row) }
{
    match row {
        Some(row) => {
            rows.push(row)?;
            Ok(())
        }
        None => Ok(()),
    }
}

/// The operations of entries by their services, in the order of order lines.
///
/// Errors: out of memory.
fn rows_by<A: Allocator + Copy>(
    alloc: A,
    entries: &[ServedLine],
    orders: &[OrderLine],
) -> Result<Vec<ReportRow, A>, AllocError>
    ensures { IfOk result (λ rows. rows.items ≡ filter_map (row_ordered entries.now) orders.now) }
{
    let by = entries_by_key(alloc, entries)?;
    let mut rows = Vec::new(alloc);
    for k in 0..orders.len() {
        let order = order_at(orders, k);
        push_some(&mut rows, row_named(&by, order))?;
    }
    Ok(rows)
}

/// The operations of a run by their services.
///
/// Errors: out of memory.
pub(crate) fn rows_of<A: Allocator + Copy>(
    alloc: A,
    run: &RunLines<A>,
) -> Result<Vec<ReportRow, A>, AllocError>
    ensures { IfOk result (λ rows. rows.items ≡ rows_of (run_seen run.now)) }
{
    rows_by(alloc, &run.entries, &run.orders)
}
