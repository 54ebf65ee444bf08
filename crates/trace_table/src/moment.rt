//! When the operations of a table are issued and answered.

ghost use Rattle.std.specs.Prelude.{◌≡◌, ◌++◌, IfOk, OnOk};
ghost use Rattle.trace_table.specs.Moments.{AreInTurn, answers_from, issues_from, lines_of_moments};
ghost use Rattle.trace_table.specs.Moments.{moments_of, rows_of_moments};

use crate::row::{TableRow, row_at};
use std::alloc::{AllocError, Allocator};

/// When an operation is issued or answered. Moments are compared by their times; at one time issues come before
/// answers, and of these that of the earlier line.
#[derive(Clone, Copy, PartialEq, Eq, PartialOrd, Ord)]
pub struct Moment {
    pub time: u64,
    pub is_answer: bool,
    /// The line of the table.
    pub line: u64,
    /// The number of the row, from 0.
    pub row: usize,
}

/// The moments at which rows are issued.
pub(crate) fn issues_of<A: Allocator>(
    alloc: A,
    rows: &[TableRow],
) -> Result<Vec<Moment, A>, AllocError>
    ensures { IfOk result (λ moments. moments.items ≡ issues_from 0 rows.now) }
{
    let mut moments = Vec::new(alloc);
    let mut left = rows;
    let mut number = 0usize;
    while let [row, rest @ ..] = left {
        moments.push(Moment {
            time: row.issued,
            is_answer: false,
            line: row.line,
            row: number,
        })?;
        number += 1;
        left = rest;
    }
    Ok(moments)
}

/// Adds the moments at which rows are answered.
fn put_answers<A: Allocator>(
    moments: &mut Vec<Moment, A>,
    rows: &[TableRow],
) -> Result<(), AllocError>
    ensures { OnOk result (moments.new.items ≡ moments.old.items ++ answers_from 0 rows.now) }
{
    let mut left = rows;
    let mut number = 0usize;
    while let [row, rest @ ..] = left {
        if let Some(answer) = row.answer {
            moments.push(Moment {
                time: answer.time,
                is_answer: true,
                line: row.line,
                row: number,
            })?;
        }
        number += 1;
        left = rest;
    }
    Ok(())
}

/// The moments at which rows are issued and answered.
pub(crate) fn moments_of<A: Allocator>(
    alloc: A,
    rows: &[TableRow],
) -> Result<Vec<Moment, A>, AllocError>
    ensures { IfOk result (λ moments. moments.items ≡ moments_of rows.now) }
{
    let mut moments = issues_of(alloc, rows)?;
    put_answers(&mut moments, rows)?;
    Ok(moments)
}

/// Moments in the order of time.
pub(crate) fn in_order<A: Allocator>(
    mut moments: Vec<Moment, A>,
) -> Result<Vec<Moment, A>, AllocError>
    ensures { IfOk result (λ order. AreInTurn moments.items order.items) }
{
    moments.sort()?;
    Ok(moments)
}

/// The rows of some moments.
pub(crate) fn rows_of_moments<A: Allocator>(
    alloc: A,
    rows: &[TableRow],
    moments: &[Moment],
) -> Result<Vec<TableRow, A>, AllocError>
    ensures { IfOk result (λ found. found.items ≡ rows_of_moments rows.now moments.now) }
{
    let mut found = Vec::new(alloc);
    let mut left = moments;
    while let [moment, rest @ ..] = left {
        if let Some(row) = row_at(rows, moment.row) {
            found.push(row)?;
        }
        left = rest;
    }
    Ok(found)
}

/// The lines of the rows of some moments.
pub(crate) fn lines_of_moments<A: Allocator>(
    alloc: A,
    rows: &[TableRow],
    moments: &[Moment],
) -> Result<Vec<u64, A>, AllocError>
    ensures { IfOk result (λ lines. lines.items ≡ lines_of_moments rows.now moments.now) }
{
    let mut lines = Vec::new(alloc);
    let mut left = moments;
    while let [moment, rest @ ..] = left {
        if let Some(row) = row_at(rows, moment.row) {
            lines.push(row.line)?;
        }
        left = rest;
    }
    Ok(lines)
}
