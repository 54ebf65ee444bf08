//! Rows of numbers that grow.

ghost use Rattle.std.specs.Prelude.{◌≡◌, ◌++◌, ◌∷◌, [], length, OnOk, IfOk};
ghost use Rattle.std.specs.List.{concat};
ghost use Rattle.model_text.specs.InsideRows.{row_lists, rows_now};
ghost use Rattle.model_text.specs.Rows.{no_rows, numbers_of_row, with_row_number};

use std::alloc::{AllocError, Allocator, Global};

/// Rows of numbers: of each processor its operations, or of each word its writes.
#[derive(Drop)]
pub struct Rows<A: Allocator = Global> {
    pub(crate) lists: Vec<Vec<usize, A>, A>,
}

impl<A: Allocator + Copy> Rows<A> {
    /// So many rows without a number.
    pub fn empty(alloc: A, count: usize) -> Result<Rows<A>, AllocError>
        ensures { IfOk result (λ rows. rows_now rows ≡ no_rows count) }
    {
        let mut lists = Vec::new(alloc);
        for _ in 0..count {
            lists.push(Vec::new(alloc))?;
        }
        Ok(Rows { lists })
    }

    /// One row more, without a number.
    pub fn begin(&mut self, alloc: A) -> Result<(), AllocError>
        ensures { OnOk result (rows_now self.new ≡ rows_now self.old ++ [] ∷ []) }
    {
        self.lists.push(Vec::new(alloc))?;
        Ok(())
    }

    /// The numbers of all rows, one row after the other.
    pub fn joined(&self, alloc: A) -> Result<Vec<usize, A>, AllocError>
        ensures { IfOk result (λ numbers. numbers.items ≡ concat (rows_now self.now)) }
    {
        let mut numbers = Vec::new(alloc);
        for i in 0..self.lists.len() {
            numbers.extend_from_slice(&self.lists[i])?;
        }
        Ok(numbers)
    }
}

impl<A: Allocator> Rows<A> {
    /// How many rows there are.
    pub fn count(&self) -> usize
        ensures { result ≡ length (rows_now self.now) }
    {
        self.lists.len()
    }

    /// The numbers of a row; none where there is no such row.
    pub fn row(&self, k: usize) -> &[usize]
        ensures { result.now ≡ numbers_of_row (rows_now self.now) k }
    {
        if k >= self.lists.len() {
            return &[];
        }
        &self.lists[k]
    }

    /// One number more in a row; none where there is no such row.
    pub fn add(&mut self, k: usize, number: usize) -> Result<(), AllocError>
        ensures { OnOk result (rows_now self.new ≡ with_row_number (rows_now self.old) k number) }
    {
        push_number(&mut self.lists, k, number)
    }
}

/// Puts a number at the end of one of some lists, where there is such a list.
fn push_number<A: Allocator>(
    lists: &mut Vec<Vec<usize, A>, A>,
    k: usize,
    number: usize,
) -> Result<(), AllocError>
    ensures { OnOk result
        (row_lists lists.new.items ≡ with_row_number (row_lists lists.old.items) k number) }
{
    if k >= lists.len() {
        return Ok(());
    }
    let list = &mut lists[k];
    list.push(number)?;
    Ok(())
}
