//! Of each processor the numbers of its operations.

ghost use Rattle.std.specs.Prelude.{◌≡◌, ◌<◌, length, vec_len, IfOk, IfErr, OnOk, slice_get};
ghost use Rattle.trace_text.specs.InsideNumbers.{number_lists};
ghost use Rattle.trace_text.specs.IssueNumbers.{no_numbers, numbers_of, with_number};

use std::alloc::{AllocError, Allocator, Global};
use std::marker::Model;
use torus::Fault;

/// Of each of 4096 processors the numbers of its operations, in the order of issue.
#[derive(Drop)]
pub struct IssueNumbers<A: Allocator = Global> {
    lists: Vec<Vec<u64, A>, A>,
}

impl<A: Allocator> Model for IssueNumbers<A> {
    ghost use Rattle.std.specs.Prelude.{List, ℕ};

    ghost Value = { List (List ℕ) };

    ghost use Rattle.trace_text.specs.InsideNumbers.{numbers_of_fields, AreNumberLists};

    ghost view = { numbers_of_fields };

    ghost invariant = { AreNumberLists };
}

impl<A: Allocator + Copy> IssueNumbers<A> {
    /// None of any processor.
    pub fn none(alloc: A) -> Result<IssueNumbers<A>, AllocError>
        ensures { IfOk result (λ numbers. numbers ≡ no_numbers) }
    {
        let mut lists = Vec::new(alloc);
        for _ in 0..4096usize {
            lists.push(Vec::new(alloc))?;
        }
        Ok(IssueNumbers { lists })
    }
}

impl<A: Allocator> IssueNumbers<A> {
    /// How many operations of a processor there are.
    pub fn count(&self, p: u32) -> u64
        requires { p < 4096 }
        ensures { result ≡ length (numbers_of self.now p) }
    {
        self.lists[p as usize].len() as u64
    }

    /// The number of the operation of a processor at an index, from 0, if there is one.
    pub fn number(&self, p: u32, index: u128) -> Option<u64>
        requires { p < 4096 }
        ensures { result ≡ slice_get (numbers_of self.now p) index }
    {
        number_at(&self.lists[p as usize], index)
    }

    /// One operation more of a processor.
    ///
    /// Errors: `Fault::Memory`, and nothing else.
    pub fn add(&mut self, p: u32, number: u64) -> Result<(), Fault>
        requires { p < 4096 }
        ensures value { OnOk result (self.new ≡ with_number self.old p number) }
        ensures memory { IfErr result (λ e. e ≡ Fault.Memory) }
    {
        push_number(&mut self.lists, p as usize, number)
    }
}

/// Puts a number at the end of one of some lists.
fn push_number<A: Allocator>(
    lists: &mut Vec<Vec<u64, A>, A>,
    p: usize,
    number: u64,
) -> Result<(), Fault>
    requires { p < vec_len lists.old }
    ensures value { OnOk result
        (number_lists lists.new.items ≡ with_number (number_lists lists.old.items) p number) }
    ensures sized { length lists.new.items ≡ length lists.old.items }
    ensures memory { IfErr result (λ e. e ≡ Fault.Memory) }
{
    let list = &mut lists[p];
    match list.push(number) {
        Ok(()) => Ok(()),
        Err(_) => Err(Fault::Memory),
    }
}

/// The number at an index.
fn number_at(numbers: &[u64], index: u128) -> Option<u64>
    ensures { result ≡ slice_get numbers.now index }
{
    if index >= numbers.len() as u128 {
        return None;
    }
    numbers.get(index as usize).copied()
}
