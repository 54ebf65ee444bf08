//! Lists of operations that wait, each in one list at most.

use crate::arcs::{NONE, at, is_set, put, set};
use std::alloc::{AllocError, Allocator};

/// The first operation of each list, the next one behind each, whether it is in a list, and the first list that may
/// have one of those that are looked through.
#[derive(Drop)]
pub(crate) struct Lists<A: Allocator> {
    heads: Vec<usize, A>,
    links: Vec<usize, A>,
    listed: Vec<bool, A>,
    lowest: usize,
}

/// So many empty lists.
pub(crate) fn empty_lists<A: Allocator + Copy>(
    alloc: A,
    lists: usize,
    operations: usize,
) -> Result<Lists<A>, AllocError> {
    Ok(Lists {
        heads: vec![in alloc; NONE; lists]?,
        links: vec![in alloc; NONE; operations]?,
        listed: vec![in alloc; false; operations]?,
        lowest: 0,
    })
}

impl<A: Allocator> Lists<A> {
    /// Puts an operation into a list, unless it is in one.
    pub(crate) fn put(&mut self, list: usize, x: usize) {
        if is_set(&self.listed, x) {
            return;
        }
        set(&mut self.listed, x, true);
        let head = at(&self.heads, list);
        put(&mut self.links, x, head);
        put(&mut self.heads, list, x);
        self.lowest = self.lowest.min(list);
    }

    /// Takes the newest operation from a list.
    pub(crate) fn take(&mut self, list: usize) -> Option<usize> {
        let x = at(&self.heads, list);
        if x == NONE {
            return None;
        }
        set(&mut self.listed, x, false);
        let next = at(&self.links, x);
        put(&mut self.heads, list, next);
        Some(x)
    }

    /// Takes an operation from the first list that has one, of those below a number.
    pub(crate) fn take_first(&mut self, end: usize) -> Option<usize> {
        for list in self.lowest..end {
            if let Some(x) = self.take(list) {
                self.lowest = list;
                return Some(x);
            }
        }
        self.lowest = self.lowest.max(end);
        None
    }
}
