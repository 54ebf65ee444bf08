//! Lists of numbers by place, where a guess may be beyond the end.

use std::alloc::{AllocError, Allocator};

/// What stands at a place of a list, and past its end a number that is no place.
pub fn at(list: &[usize], k: usize) -> usize {
    if k < list.len() { list[k] } else { usize::MAX }
}

/// Puts a number at a place, where there is one.
pub fn set_at(list: &mut [usize], k: usize, number: usize) {
    if k < list.len() {
        list[k] = number;
    }
}

/// Puts each place of a list at the place that the list has there.
fn invert(list: &[usize], inverse: &mut [usize]) {
    for k in 0..list.len() {
        set_at(inverse, list[k], k);
    }
}

/// So many places, of each the last place of a list that has it, and no place where none has.
///
/// Errors: out of memory.
pub fn inverse_of<A: Allocator + Copy>(
    alloc: A,
    list: &[usize],
    count: usize,
) -> Result<Vec<usize, A>, AllocError> {
    let mut inverse = vec![in alloc; usize::MAX; count]?;
    invert(list, &mut inverse);
    Ok(inverse)
}

/// Moves the numbers of a list that are below another to its front. How many they are is answered.
pub fn keep_below(list: &mut [usize], count: usize) -> usize {
    let mut kept: usize = 0;
    for k in 0..list.len() {
        let number = list[k];
        if number < count {
            set_at(list, kept, number);
            kept = kept.saturating_add(1);
        }
    }
    kept
}

/// Puts each place of a list at that place.
fn count_up(list: &mut [usize]) {
    for k in 0..list.len() {
        list[k] = k;
    }
}

/// So many numbers, from 0 on.
///
/// Errors: out of memory.
pub fn numbers_below<A: Allocator + Copy>(
    alloc: A,
    count: usize,
) -> Result<Vec<usize, A>, AllocError> {
    let mut list = vec![in alloc; 0; count]?;
    count_up(&mut list);
    Ok(list)
}
