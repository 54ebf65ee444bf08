//! The values of one word: who wrote each, who found it, and which value came next.

ghost use Rattle.std.specs.Prelude.{◌<◌, ◌≤◌, length};

use crate::uses::{Use, answer_of, earlier_answer, later_issue};
use std::alloc::{AllocError, Allocator};
use trace_guess::pairs::{number_at, set_number};

/// The values that operations of a word found or left, which rise. Of each: the first operation that may have written
/// it; whether others may have too, or it is the opening word again; the operation answered first that found it; the
/// operation that found it and left another, and the place of that; whether there is a value before it; and of those
/// that saw it the one answered first and the one issued last.
#[derive(Drop)]
pub(crate) struct Values<A: Allocator> {
    pub numbers: Vec<u64, A>,
    pub opening: Option<usize>,
    pub writers: Vec<Option<usize>, A>,
    pub marked: Vec<bool, A>,
    pub readers: Vec<Option<usize>, A>,
    pub leavers: Vec<Option<usize>, A>,
    pub nexts: Vec<Option<usize>, A>,
    pub behind: Vec<bool, A>,
    pub firsts: Vec<Option<usize>, A>,
    pub lasts: Vec<Option<usize>, A>,
    /// Of each operation whether it surely took effect.
    pub taken: Vec<bool, A>,
    /// The place of a value that was left twice, and who did.
    pub twice: Option<(usize, usize, usize)>,
    /// Whether each value is written by one operation at most, and none is the opening word.
    pub are_different: bool,
}

/// Whether there is a mark at a place.
pub(crate) fn is_marked(marks: &[bool], place: usize) -> bool {
    marks.get(place).copied().unwrap_or(false)
}

/// Marks a place, if there is the place.
pub(crate) fn mark(marks: &mut [bool], place: usize) {
    if place < marks.len() {
        marks[place] = true;
    }
}

/// The values that operations found or left, which rise, and the opening word.
fn numbers_of<A: Allocator>(
    alloc: A,
    opening: u64,
    uses: &[Use],
) -> Result<Vec<u64, A>, AllocError> {
    let mut numbers = Vec::new(alloc);
    numbers.push(opening)?;
    for known in uses {
        if let Some(found) = known.found {
            numbers.push(found)?;
        }
        if let Some(left) = known.left {
            numbers.push(left)?;
        }
    }
    numbers.sort_unstable();
    numbers.dedup();
    Ok(numbers)
}

/// The values of a word, of which nothing is known yet.
fn empty_values<A: Allocator + Copy>(
    alloc: A,
    opening: u64,
    uses: &[Use],
) -> Result<Values<A>, AllocError> {
    let numbers = numbers_of(alloc, opening, uses)?;
    let count = numbers.len();
    Ok(Values {
        opening: numbers.binary_search(&opening).ok(),
        numbers,
        writers: vec![in alloc; None; count]?,
        marked: vec![in alloc; false; count]?,
        readers: vec![in alloc; None; count]?,
        leavers: vec![in alloc; None; count]?,
        nexts: vec![in alloc; None; count]?,
        behind: vec![in alloc; false; count]?,
        firsts: vec![in alloc; None; count]?,
        lasts: vec![in alloc; None; count]?,
        taken: vec![in alloc; false; uses.len()]?,
        twice: None,
        are_different: true,
    })
}

/// The values of a word.
pub(crate) fn values_of<A: Allocator + Copy>(
    alloc: A,
    opening: u64,
    uses: &[Use],
) -> Result<Values<A>, AllocError> {
    let mut values = empty_values(alloc, opening, uses)?;
    values.note_writers(uses);
    values.note_readers(uses);
    values.take_written(uses);
    values.link_all(uses);
    values.see_all(uses);
    Ok(values)
}

impl<A: Allocator> Values<A> {
    /// The place of a value that one operation may have written.
    pub(crate) fn place_of(&self, value: Option<u64>) -> Option<usize> {
        let number = value?;
        let place = self.numbers.binary_search(&number).ok()?;
        if is_marked(&self.marked, place) {
            return None;
        }
        Some(place)
    }

    /// Notes who may have written each value.
    fn note_writers(&mut self, uses: &[Use]) {
        for u in 0..uses.len() {
            if let Some(place) = self.place_of(uses[u].left) {
                if number_at(&self.writers, place).is_some() || self.opening == Some(place) {
                    mark(&mut self.marked, place);
                    self.are_different = false;
                }
                set_number(&mut self.writers, place, Some(u));
            }
        }
    }

    /// Notes who found each value, and that what was answered took effect.
    fn note_readers(&mut self, uses: &[Use]) {
        for u in 0..uses.len() {
            if uses[u].answer.is_some() {
                mark(&mut self.taken, u);
                if let Some(place) = self.place_of(uses[u].found) {
                    let first = number_at(&self.readers, place);
                    let earlier = earlier_answer(uses, first, Some(u));
                    set_number(&mut self.readers, place, earlier);
                }
            }
        }
    }

    /// What wrote the value at a place took effect, and so on back.
    fn take_back(&mut self, uses: &[Use], place: usize) {
        let mut next = Some(place);
        for _ in 0..uses.len() {
            let Some(at) = next else {
                return;
            };
            let Some(writer) = number_at(&self.writers, at) else {
                return;
            };
            if is_marked(&self.taken, writer) {
                return;
            }
            mark(&mut self.taken, writer);
            next = match uses.get(writer).copied() {
                Some(known) => self.place_of(known.found),
                None => None,
            };
        }
    }

    /// What wrote a value that was found took effect.
    fn take_written(&mut self, uses: &[Use]) {
        for place in 0..self.numbers.len() {
            if number_at(&self.readers, place).is_some() && !is_marked(&self.marked, place) {
                self.take_back(uses, place);
            }
        }
    }

    /// Notes that an operation found the value at one place, and left another.
    fn link(&mut self, u: usize, place: usize, left: u64) {
        if let Some(first) = number_at(&self.leavers, place) {
            self.twice = Some((place, first, u));
            return;
        }
        set_number(&mut self.leavers, place, Some(u));
        if let Some(next) = self.place_of(Some(left)) {
            set_number(&mut self.nexts, place, Some(next));
            mark(&mut self.behind, next);
        }
    }

    /// Notes which values came next.
    fn link_all(&mut self, uses: &[Use]) {
        for u in 0..uses.len() {
            if is_marked(&self.taken, u)
                && let Some(place) = self.place_of(uses[u].found)
                && let Some(left) = uses[u].left
            {
                self.link(u, place, left);
            }
        }
    }

    /// Notes that an operation saw the value at a place.
    fn see(&mut self, uses: &[Use], u: usize, value: Option<u64>) {
        if let Some(place) = self.place_of(value) {
            let last = later_issue(uses, number_at(&self.lasts, place), Some(u));
            set_number(&mut self.lasts, place, last);
            if answer_of(uses, u).is_some() {
                let first = earlier_answer(uses, number_at(&self.firsts, place), Some(u));
                set_number(&mut self.firsts, place, first);
            }
        }
    }

    /// Notes who saw each value.
    fn see_all(&mut self, uses: &[Use]) {
        for u in 0..uses.len() {
            if is_marked(&self.taken, u) {
                self.see(uses, u, uses[u].left);
                if uses[u].answer.is_some() {
                    self.see(uses, u, uses[u].found);
                }
            }
        }
    }
}
