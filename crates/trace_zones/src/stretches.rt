//! The stretches of one word: values of which each was left for the next, from one that was entered from outside.

ghost use Rattle.std.specs.Prelude.{◌<◌, ◌≤◌, length};

use crate::uses::{Use, answer_of, earlier_answer, is_over_before, issue_of, later_issue};
use crate::values::{Values, is_marked, mark};
use crate::zone::Zone;
use std::alloc::{AllocError, Allocator};
use trace_guess::pairs::number_at;

/// Values from the one at a place on; the operation that saw one of them and was answered first, and the one that was
/// issued last.
#[derive(Clone, Copy)]
pub(crate) struct Stretch {
    pub head: usize,
    pub size: usize,
    pub opening: bool,
    pub first: Option<usize>,
    pub last: Option<usize>,
}

/// Where a stretch contradicts itself: how many values come first, an operation that saw a later value, and another,
/// issued when that was answered, that saw an earlier one.
#[derive(Clone, Copy)]
pub(crate) struct Cut {
    pub stretch: Stretch,
    pub late: usize,
    pub early: usize,
    /// The place of the first of the later values.
    pub place: usize,
}

impl Stretch {
    /// The number of the first answer, from 1; 0 where the stretch has the opening word.
    pub(crate) fn first_time(&self, uses: &[Use]) -> usize {
        if self.opening {
            return 0;
        }
        match self.first {
            Some(u) => answer_of(uses, u).unwrap_or(usize::MAX).saturating_add(1),
            None => usize::MAX,
        }
    }

    /// The number of the last issue, from 1; 0 where there is none.
    pub(crate) fn last_time(&self, uses: &[Use]) -> usize {
        match self.last {
            Some(u) => issue_of(uses, u).saturating_add(1),
            None => 0,
        }
    }
}

impl<A: Allocator + Copy> Values<A> {
    /// The stretch from the value at a place on; or where it contradicts itself.
    pub(crate) fn stretch_from(&self, uses: &[Use], head: usize) -> Result<Stretch, Cut> {
        let mut stretch = Stretch {
            head,
            size: 0,
            opening: self.opening == Some(head),
            first: None,
            last: None,
        };
        let mut next = Some(head);
        for _ in 0..self.numbers.len() {
            let Some(place) = next else {
                return Ok(stretch);
            };
            let first = number_at(&self.firsts, place);
            if let (Some(late), Some(early)) = (first, stretch.last)
                && is_over_before(uses, late, early)
            {
                return Err(Cut {
                    stretch,
                    late,
                    early,
                    place,
                });
            }
            stretch.first = earlier_answer(uses, stretch.first, first);
            stretch.last = later_issue(uses, stretch.last, number_at(&self.lasts, place));
            stretch.size = stretch.size.saturating_add(1);
            next = number_at(&self.nexts, place);
        }
        Ok(stretch)
    }

    /// The values at some places, from one on, as a zone.
    pub(crate) fn zone_from(
        &self,
        alloc: A,
        uses: &[Use],
        head: usize,
        size: usize,
    ) -> Result<Zone<A>, AllocError> {
        let entry = match number_at(&self.writers, head) {
            Some(writer) => Some(issue_of(uses, writer)),
            None => None,
        };
        let mut zone = Zone {
            words: Vec::new(alloc),
            entry,
            reader: 0,
        };
        let mut next = Some(head);
        for _ in 0..size.min(self.numbers.len()) {
            let Some(place) = next else {
                break;
            };
            if let Some(number) = self.numbers.get(place).copied() {
                zone.words.push(number)?;
            }
            if let Some(reader) = number_at(&self.readers, place) {
                zone.reader = issue_of(uses, reader);
            }
            next = number_at(&self.nexts, place);
            if next == Some(head) {
                break;
            }
        }
        zone.words.sort_unstable();
        Ok(zone)
    }

    /// Marks the values of the stretch from a place on.
    fn walk(&self, seen: &mut [bool], head: usize) {
        let mut next = Some(head);
        for _ in 0..self.numbers.len() {
            let Some(place) = next else {
                return;
            };
            mark(seen, place);
            next = number_at(&self.nexts, place);
        }
    }

    /// The place of a value of a circle: each was left for the next, and none was entered from outside.
    pub(crate) fn circle(&self, alloc: A) -> Result<Option<usize>, AllocError> {
        let mut seen = vec![in alloc; false; self.numbers.len()]?;
        for place in 0..self.numbers.len() {
            if self.is_head(place) {
                self.walk(&mut seen, place);
            }
        }
        for place in 0..self.numbers.len() {
            if is_marked(&self.behind, place) && !is_marked(&seen, place) {
                return Ok(Some(place));
            }
        }
        Ok(None)
    }

    /// Whether a stretch begins with the value at a place.
    pub(crate) fn is_head(&self, place: usize) -> bool {
        !is_marked(&self.marked, place) && !is_marked(&self.behind, place)
    }
}
