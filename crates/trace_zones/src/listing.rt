//! An order of the operations by their zones. Nothing rests on it: it is checked.

ghost use Rattle.std.specs.Prelude.{◌<◌, ◌≤◌, length};

use crate::search::Word;
use crate::stretches::Stretch;
use crate::uses::issue_of;
use crate::values::is_marked;
use std::alloc::{AllocError, Allocator};
use trace_guess::listed::{Keyed, Listed, listed_by};
use trace_guess::pairs::number_at;
use trace_laws::Event;

/// The events that issue the operations of an order, and of each event the place of its operation.
#[derive(Drop)]
pub struct Listing<A: Allocator> {
    pub issues: Vec<usize, A>,
    pub places: Vec<usize, A>,
}

/// Operations in the order of one word after the other, each with the last event that issues one of its word up to it;
/// and whether each word could be put in an order.
#[derive(Drop)]
pub(crate) struct Turns<A: Allocator> {
    pub keyed: Vec<Keyed, A>,
    pub are_all: bool,
    last: usize,
}

/// No operations yet.
pub(crate) fn no_turns<A: Allocator + Copy>(alloc: A) -> Turns<A> {
    Turns {
        keyed: Vec::new(alloc),
        are_all: true,
        last: 0,
    }
}

impl<A: Allocator + Copy> Turns<A> {
    /// Adds an operation.
    fn add(&mut self, issue: usize) -> Result<(), AllocError> {
        self.last = self.last.max(issue);
        self.keyed.push(Keyed {
            key: self.last,
            item: issue,
        })?;
        Ok(())
    }

    /// Adds operations of one word.
    fn add_all(&mut self, word: &Word<A>, these: &[usize]) -> Result<(), AllocError> {
        for u in these {
            self.add(issue_of(&word.uses, *u))?;
        }
        Ok(())
    }

    /// Adds who wrote the value at a place, and who found and kept it.
    fn add_value(
        &mut self,
        word: &Word<A>,
        keepers: &Listed<A>,
        place: usize,
    ) -> Result<(), AllocError> {
        if let Some(writer) = number_at(&word.values.writers, place)
            && is_marked(&word.values.taken, writer)
        {
            self.add(issue_of(&word.uses, writer))?;
        }
        self.add_all(word, keepers.of(place))
    }

    /// Adds the operations that saw the values of a stretch.
    fn add_stretch(
        &mut self,
        word: &Word<A>,
        keepers: &Listed<A>,
        stretch: Stretch,
    ) -> Result<(), AllocError> {
        let mut next = Some(stretch.head);
        for _ in 0..stretch.size {
            let Some(place) = next else {
                return Ok(());
            };
            self.add_value(word, keepers, place)?;
            next = number_at(&word.values.nexts, place);
        }
        Ok(())
    }

    /// Adds the operations of a word, by the ranks of its stretches.
    fn add_ranked(
        &mut self,
        word: &Word<A>,
        keepers: &Listed<A>,
        stretches: &[Stretch],
        ranks: &[u64],
    ) -> Result<(), AllocError> {
        self.last = 0;
        for rank in ranks {
            let n = (*rank & 0xffff_ffff) as usize;
            if n < stretches.len() {
                self.add_stretch(word, keepers, stretches[n])?;
            }
        }
        Ok(())
    }

    /// Notes that a word can't be put in an order.
    pub(crate) fn stop(&mut self) {
        self.are_all = false;
    }

    /// Adds the operations of a word, where they can be put in an order.
    pub(crate) fn add_word(&mut self, alloc: A, word: &Word<A>) -> Result<(), AllocError> {
        if !self.are_all {
            return Ok(());
        }
        let (true, Ok(stretches)) = (word.values.are_different, word.stretches(alloc)?) else {
            self.stop();
            return Ok(());
        };
        let ranks = word.ranked(alloc, &stretches)?;
        let keepers = keepers_of(alloc, word)?;
        self.add_ranked(word, &keepers, &stretches, &ranks)
    }
}

/// Of each value of a word the operations that found it and left no other.
fn keepers_of<A: Allocator + Copy>(alloc: A, word: &Word<A>) -> Result<Listed<A>, AllocError> {
    let mut keyed = Vec::new(alloc);
    for item in 0..word.uses.len() {
        let known = word.uses[item];
        if known.left.is_none()
            && known.answer.is_some()
            && let Some(key) = word.values.place_of(known.found)
        {
            keyed.push(Keyed { key, item })?;
        }
    }
    listed_by(alloc, word.values.numbers.len(), &keyed)
}

/// Of each event the place of its operation.
fn places_of<A: Allocator + Copy>(
    alloc: A,
    events: &[Event],
    partners: &[Option<usize>],
    issues: &[usize],
) -> Result<Vec<usize, A>, AllocError> {
    let mut places = vec![in alloc; 0usize; events.len()]?;
    for x in 0..issues.len() {
        let issue = issues[x];
        if issue < places.len() {
            places[issue] = x;
        }
        if let Some(answer) = number_at(partners, issue)
            && answer < places.len()
        {
            places[answer] = x;
        }
    }
    Ok(places)
}

/// The order of these operations.
pub(crate) fn listing_of<A: Allocator + Copy>(
    alloc: A,
    events: &[Event],
    partners: &[Option<usize>],
    turns: &Turns<A>,
) -> Result<Listing<A>, AllocError> {
    let listed = listed_by(alloc, events.len(), &turns.keyed)?;
    let places = places_of(alloc, events, partners, &listed.items)?;
    Ok(Listing {
        issues: listed.items,
        places,
    })
}
