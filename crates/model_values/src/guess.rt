//! A guess at an order that explains a trace, or at pairs of operations that go around in each.

use crate::arcs::{Arcs, NONE, at, count_down, count_up, put};
use crate::conflict::{Choice, Grounds};
use crate::forced::Step;
use crate::lists::empty_lists;
use crate::placed::count_writes;
use crate::question::Unordered;
use crate::schedule::Schedule;
use crate::starting::{first_arcs, reads};
use crate::waits::Wait;
use memory_models::Kind;
use std::alloc::{AllocError, Allocator};

/// How often a run may come to an end before it is given up, but for one end in so many operations.
const ENDS: usize = 2000;

const FOR_ONE: usize = 8;

/// How often each operation may be taken back.
const TIMES: usize = 40;

/// A guess at the place of each operation; none where the list is empty. And pairs, with their reasons, that may go
/// around.
#[derive(Drop)]
pub(crate) struct Guess<A: Allocator> {
    pub places: Vec<usize, A>,
    pub steps: Vec<Step, A>,
    pub paths: Vec<usize, A>,
}

/// How many arcs lead to each operation.
fn pending_of<A: Allocator + Copy>(alloc: A, arcs: &Arcs<A>) -> Result<Vec<usize, A>, AllocError> {
    let mut pending = vec![in alloc; 0usize; arcs.to.len()]?;
    for k in 0..arcs.list.len() {
        count_up(&mut pending, arcs.list[k].to);
    }
    Ok(pending)
}

/// Raises the level of what comes behind an operation, and lists what nothing else comes before.
fn raise_behind<A: Allocator + Copy>(
    arcs: &Arcs<A>,
    x: usize,
    pending: &mut [usize],
    levels: &mut [usize],
    open: &mut Vec<usize, A>,
) -> Result<(), AllocError> {
    let above = at(levels, x).saturating_add(1);
    let mut place = at(&arcs.from, x);
    for _ in 0..arcs.list.len() {
        let Some(arc) = arcs.arc(place) else {
            return Ok(());
        };
        let level = at(levels, arc.to).max(above);
        put(levels, arc.to, level);
        count_down(pending, arc.to);
        if at(pending, arc.to) == 0 {
            open.push(arc.to)?;
        }
        place = arc.next_from;
    }
    Ok(())
}

/// The level of each operation: above that of each that an arc leads from. None where arcs go around.
fn levels_of<A: Allocator + Copy>(
    alloc: A,
    arcs: &Arcs<A>,
) -> Result<Option<Vec<usize, A>>, AllocError> {
    let mut pending = pending_of(alloc, arcs)?;
    let mut levels = vec![in alloc; 0usize; pending.len()]?;
    let mut open = Vec::new(alloc);
    for x in 0..pending.len() {
        if pending[x] == 0 {
            open.push(x)?;
        }
    }
    for k in 0..pending.len() {
        let Some(x) = open.get(k).copied() else {
            return Ok(None);
        };
        raise_behind(arcs, x, &mut pending, &mut levels, &mut open)?;
    }
    Ok(Some(levels))
}

impl<'a, A: Allocator + Copy> Schedule<'a, A> {
    /// Chains what reads each write, and notes how high it stands.
    fn chain_readers(&mut self) {
        for y in 0..self.question.operations.len() {
            if reads(self.question.operations, y) {
                let source = self.source(y);
                count_up(&mut self.unread, source);
                let reader = at(&self.readers, source);
                put(&mut self.next_readers, y, reader);
                put(&mut self.readers, source, y);
                let late = at(&self.lates, source).max(at(&self.levels, y));
                put(&mut self.lates, source, late);
            }
        }
    }

    /// Lists what may be done first.
    fn enlist_first(&mut self) {
        for x in 0..self.question.operations.len() {
            if at(&self.pending, x) == 0 {
                self.enlist(x);
            }
        }
    }

    /// The next one of drawn numbers, below a limit.
    fn draw(&mut self, limit: usize) -> usize {
        self.drawn = self
            .drawn
            .wrapping_mul(6_364_136_223_846_793_005)
            .wrapping_add(1_442_695_040_888_963_407);
        if limit == 0 {
            0
        } else {
            (self.drawn >> 33) as usize % limit
        }
    }

    /// The choice that was made last; now and then another one.
    fn pick(&mut self, choices: &[Choice]) -> Option<Choice> {
        if self.draw(4) == 0 {
            let place = self.draw(choices.len());
            return choices.get(place).copied();
        }
        let mut last = choices.get(0).copied();
        let mut time = 0usize;
        for k in 0..choices.len() {
            let made = at(&self.times, choices[k].first);
            if made >= time {
                time = made;
                last = Some(choices[k]);
            }
        }
        last
    }

    /// Changes a choice or a guess that a circle rests on. Says whether there is one.
    fn change(&mut self, circle: &[Wait], grounds: &Grounds<A>) -> Result<bool, AllocError> {
        if grounds.guesses.is_empty() || self.draw(3) > 0 {
            if let Some(choice) = self.pick(&grounds.choices) {
                self.guess(choice)?;
                return Ok(true);
            }
        }
        let drawn = self.draw(grounds.guesses.len());
        let Some(place) = grounds.guesses.get(drawn).copied() else {
            return Ok(false);
        };
        if grounds.choices.is_empty() && grounds.guesses.len() == 1 {
            self.refute(circle, place)?;
            return Ok(true);
        }
        if let Some(wait) = circle.get(place) {
            self.drop_guess(wait.arc);
        }
        Ok(true)
    }

    /// Goes on where operations wait for one another around. Says whether it can.
    fn turn(&mut self, alloc: A) -> Result<bool, AllocError> {
        let mut circle = self.circle(alloc)?;
        if circle.is_empty() {
            return Ok(false);
        }
        let grounds = self.grounds_of(alloc, &mut circle)?;
        if grounds.choices.len() == 1 && grounds.guesses.is_empty() {
            self.conclude(&circle, grounds.choices[0])?;
            return Ok(true);
        }
        self.change(&circle, &grounds)
    }

    /// Puts the writes of a word at the places below one. Returns the lowest one.
    fn place_writes(&self, word: usize, end: usize, places: &mut [usize]) -> usize {
        let mut place = end;
        let mut x = at(&self.newest, word);
        for _ in 0..places.len() {
            if x == NONE {
                return place;
            }
            place = place.saturating_sub(1);
            put(places, x, place);
            x = at(&self.before, x);
        }
        place
    }

    /// The places of writes as they were done, and of loads those of their sources; none where not all is done.
    fn places(&self, alloc: A) -> Result<Vec<usize, A>, AllocError> {
        if self.left > 0 {
            return Ok(Vec::new(alloc));
        }
        let count = self.question.operations.len();
        let mut places = vec![in alloc; 0usize; count]?;
        let mut end = count_writes(self.question.operations);
        for n in 0..self.newest.len() {
            end = self.place_writes(self.newest.len() - 1 - n, end, &mut places);
        }
        for x in 0..count {
            if matches!(self.kind(x), Kind::Load) {
                let place = at(&places, self.source(x));
                put(&mut places, x, place);
            }
        }
        Ok(places)
    }

    /// Runs until all is done, or it is given up.
    fn finish(&mut self, alloc: A) -> Result<(), AllocError> {
        let count = self.question.operations.len();
        for _ in 0..(count / FOR_ONE).saturating_add(ENDS) {
            self.run();
            if self.left == 0
                || self.taken_back > count.saturating_add(ENDS).saturating_mul(TIMES)
            {
                return Ok(());
            }
            if !self.turn(alloc)? {
                return Ok(());
            }
        }
        Ok(())
    }
}

/// A run that has not begun.
fn schedule_of<'a, A: Allocator + Copy>(
    alloc: A,
    question: &'a Unordered<'a>,
    arcs: Arcs<A>,
    levels: Vec<usize, A>,
) -> Result<Schedule<'a, A>, AllocError> {
    let count = question.operations.len();
    let lists = count.saturating_add(2).saturating_add(question.words);
    Ok(Schedule {
        question,
        pending: pending_of(alloc, &arcs)?,
        arcs,
        unread: vec![in alloc; 0usize; count]?,
        readers: vec![in alloc; NONE; count]?,
        next_readers: vec![in alloc; NONE; count]?,
        lates: levels.clone()?,
        levels,
        before: vec![in alloc; NONE; count]?,
        behind: vec![in alloc; NONE; count]?,
        done: vec![in alloc; false; count]?,
        times: vec![in alloc; 0usize; count]?,
        newest: vec![in alloc; NONE; question.words]?,
        lists: empty_lists(alloc, lists, count)?,
        clock: 0,
        left: count,
        undone: Vec::new(alloc),
        again: Vec::new(alloc),
        seen: vec![in alloc; NONE; count]?,
        links: vec![in alloc; NONE; count]?,
        drawn: 12_345,
        taken_back: 0,
    })
}

/// A guess at an order that explains a trace, or at pairs that go around.
///
/// Errors: out of memory.
pub(crate) fn guess_of<A: Allocator + Copy>(
    alloc: A,
    question: &Unordered,
) -> Result<Guess<A>, AllocError> {
    let arcs = first_arcs(alloc, question)?;
    let Some(levels) = levels_of(alloc, &arcs)? else {
        return Ok(Guess {
            places: Vec::new(alloc),
            steps: arcs.steps,
            paths: arcs.paths,
        });
    };
    let mut schedule = schedule_of(alloc, question, arcs, levels)?;
    schedule.chain_readers();
    schedule.enlist_first();
    schedule.finish(alloc)?;
    let places = schedule.places(alloc)?;
    Ok(Guess {
        places,
        steps: schedule.arcs.steps,
        paths: schedule.arcs.paths,
    })
}
