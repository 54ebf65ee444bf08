//! While a value stays that is left once, no other may come: what is answered meanwhile is due before.

ghost use Rattle.std.specs.Prelude.{◌<◌, ◌≤◌, length};

use crate::pairs::{number_at, set_number};
use crate::plan::{Plan, Step};
use crate::slots::Open;
use crate::values::{count_at, count_up};
use std::alloc::{AllocError, Allocator};

/// How often all operations are gone over for chains of them.
const CHAIN: usize = 4;

/// Of each value how many operations leave it, the first answer to one that finds or leaves it, and the last issue of
/// one that finds it; and of each event the value that surely is the word there, if one is.
#[derive(Drop)]
struct Holds<A: Allocator> {
    leavers: Vec<u32, A>,
    firsts: Vec<usize, A>,
    lasts: Vec<usize, A>,
    holders: Vec<Option<usize>, A>,
}

impl<A: Allocator> Holds<A> {
    /// A value at a place is found or left by an operation that this event answers.
    fn note_answer(&mut self, place: Option<usize>, answer: usize) {
        if let Some(i) = place
            && i < self.firsts.len()
        {
            self.firsts[i] = self.firsts[i].min(answer);
        }
    }

    /// It is found by one that this event issues.
    fn note_issue(&mut self, place: Option<usize>, issue: usize) {
        if let Some(i) = place
            && i < self.lasts.len()
        {
            self.lasts[i] = self.lasts[i].max(issue);
        }
    }

    /// Notes an operation that is answered.
    fn note(&mut self, open: Open) {
        self.note_answer(open.found, open.answer);
        self.note_answer(open.left, open.answer);
        self.note_issue(open.found, open.issue);
        count_up(&mut self.leavers, open.left);
    }

    /// Notes the operations that are answered, by their issues.
    fn note_steps(&mut self, steps: &[Step]) {
        for step in steps {
            if step.issues {
                self.note(step.open);
            }
        }
    }

    /// Notes the operations that are never answered, by the places of what they leave.
    fn note_lost(&mut self, plan: &Plan<A>) {
        for lost in &plan.lost {
            if let Some(kind) = plan.kinds.get(lost.kind) {
                count_up(&mut self.leavers, kind.left);
            }
        }
    }

    /// The events at which a value stays, up to the first at which another does.
    fn hold(&mut self, place: usize, from: usize, to: usize) {
        for event in from..to {
            if number_at(&self.holders, event).is_some() {
                return;
            }
            set_number(&mut self.holders, event, Some(place));
        }
    }

    /// The events at which each value stays that is left once.
    fn hold_all(&mut self) {
        for place in 0..self.leavers.len() {
            let from = self.firsts.get(place).copied().unwrap_or(0);
            let to = self.lasts.get(place).copied().unwrap_or(0);
            if count_at(&self.leavers, Some(place)) == 1 {
                self.hold(place, from, to);
            }
        }
    }

    /// The event by which the value is due that an operation alone leaves; its own answer, if that comes first.
    fn due_of_left(&self, open: Open) -> usize {
        if let Some(place) = open.left
            && count_at(&self.leavers, open.left) == 1
        {
            return open
                .answer
                .min(self.firsts.get(place).copied().unwrap_or(usize::MAX));
        }
        open.answer
    }

    /// When an operation is due: before the value comes that stays where it is answered.
    fn due_of(&self, open: Open) -> usize {
        let due = self.due_of_left(open);
        let Some(place) = number_at(&self.holders, due) else {
            return due;
        };
        if open.found == Some(place) || open.left == Some(place) {
            return due;
        }
        let first = self.firsts.get(place).copied().unwrap_or(0);
        first.saturating_sub(1)
    }

    /// A value is due no later than what another operation makes of it.
    fn note_chain(&mut self, steps: &[Step]) {
        for n in 0..steps.len() {
            let open = steps[steps.len() - 1 - n].open;
            let due = self.due_of_left(open);
            self.note_answer(open.found, due);
        }
    }

    /// Notes chains of so many operations, or longer ones.
    fn note_chains(&mut self, steps: &[Step]) {
        for _ in 0..CHAIN {
            self.note_chain(steps);
        }
    }
}

impl<A: Allocator + Copy> Plan<A> {
    /// Notes when operations are due, where there are so many values, and this one is the word at first.
    pub(crate) fn note_dues(
        &mut self,
        alloc: A,
        values: usize,
        opening: Option<usize>,
    ) -> Result<(), AllocError> {
        let mut holds = Holds {
            leavers: vec![in alloc; 0u32; values]?,
            firsts: vec![in alloc; usize::MAX; values]?,
            lasts: vec![in alloc; 0usize; values]?,
            holders: vec![in alloc; None; self.end]?,
        };
        holds.note_answer(opening, 0);
        count_up(&mut holds.leavers, opening);
        holds.note_steps(&self.steps);
        holds.note_lost(self);
        holds.note_chains(&self.steps);
        holds.hold_all();
        for i in 0..self.steps.len() {
            self.steps[i].open.due = holds.due_of(self.steps[i].open);
        }
        Ok(())
    }
}
