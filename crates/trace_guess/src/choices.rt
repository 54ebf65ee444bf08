//! What a search tries next.

ghost use Rattle.std.specs.Prelude.{◌<◌, ◌≤◌, length};

use crate::search::{Choice, Search, Taker};
use crate::slots::{Open, is_store};
use packet::{Op, apply};
use std::alloc::{AllocError, Allocator};

/// Of the word that is to be followed by another: the place of its value, and how many operations find it.
#[derive(Clone, Copy)]
pub(crate) struct Ending {
    pub place: Option<usize>,
    pub finds: u32,
}

impl<A: Allocator + Copy> Search<A> {
    /// What is to be known of the word before another follows.
    fn ending(&self) -> Ending {
        let word = self.state.word;
        Ending {
            place: self.values.place_of(Some(word)),
            finds: self.values.finds_of(word),
        }
    }

    /// The cost for another word to follow, by the operation in a slot, which finds the value at a place. The word
    /// must come again, unless all others that find it have taken effect.
    fn cost_to_end(
        &self,
        ending: Ending,
        new: u64,
        slot: Option<usize>,
        found: Option<usize>,
    ) -> Option<usize> {
        let own = if found.is_some() && found == ending.place {
            1
        } else {
            0
        };
        if new == self.state.word {
            return Some(0);
        }
        let leave = self.cost_to_leave(new)?;
        if ending.finds <= own {
            return Some(leave);
        }
        Some(
            self.cost_again(slot, own)?
                .saturating_add(leave)
                .saturating_add(1),
        )
    }

    /// When a choice of some cost is due: later than all that cost less.
    fn delayed(&self, due: usize, cost: usize) -> usize {
        due.saturating_add(self.plan.end.saturating_mul(cost))
    }

    /// Swaps a choice with the one below, if that is due earlier. Says whether it did.
    fn sink(&mut self, i: usize) -> bool {
        if i == 0 || i >= self.choices.len() || self.choices[i - 1].due >= self.choices[i].due {
            return false;
        }
        self.choices.swap(i - 1, i);
        true
    }

    /// Adds a choice above those from a place on that are due no earlier.
    fn add_choice(
        &mut self,
        from: usize,
        taker: Taker,
        op: Op,
        due: usize,
    ) -> Result<(), AllocError> {
        let mut place = self.choices.len();
        self.choices.push(Choice {
            state: self.state,
            turns: self.turns.len(),
            taker,
            op,
            due,
        })?;
        for _ in from..place {
            if !self.sink(place) {
                return Ok(());
            }
            place = place.saturating_sub(1);
        }
        Ok(())
    }

    /// Adds the operation in a slot, if it may take effect and is of use.
    fn try_slot(
        &mut self,
        from: usize,
        ending: Ending,
        slot: usize,
        answered: Open,
    ) -> Result<(), AllocError> {
        let Some(open) = self.waiting_at(slot) else {
            return Ok(());
        };
        let (new, reply) = apply(open.op, self.state.word);
        let is_owed = open.found.is_some() && open.found == ending.place;
        if reply != open.reply
            || self.state.owes && !is_owed
            || slot != answered.slot && self.is_silent(open)
        {
            return Ok(());
        }
        if let Some(cost) = self.cost_to_end(ending, new, Some(slot), open.found) {
            let due = open.due.min(self.due_from(new));
            self.add_choice(from, Taker::Slot(slot), open.op, self.delayed(due, cost))?;
        }
        Ok(())
    }

    /// Adds the first operation of a kind, if it is issued and leads to a value that an open operation finds.
    fn try_kind(
        &mut self,
        from: usize,
        ending: Ending,
        i: usize,
        event: usize,
    ) -> Result<(), AllocError> {
        let Some((kind, _, lost)) = self.plan.first_of(i) else {
            return Ok(());
        };
        if lost.issue > event || event > kind.until {
            return Ok(());
        }
        let (new, _) = apply(kind.op, self.state.word);
        if new == self.state.word
            || self.state.owes && is_store(kind.op)
            || !self.values.is_wanted(new, true)
        {
            return Ok(());
        }
        if let Some(cost) = self.cost_to_end(ending, new, None, None) {
            let due = self.due_from(new);
            self.add_choice(from, Taker::Kind(i), kind.op, self.delayed(due, cost))?;
        }
        Ok(())
    }

    /// Adds what may take effect before an operation is answered: the choice that is due first stands last.
    pub(crate) fn add_choices(&mut self, answered: Open) -> Result<(), AllocError> {
        let from = self.choices.len();
        let ending = self.ending();
        self.plan.come_near(answered.answer)?;
        for n in 0..self.plan.near.kinds.len() {
            if let Some(i) = self.plan.near_at(n) {
                self.try_kind(from, ending, i, answered.answer)?;
            }
        }
        for slot in 0..self.slots.table.len() {
            self.try_slot(from, ending, slot, answered)?;
        }
        Ok(())
    }
}
