//! What a search over one word goes through: its events, and the operations that are never answered.

ghost use Rattle.std.specs.Prelude.{◌<◌, ◌≤◌, length};

use crate::near::Near;
use crate::pairs::{call_at, found_by, left_by, number_at, reply_at};
use crate::slots::{Open, Slots};
use crate::values::{Values, lost_at};
use packet::Op;
use std::alloc::{AllocError, Allocator};
use trace_laws::Event;

/// How many unlike operations without an answer are looked at.
const KINDS: usize = 1 << 14;

/// An event of the word: the issue of an operation that is answered, or its answer.
#[derive(Clone, Copy)]
pub(crate) struct Step {
    pub open: Open,
    pub issues: bool,
}

/// An operation that is never answered, by the event of its issue; which of the kinds it is of, and the next one.
#[derive(Clone, Copy)]
pub(crate) struct Lost {
    pub issue: usize,
    pub kind: usize,
    pub next: Option<usize>,
}

/// Operations that are never answered and do the same: what they ask, the place of the value that they leave, the first
/// of them that hasn't taken effect, and the first event and the last one before which they may be of use.
#[derive(Clone, Copy)]
pub(crate) struct Kind {
    pub op: Op,
    pub left: Option<usize>,
    pub first: Option<usize>,
    pub from: usize,
    pub until: usize,
}

/// The events of a word, its operations that are answered, and those that are not; how many slots there are, how many
/// events the trace has, and the kinds that are near.
#[derive(Drop)]
pub(crate) struct Plan<A: Allocator> {
    pub steps: Vec<Step, A>,
    pub kinds: Vec<Kind, A>,
    pub lost: Vec<Lost, A>,
    pub width: usize,
    pub end: usize,
    pub near: Near<A>,
}

/// What an operation does whose reply nobody knows: a swap is a store.
fn blind(op: Op) -> Op {
    match op {
        Op::Swap(word) => Op::Store(word),
        other => other,
    }
}

impl<A: Allocator> Plan<A> {
    /// An event of the word.
    pub(crate) fn step_at(&self, place: usize) -> Option<Step> {
        self.steps.get(place).copied()
    }

    /// A kind, the place of its first operation that hasn't taken effect, and that operation.
    pub(crate) fn first_of(&self, i: usize) -> Option<(Kind, usize, Lost)> {
        let kind = self.kinds.get(i).copied()?;
        let place = kind.first?;
        let lost = self.lost.get(place).copied()?;
        Some((kind, place, lost))
    }

    /// Another operation of a kind is the first that hasn't taken effect.
    pub(crate) fn set_first(&mut self, i: usize, first: Option<usize>) {
        if i < self.kinds.len() {
            self.kinds[i].first = first;
        }
    }

    /// The operation without an answer at a place no longer has taken effect.
    pub(crate) fn put_first(&mut self, place: usize) {
        if let Some(lost) = self.lost.get(place).copied() {
            self.set_first(lost.kind, Some(place));
        }
    }
}

impl<A: Allocator + Copy> Plan<A> {
    /// The kind of an operation, a new one where there is none.
    fn kind_of(&mut self, kind: Kind) -> Result<Option<usize>, AllocError> {
        for i in 0..self.kinds.len() {
            if self.kinds[i].op == kind.op {
                return Ok(Some(i));
            }
        }
        let count = self.kinds.len();
        if count >= KINDS {
            return Ok(None);
        }
        self.kinds.push(kind)?;
        Ok(Some(count))
    }

    /// Puts an operation without an answer before the others of its kind.
    fn put_lost(&mut self, issue: usize, kind: Kind) -> Result<(), AllocError> {
        if let Some(i) = self.kind_of(kind)?
            && i < self.kinds.len()
        {
            let next = self.kinds[i].first;
            self.kinds[i].first = Some(self.lost.len());
            self.kinds[i].from = issue;
            self.lost.push(Lost {
                issue,
                kind: i,
                next,
            })?;
        }
        Ok(())
    }

    /// Takes up an operation without an answer, if it may be of use; else it counts no more.
    fn add_lost(&mut self, values: &mut Values<A>, issue: usize, op: Op) -> Result<(), AllocError> {
        let value = left_by(op, None);
        let left = values.place_of(value);
        let until = match value {
            Some(word) => values.last_need(word),
            None => self.end,
        };
        if until <= issue || op == Op::Load {
            values.take(None, left);
            return Ok(());
        }
        if let Op::Cas(from, _) = op {
            values.note_lead(from, until);
        }
        self.put_lost(
            issue,
            Kind {
                op,
                left,
                first: None,
                from: issue,
                until,
            },
        )
    }

    /// Takes up the operations without an answer, the last one first.
    fn add_all_lost(
        &mut self,
        values: &mut Values<A>,
        events: &[Event],
        partners: &[Option<usize>],
        mine: &[usize],
    ) -> Result<(), AllocError> {
        for n in 0..mine.len() {
            let k = mine[mine.len() - 1 - n];
            if let Some(op) = lost_at(events, partners, k) {
                self.add_lost(values, k, blind(op))?;
            }
        }
        Ok(())
    }

    /// Adds the issue of an operation that is answered. Says whether there is a slot for it.
    fn add_issue(&mut self, slots: &mut Slots<A>, unplaced: Open) -> Result<bool, AllocError> {
        let Some(slot) = slots.free_slot()? else {
            return Ok(false);
        };
        let open = Open { slot, ..unplaced };
        slots.set(slot, Some(open));
        self.steps.push(Step { open, issues: true })?;
        Ok(true)
    }

    /// Adds the answer of the operation that an event issues.
    fn add_answer(&mut self, slots: &mut Slots<A>, issue: usize) -> Result<(), AllocError> {
        if let Some(open) = slots.of_issue(issue) {
            slots.set(open.slot, None);
            self.steps.push(Step {
                open,
                issues: false,
            })?;
        }
        Ok(())
    }

    /// Adds an event. Says whether there is room for it.
    fn add(
        &mut self,
        slots: &mut Slots<A>,
        values: &Values<A>,
        events: &[Event],
        partners: &[Option<usize>],
        k: usize,
    ) -> Result<bool, AllocError> {
        let Some(other) = number_at(partners, k) else {
            return Ok(true);
        };
        let Some(call) = call_at(events, k) else {
            self.add_answer(slots, other)?;
            return Ok(true);
        };
        let Some(reply) = reply_at(events, partners, k) else {
            return Ok(true);
        };
        let op = call.operation.op;
        let open = Open {
            issue: k,
            answer: other,
            due: other,
            op,
            reply,
            found: values.place_of(found_by(Some(reply))),
            left: values.place_of(left_by(op, Some(reply))),
            slot: 0,
        };
        self.add_issue(slots, open)
    }
}

/// What a search over a word goes through, if never too many of its operations are open.
pub(crate) fn plan_of<A: Allocator + Copy>(
    alloc: A,
    values: &mut Values<A>,
    events: &[Event],
    partners: &[Option<usize>],
    mine: &[usize],
) -> Result<Option<Plan<A>>, AllocError> {
    let mut plan = Plan {
        steps: Vec::new(alloc),
        kinds: Vec::new(alloc),
        lost: Vec::new(alloc),
        width: 0,
        end: events.len(),
        near: Near {
            kinds: Vec::new(alloc),
            from: 0,
            to: 0,
        },
    };
    plan.add_all_lost(values, events, partners, mine)?;
    let mut slots = Slots {
        table: Vec::new(alloc),
    };
    for k in mine {
        if !plan.add(&mut slots, values, events, partners, *k)? {
            return Ok(None);
        }
    }
    plan.width = slots.table.len();
    Ok(Some(plan))
}
