//! The kinds of operations without an answer that may be of use before an event or those around it.

ghost use Rattle.std.specs.Prelude.{◌<◌, ◌≤◌, length};

use crate::plan::Plan;
use std::alloc::{AllocError, Allocator};

/// How many events before the one that a search stands at are looked at with it, and how many behind: it goes back at
/// times.
const BEFORE: usize = 1 << 10;

const BEHIND: usize = 1 << 12;

/// The kinds that may be of use before some event from one on and up to another.
#[derive(Drop)]
pub(crate) struct Near<A: Allocator> {
    pub kinds: Vec<usize, A>,
    pub from: usize,
    pub to: usize,
}

impl<A: Allocator + Copy> Plan<A> {
    /// Whether a kind may be of use before one of these events.
    fn is_near(&self, i: usize) -> bool {
        match self.kinds.get(i) {
            Some(kind) => kind.from < self.near.to && kind.until >= self.near.from,
            None => false,
        }
    }

    /// Lists the kinds near an event, unless it is among those that they are listed for.
    pub(crate) fn come_near(&mut self, event: usize) -> Result<(), AllocError> {
        if event >= self.near.from && event < self.near.to {
            return Ok(());
        }
        self.near.from = event.saturating_sub(BEFORE);
        self.near.to = event.saturating_add(BEHIND);
        self.near.kinds.clear();
        for i in 0..self.kinds.len() {
            if self.is_near(i) {
                self.near.kinds.push(i)?;
            }
        }
        Ok(())
    }

    /// A kind that is near.
    pub(crate) fn near_at(&self, place: usize) -> Option<usize> {
        self.near.kinds.get(place).copied()
    }
}
