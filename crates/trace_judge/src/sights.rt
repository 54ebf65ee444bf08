//! Guesses which operations that are never answered have taken effect: nothing rests on it.

ghost use Rattle.std.specs.Prelude.{◌≡◌, ◌<◌, ◌≤◌, true, ℕ, IfOk, length};

use crate::reading::{issue_of, promise_of};
use crate::sums::{Shown, Sums, shown_sums};
use packet::{Op, Reply};
use std::alloc::{AllocError, Allocator};
use trace_laws::{Call, Event};

/// Where an answer gives the word that an operation leaves.
#[derive(Clone, Copy)]
enum Sight {
    Nowhere,
    /// At this event first.
    At(usize),
    /// Another operation leaves the same word.
    Unclear,
}

/// What is guessed of a trace: which issues are left out, and which answers come behind which event, with as many
/// places behind the last one.
#[derive(Drop)]
pub struct Guess<A: Allocator> {
    pub left: Vec<bool, A>,
    pub behind: Vec<Option<(u64, Reply)>, A>,
    /// The sums that were looked at together.
    pub summed: Vec<Sums, A>,
}

/// The word that an operation leaves, if that is one word.
fn left_word(op: Op) -> Option<u64> {
    match op {
        Op::Store(word) | Op::Swap(word) | Op::Cas(_, word) => Some(word),
        _ => None,
    }
}

/// The reply of an operation that left its word, if that is one reply.
fn effect_reply(op: Op) -> Option<Reply> {
    match op {
        Op::Store(_) => Some(Reply::Ok),
        Op::Cas(old, _) => Some(Reply::Old(old)),
        _ => None,
    }
}

/// Whether an event issues another operation that leaves this word at this address.
fn leaves_same(event: Event, call: Call, word: u64) -> bool {
    let Event::Issue(other) = event else {
        return false;
    };
    other.id != call.id
        && other.operation.address == call.operation.address
        && left_word(other.operation.op) == Some(word)
}

/// Whether event i answers an operation at this address with this word.
fn tells(events: &[Event], i: usize, call: Call, word: u64) -> bool
    requires { i < length events.now }
{
    let Event::Answer(id, Reply::Old(told)) = events[i] else {
        return false;
    };
    if told != word {
        return false;
    }
    match issue_of(events, i, id) {
        Some(other) => other.operation.address == call.operation.address,
        None => false,
    }
}

/// Where the word that an operation leaves is told first behind its issue, event k.
fn sight_of(events: &[Event], k: usize, call: Call, word: u64) -> Sight {
    let mut sight = Sight::Nowhere;
    for i in 0..events.len() {
        if leaves_same(events[i], call, word) {
            return Sight::Unclear;
        }
        if let Sight::Nowhere = sight
            && i > k
            && tells(events, i, call, word)
        {
            sight = Sight::At(i);
        }
    }
    sight
}

/// Notes an answer behind an event, or behind the first one after it that has none.
fn note(behind: &mut [Option<(u64, Reply)>], from: usize, id: u64, reply: Reply) {
    for i in from..behind.len() {
        if behind[i].is_none() {
            behind[i] = Some((id, reply));
            return;
        }
    }
}

impl<A: Allocator + Copy> Guess<A> {
    /// The issue at event k is left out.
    fn leave_out(&mut self, k: usize) {
        if k < self.left.len() {
            self.left[k] = true;
        }
    }

    /// Whether the sums of a number at an address were looked at.
    fn has_summed(&self, address: u32, number: u64) -> bool {
        for i in 0..self.summed.len() {
            if self.summed[i].address == address && self.summed[i].number == number {
                return true;
            }
        }
        false
    }

    /// Notes what is guessed of a sum.
    fn note_sum(&mut self, sum: Shown) {
        match sum.event {
            Some(event) => note(&mut self.behind, event, sum.id, sum.reply),
            None => self.leave_out(sum.issue),
        }
    }

    /// Guesses of the sums of a number at an address that are never answered.
    fn sum_up(
        &mut self,
        alloc: A,
        opening: &[u64],
        events: &[Event],
        address: u32,
        number: u64,
    ) -> Result<(), AllocError> {
        if self.has_summed(address, number) {
            return Ok(());
        }
        let sums = Sums {
            address,
            number,
            first: opening.get(address as usize).copied().unwrap_or(0),
        };
        self.summed.push(sums)?;
        let shown = shown_sums(alloc, events, sums)?;
        for i in 0..shown.len() {
            self.note_sum(shown[i]);
        }
        Ok(())
    }

    /// Guesses of an operation that is issued at event k and never answered.
    fn look(&mut self, events: &[Event], k: usize, call: Call) -> Sight {
        let sight = match left_word(call.operation.op) {
            Some(word) => sight_of(events, k, call, word),
            None => Sight::Unclear,
        };
        match sight {
            Sight::Nowhere => self.leave_out(k),
            Sight::At(event) => match effect_reply(call.operation.op) {
                Some(reply) => note(&mut self.behind, event, call.id, reply),
                None => {}
            },
            Sight::Unclear => {}
        }
        sight
    }
}

/// Guesses of each operation that is never answered: where its word is told, it has taken effect by then, and
/// is answered there; where it is told nowhere, it never does. Where that is unclear, it may; or, if asked so,
/// sums of one number take effect one after the other as words show, and others never do.
pub fn guess_of<A: Allocator + Copy>(
    alloc: A,
    opening: &[u64],
    events: &[Event],
    unclear: bool,
) -> Result<Guess<A>, AllocError> {
    let mut guess = Guess {
        left: vec![in alloc; false; events.len()]?,
        behind: vec![in alloc; None; events.len().saturating_mul(2)]?,
        summed: Vec::new(alloc),
    };
    for k in 0..events.len() {
        if let Event::Issue(call) = events[k]
            && promise_of(events, k + 1, call.id).is_none()
            && let Sight::Unclear = guess.look(events, k, call)
            && unclear
        {
            match call.operation.op {
                Op::Add(number) => guess.sum_up(
                    alloc,
                    opening,
                    events,
                    call.operation.address,
                    number,
                )?,
                _ => guess.leave_out(k),
            }
        }
    }
    Ok(guess)
}
