//! One more line: an entry, an answer, or the order of an entry.

ghost use Rattle.std.specs.Prelude.{◌≡◌, ◌≢◌, ℕ, ◌<◌, ◌==◌, ◌||◌, ◌∷◌, ◌++◌};
ghost use Rattle.std.specs.Prelude.{[], false, IfOk, OnOk, length, slice_index_or, vec_len};
ghost use Rattle.std.specs.List.{list_any};
ghost use Rattle.report_check.specs.Seen.{Seen, events_in};
ghost use Rattle.report_check.specs.Shows.{KeepsSeen, Checks, bank_of, marked};

use crate::checker::{Checker, Served};
use crate::looks::{key_of, write_at};
use crate::rule::Rule;
use packet::apply;
use report_lines::{AnswerLine, EntryLine, OrderLine, ReportLine, is_newer};
use std::alloc::{AllocError, Allocator};

impl<A: Allocator> Checker<A> {
    /// Takes an `entry` line.
    pub fn take_entry(&mut self, entry: &EntryLine) -> Result<Option<Rule>, AllocError>
        ensures { IfOk result
            (λ rule. (s : Seen) → KeepsSeen s self.old
            → Checks s (ReportLine.Entry entry.now) rule self.new) }
    {
        if let Some(rule) = self.entry_broken(entry) {
            return Ok(Some(rule));
        }
        let (word, _) = apply(entry.op, self.word_at(entry.address));
        let served = Served {
            source: entry.source,
            reply: entry.reply,
            answered: false,
        };
        push_served(&mut self.banks, entry.bank as usize, served)?;
        write_at(&mut self.memory, entry.address, word);
        self.section = 4;
        self.last_bank = entry.bank;
        self.entry_count = self.entry_count.saturating_add(1);
        self.has_newer |= is_newer(entry.op);
        Ok(None)
    }

    /// Takes an `answer` line.
    pub fn take_answer(&mut self, answer: &AnswerLine) -> Option<Rule>
        ensures { (s : Seen) → KeepsSeen s self.old
            → Checks s (ReportLine.Answer answer.now) result self.new }
    {
        if let Some(rule) = self.answer_broken(answer) {
            return Some(rule);
        }
        mark_answered(&mut self.banks, answer.bank as usize, answer.place as usize);
        self.section = 5;
        self.next_answer = key_of(answer) + 1;
        None
    }

    /// Takes an `order` line.
    pub fn take_order(&mut self, order: &OrderLine) -> Option<Rule>
        ensures { (s : Seen) → KeepsSeen s self.old
            → Checks s (ReportLine.Order order.now) result self.new }
    {
        if let Some(rule) = self.order_broken(order) {
            return Some(rule);
        }
        self.section = 7;
        self.next_served = u64::from(order.served) + 1;
        write_at(&mut self.ordered, order.bank, u64::from(order.place) + 1);
        mark_events(&mut self.used, order);
        None
    }
}

/// Adds an entry to a bank, if it is there.
fn push_served<A: Allocator>(
    banks: &mut Vec<Vec<Served, A>, A>,
    bank: usize,
    served: Served,
) -> Result<(), AllocError>
    ensures sized { vec_len banks.new ≡ vec_len banks.old }
    ensures here { OnOk result (bank < vec_len banks.old
        → bank_of banks.new.items bank ≡ bank_of banks.old.items bank ++ served ∷ []) }
    ensures others { OnOk result
        ((other : ℕ) → other ≢ bank
        → bank_of banks.new.items other ≡ bank_of banks.old.items other) }
{
    if bank < banks.len() {
        banks[bank].push(served)?;
    }
    Ok(())
}

/// Says that the entry at a place of a bank has an answer, if it is there.
fn mark_answered<A: Allocator>(banks: &mut Vec<Vec<Served, A>, A>, bank: usize, place: usize)
    ensures sized { vec_len banks.new ≡ vec_len banks.old }
    ensures here { place < length (bank_of banks.old.items bank)
        → bank_of banks.new.items bank ≡ marked (bank_of banks.old.items bank) place }
    ensures others { (other : ℕ) → other ≢ bank
        → bank_of banks.new.items other ≡ bank_of banks.old.items other }
{
    if bank < banks.len() && place < banks[bank].len() {
        banks[bank][place].answered = true;
    }
}

/// Says that an event is named, if there is such a number.
fn mark_event<A: Allocator>(used: &mut Vec<bool, A>, event: u32)
    ensures sized { vec_len used.new ≡ vec_len used.old }
    ensures named { (other : ℕ) → other < vec_len used.old
        → slice_index_or used.new.items other false
        ≡ (slice_index_or used.old.items other false || (event == other)) }
{
    if (event as usize) < used.len() {
        used[event as usize] = true;
    }
}

/// Says that the events of the order line are named.
fn mark_events<A: Allocator>(used: &mut Vec<bool, A>, order: &OrderLine)
    ensures sized { vec_len used.new ≡ vec_len used.old }
    ensures named { (other : ℕ) → other < vec_len used.old
        → slice_index_or used.new.items other false
        ≡ (slice_index_or used.old.items other false || list_any (λ n. n == other)
        (events_in order.now)) }
{
    mark_event(used, order.issued);
    mark_event(used, order.served);
    if let Some(answered) = order.answered {
        mark_event(used, answered);
    }
}
