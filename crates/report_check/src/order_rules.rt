//! The rules that a line breaks: `order` lines and the end.

ghost use Rattle.std.specs.Prelude.{◌≡◌, ◌<◌, length, slice_get};
ghost use Rattle.report_check.specs.Seen.{Seen, entries_at};
ghost use Rattle.report_check.specs.Shows.{KeepsSeen, bank_of};
ghost use Rattle.report_check.specs.Broken.{answer_untimely, event_broken, answer_event_broken};
ghost use Rattle.report_check.specs.Broken.{turn_broken, events_broken, order_broken};
ghost use Rattle.report_check.specs.Broken.{bank_unordered, unordered, orders_broken};
ghost use Rattle.report_check.specs.Broken.{place_unanswered, unanswered_at, first_unanswered};
ghost use Rattle.report_check.specs.Broken.{end_broken};

use crate::checker::{Checker, EVENTS};
use crate::line_rules::unless;
use crate::looks::is_same;
use crate::rule::{Kind, Rule};
use report_lines::OrderLine;
use std::alloc::Allocator;

/// Whether an entry is answered before its service.
fn answer_untimely(order: &OrderLine) -> Option<Rule>
    ensures { result ≡ answer_untimely order.now.served order.now.answered }
{
    match order.answered {
        None => None,
        Some(answered) => {
            let rule = Rule::AnsweredFirst {
                answered,
                served: order.served,
            };
            unless(order.served < answered, rule)
        }
    }
}

impl<A: Allocator> Checker<A> {
    /// Whether a number is none of an event, or is given already.
    fn event_broken(&self, event: u32) -> Option<Rule>
        ensures { (s : Seen) → KeepsSeen s self.now → result ≡ event_broken s event }
    {
        if event < 1 || EVENTS < event {
            return Some(Rule::Event(event));
        }
        unless(!self.used[event as usize], Rule::EventTwice(event))
    }

    /// Whether the number of an answer, if there is one, is none of an event, or is given already.
    fn answer_event_broken(&self, answered: Option<u32>) -> Option<Rule>
        ensures { (s : Seen) → KeepsSeen s self.now → result ≡ answer_event_broken s answered }
    {
        match answered {
            None => None,
            Some(event) => self.event_broken(event),
        }
    }

    /// Whether the line is not that of the next entry of its bank.
    fn turn_broken(&self, order: &OrderLine) -> Option<Rule>
        ensures { (s : Seen) → KeepsSeen s self.now → result ≡ turn_broken s order.now
            (slice_get (entries_at s.entries order.now.bank) order.now.place) }
    {
        let Some(kept) = self.kept_at(order.bank, order.place as usize) else {
            return Some(Rule::NoEntry {
                bank: order.bank,
                place: order.place,
            });
        };
        let expected = self.ordered_at(order.bank);
        let told = order.answered.is_some();
        let next = Rule::OrderPlace {
            found: order.place,
            expected,
        };
        unless(u64::from(order.place) == expected, next).or(unless(
            is_same(told, kept.answered),
            Rule::Answered { told },
        ))
    }

    /// Whether the events are not in their order, or told already.
    fn events_broken(&self, order: &OrderLine) -> Option<Rule>
        ensures { (s : Seen) → KeepsSeen s self.now → result ≡ events_broken s order.now }
    {
        let timely = Rule::ServedFirst {
            served: order.served,
            issued: order.issued,
        };
        let rises = Rule::ServiceOrder {
            found: order.served,
            least: self.next_served,
        };
        unless(order.issued < order.served, timely)
            .or(answer_untimely(order))
            .or(unless(self.next_served <= u64::from(order.served), rises))
            .or(self.event_broken(order.issued))
            .or(self.event_broken(order.served))
            .or(self.answer_event_broken(order.answered))
    }

    /// What rule an `order` line breaks.
    pub fn order_broken(&self, order: &OrderLine) -> Option<Rule>
        ensures { (s : Seen) → KeepsSeen s self.now → result ≡ order_broken s order.now }
    {
        self.behind_broken(7, Kind::Order)
            .or(self.any_left_out())
            .or(self.turn_broken(order))
            .or(self.events_broken(order))
    }

    /// Whether a bank has another number of order lines than of entries.
    fn bank_unordered(&self, bank: u32) -> Option<Rule>
        ensures { (s : Seen) → KeepsSeen s self.now → result ≡ bank_unordered s bank }
    {
        let found = self.ordered_at(bank);
        let expected = self.count_at(bank) as u64;
        let rule = Rule::Unordered {
            bank,
            found,
            expected,
        };
        unless(found == expected, rule)
    }

    /// Whether some bank has another number of order lines than of entries.
    fn unordered(&self) -> Option<Rule>
        ensures { (s : Seen) → KeepsSeen s self.now → result ≡ unordered s }
    {
        for bank in 0..self.tiles {
            if let Some(rule) = self.bank_unordered(bank) {
                return Some(rule);
            }
        }
        None
    }

    /// Whether there are order lines, and not one for each entry.
    fn orders_broken(&self) -> Option<Rule>
        ensures { (s : Seen) → KeepsSeen s self.now → result ≡ orders_broken s }
    {
        if self.next_served == 0 {
            None
        } else {
            self.unordered()
        }
    }

    /// Whether the entry at a place of a bank has no answer.
    fn place_unanswered(&self, bank: u32, place: usize) -> Option<Rule>
        requires { place < length (bank_of self.now.banks.items bank) }
        ensures { (s : Seen) → KeepsSeen s self.now → result ≡ place_unanswered s bank place }
    {
        let rule = Rule::Unanswered {
            bank,
            place: place as u64,
        };
        match self.kept_at(bank, place) {
            None => Some(rule),
            Some(kept) => unless(kept.answered, rule),
        }
    }

    /// Whether an entry of a bank has no answer.
    fn unanswered_at(&self, bank: u32) -> Option<Rule>
        ensures { (s : Seen) → KeepsSeen s self.now → result ≡ unanswered_at s bank }
    {
        let count = self.count_at(bank);
        for place in 0..count {
            if let Some(rule) = self.place_unanswered(bank, place) {
                return Some(rule);
            }
        }
        None
    }

    /// Whether an entry has no answer, where each must have one.
    fn first_unanswered(&self, complete: bool) -> Option<Rule>
        ensures { (s : Seen) → KeepsSeen s self.now → result ≡ first_unanswered s complete }
    {
        if !complete {
            return None;
        }
        for bank in 0..self.tiles {
            if let Some(rule) = self.unanswered_at(bank) {
                return Some(rule);
            }
        }
        None
    }

    /// What rule the last line breaks.
    pub fn end_broken(&self, complete: bool) -> Option<Rule>
        ensures { (s : Seen) → KeepsSeen s self.now → result ≡ end_broken s complete }
    {
        self.behind_broken(7, Kind::End)
            .or(self.any_left_out())
            .or(self.orders_broken())
            .or(self.first_unanswered(complete))
    }
}
