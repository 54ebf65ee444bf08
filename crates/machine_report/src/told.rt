//! What is reached, with rows of the one order, as the contents of a report.

ghost use Rattle.std.specs.Prelude.{◌≡◌, [], map, option_map, slice_get, slice_index_or};
ghost use Rattle.core_laws.specs.Machine.{shown};
ghost use Rattle.machine_report.specs.Report.{answer_row, contents_with, entry_row, order_line};

use crate::reached::Reached;
use machine_core::{Answer, Entry, Ordered};
use report_lines::{AnswerRow, EntryRow, OrderLine, Shows};
use torus::Torus;

/// What is reached, with rows of the one order.
#[derive(Clone, Copy)]
pub(crate) struct Told<'a, 'b, S: Reached> {
    pub(crate) reached: &'a S,
    pub(crate) order: &'b [Ordered],
}

/// What is reported of a service, where there is one.
fn entry_row(entry: Option<Entry>) -> Option<EntryRow>
    ensures { result ≡ option_map entry_row entry }
{
    let entry = entry?;
    Some(EntryRow {
        source: entry.source,
        tag: entry.tag.0,
        address: entry.address,
        op: entry.op,
        reply: entry.reply,
    })
}

/// What is reported of an answer, where there is one.
fn answer_row(answer: Option<Answer>) -> Option<AnswerRow>
    ensures { result ≡ option_map answer_row answer }
{
    let answer = answer?;
    Some(AnswerRow {
        index: answer.index,
        bank: answer.bank,
        place: answer.place,
        reply: answer.reply,
    })
}

/// What is reported of an operation's place in the one order, where there is one.
fn order_line(row: Option<Ordered>) -> Option<OrderLine>
    ensures { result ≡ option_map order_line row }
{
    let row = row?;
    Some(OrderLine {
        bank: row.bank,
        place: row.place,
        issued: row.issued,
        served: row.served,
        answered: row.answered,
    })
}

/// The element of a list at a place, where there is one.
fn element<T: Copy>(list: &[T], place: usize) -> Option<T>
    ensures { result ≡ slice_get list.now place }
{
    list.get(place).copied()
}

/// A bank's services; none where there is no such bank.
fn services<S: Reached>(reached: &S, bank: u32) -> &[Entry]
    ensures { result.now ≡ slice_index_or (shown (S.core reached.now)).entries bank [] }
{
    match reached.bank(bank) {
        Some(entries) => entries,
        None => &[],
    }
}

/// A processor's answers; none where there is no such processor.
fn answers<S: Reached>(reached: &S, processor: u32) -> &[Answer]
    ensures { result.now ≡ slice_index_or (shown (S.core reached.now)).answers processor [] }
{
    match reached.answers(processor) {
        Some(answers) => answers,
        None => &[],
    }
}

impl<S: Reached> Shows for Told<'_, '_, S> {
    ghost contents = { λ told. contents_with (S.core told.reached.now)
        (map order_line told.order.now) };

    fn torus(&self) -> &Torus {
        self.reached.torus()
    }

    fn words(&self) -> usize {
        self.reached.words() as usize
    }

    fn opening(&self, address: u32) -> Option<u64> {
        self.reached.opening(address)
    }

    fn entries(&self, bank: u32) -> usize {
        services(self.reached, bank).len()
    }

    fn entry(&self, bank: u32, place: usize) -> Option<EntryRow> {
        entry_row(element(services(self.reached, bank), place))
    }

    fn answers(&self, processor: u32) -> usize {
        answers(self.reached, processor).len()
    }

    fn answer(&self, processor: u32, number: usize) -> Option<AnswerRow> {
        answer_row(element(answers(self.reached, processor), number))
    }

    fn word(&self, address: u32) -> Option<u64> {
        self.reached.word(address)
    }

    fn order_lines(&self) -> usize {
        self.order.len()
    }

    fn order_line(&self, number: usize) -> Option<OrderLine> {
        order_line(element(self.order, number))
    }

    fn finished(&self) -> bool {
        self.reached.finished()
    }
}
