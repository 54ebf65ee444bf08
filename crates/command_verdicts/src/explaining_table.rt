//! The lines on tables of operations.

use crate::left_word::tell_no_order;
use program_fault::{ProgramFault, explain_by, is_of_texts, named, told};
use std::alloc::Global;
use trace_table::{TableTrace, read_table, table_sentence};
use trace_why::{ConflictSentence, NoOrderSentence, conflict_sentence, no_order_sentence};

/// Says why a table has the fault that the command answers, where that can be found.
pub(crate) fn explain_table<R: Eprint + AllocGlobal>(
    rt: &R,
    name: &str,
    table: &[u8],
    fault: &ProgramFault,
) {
    if !is_of_texts(fault) {
        return;
    }
    let sentence = table_sentence(rt.alloc(), named(name, table));
    if let ProgramFault::Line(found) = fault
        && sentence.is_none()
    {
        let line = found.line;
        let _ = eprintln!(rt; "{name}:{line}: a trace has operations on at most 1048576 addresses");
        return;
    }
    explain_by(rt, fault, sentence);
    let _ = eprintln!(rt;
        "tools/from_csv {name} --trace --check also takes names, dates, quotes and missing columns"
    );
}

/// The last line of the trace text of a table that is of this line of it, where the events are of these
/// lines.
pub(crate) fn last_line(events: &[u64], line: u64) -> Option<u64> {
    let mut last = None;
    for place in 0..events.len() {
        if events[place] == line {
            last = Some((place as u64).saturating_add(3));
        }
    }
    last
}

/// The sentence on a trace text, with the lines of its table.
fn sentence_in_table<'a>(
    trace: &TableTrace<Global>,
    line: u64,
    mut sentence: NoOrderSentence<'a, Global>,
) -> NoOrderSentence<'a, Global> {
    sentence.line = line;
    for issue in sentence.pending.iter_mut() {
        issue.line = trace.table_line(issue.line);
    }
    sentence
}

/// A certificate of a trace text, with the lines of its table.
fn conflict_in_table<'a>(
    trace: &TableTrace<Global>,
    line: u64,
    mut sentence: ConflictSentence<'a, Global>,
) -> ConflictSentence<'a, Global> {
    sentence.line = line;
    for operation in sentence.cited.iter_mut() {
        operation.issue.line = trace.table_line(operation.issue.line);
        if let Some(answer) = &mut operation.answer {
            answer.line = trace.table_line(answer.line);
        }
    }
    sentence
}

/// Says why no order explains the trace text of a table from the answer of a line of the table on.
fn explain_no_order_of_text<'a, R: Eprint + AllocGlobal>(
    rt: &R,
    name: &'a str,
    trace: &'a TableTrace<Global>,
    line: u64,
    bound: u64,
) {
    if let Some(last) = last_line(&trace.lines, line) {
        let text = named(name, &trace.text);
        if let Some(sentence) = no_order_sentence(rt.alloc(), text, last, bound) {
            tell_no_order(rt, name, Some(sentence_in_table(trace, line, sentence)));
        }
        if let Some(sentence) = conflict_sentence(rt.alloc(), text, last) {
            let _ = told(rt, Some(conflict_in_table(trace, line, sentence)));
        }
    }
}

/// Says why no order explains the trace of a table from the answer of a line on, where that can be found
/// with at most so many configurations of a word at once.
pub(crate) fn explain_no_order_of_table<R: Eprint + AllocGlobal>(
    rt: &R,
    name: &str,
    table: &[u8],
    line: u64,
    bound: u64,
) {
    if let Ok(trace) = read_table(rt.alloc(), table) {
        explain_no_order_of_text(rt, name, &trace, line, bound);
    }
}
