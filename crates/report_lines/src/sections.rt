//! The lines of each section of a report.

ghost use Rattle.std.specs.Prelude.{◌≡◌, ◌≤◌, ◌++◌, [], All, OnOk, length, slice_index_or};
ghost use Rattle.std.specs.List.{list_any};
ghost use Rattle.std.specs.Option.{option_to_list};
ghost use Rattle.report_lines.specs.Contents.{bank_lines, bank_lines_from, entry_lines, init_lines};
ghost use Rattle.report_lines.specs.Contents.{init_lines_from, is_newer, order_lines, version_of};
ghost use Rattle.report_lines.specs.Contents.{word_lines, word_lines_from};

use crate::line::{EntryLine, OrderLine, ReportLine};
use crate::parts::EntryRow;
use crate::shows::Shows;
use packet::Op;
use std::alloc::{AllocError, Allocator};

/// Whether an operation is one of and, or, xor, max and min.
pub fn is_newer(op: Op) -> bool
    ensures { result ≡ is_newer op }
{
    match op {
        Op::Load | Op::Store(_) | Op::Swap(_) | Op::Cas(_, _) | Op::Add(_) => false,
        Op::And(_) | Op::Or(_) | Op::Xor(_) | Op::Max(_) | Op::Min(_) => true,
    }
}

/// Adds a line for the word that an address held at first, if it is there and not 0.
fn push_init<A: Allocator>(
    lines: &mut Vec<ReportLine, A>,
    address: u32,
    word: Option<u64>,
) -> Result<(), AllocError>
    ensures { OnOk result
        (lines.new.items ≡ lines.old.items ++ init_lines_from address (option_to_list word)) }
{
    if let Some(word) = word {
        if word != 0 {
            lines.push(ReportLine::Init(address, word))?;
        }
    }
    Ok(())
}

/// Adds a line for each opening word that is not 0.
pub fn push_inits<A: Allocator, S: Shows>(
    lines: &mut Vec<ReportLine, A>,
    shown: &S,
) -> Result<(), AllocError>
    requires { length (S.contents shown.now).opening ≤ 65536 }
    ensures { OnOk result
        (lines.new.items ≡ lines.old.items ++ init_lines (S.contents shown.now).opening) }
{
    for address in 0..shown.words() {
        let address = address as u32;
        push_init(lines, address, shown.opening(address))?;
    }
    Ok(())
}

/// Adds a line for the last word of an address, if it is there and not 0.
fn push_word<A: Allocator>(
    lines: &mut Vec<ReportLine, A>,
    address: u32,
    word: Option<u64>,
) -> Result<(), AllocError>
    ensures { OnOk result
        (lines.new.items ≡ lines.old.items ++ word_lines_from address (option_to_list word)) }
{
    if let Some(word) = word {
        if word != 0 {
            lines.push(ReportLine::Word(address, word))?;
        }
    }
    Ok(())
}

/// Adds a line for each last word that is not 0.
pub fn push_words<A: Allocator, S: Shows>(
    lines: &mut Vec<ReportLine, A>,
    shown: &S,
) -> Result<(), AllocError>
    requires few { length (S.contents shown.now).opening ≤ 65536 }
    requires same { length (S.contents shown.now).last ≡ length (S.contents shown.now).opening }
    ensures { OnOk result
        (lines.new.items ≡ lines.old.items ++ word_lines (S.contents shown.now).last) }
{
    for address in 0..shown.words() {
        let address = address as u32;
        push_word(lines, address, shown.word(address))?;
    }
    Ok(())
}

/// Adds a line for an entry, if it is there.
fn push_entry<A: Allocator>(
    lines: &mut Vec<ReportLine, A>,
    bank: u32,
    place: u32,
    entry: Option<EntryRow>,
) -> Result<(), AllocError>
    ensures { OnOk result
        (lines.new.items ≡ lines.old.items ++ bank_lines_from bank place (option_to_list entry)) }
{
    if let Some(entry) = entry {
        lines.push(ReportLine::Entry(EntryLine {
            bank,
            place,
            source: entry.source,
            tag: entry.tag,
            address: entry.address,
            op: entry.op,
            reply: entry.reply,
        }))?;
    }
    Ok(())
}

/// Adds a line for each entry of a bank.
fn push_bank<A: Allocator, S: Shows>(
    lines: &mut Vec<ReportLine, A>,
    shown: &S,
    bank: u32,
) -> Result<(), AllocError>
    requires { length (slice_index_or (S.contents shown.now).entries bank []) ≤ 65536 }
    ensures { OnOk result (lines.new.items ≡ lines.old.items
        ++ bank_lines bank (slice_index_or (S.contents shown.now).entries bank [])) }
{
    for place in 0..shown.entries(bank) {
        push_entry(lines, bank, place as u32, shown.entry(bank, place))?;
    }
    Ok(())
}

/// Adds a line for each entry of each bank.
pub fn push_entries<A: Allocator, S: Shows>(
    lines: &mut Vec<ReportLine, A>,
    shown: &S,
) -> Result<(), AllocError>
    requires banks { length (S.contents shown.now).entries ≤ 64 }
    requires places { All (λ es. length es ≤ 65536) (S.contents shown.now).entries }
    ensures { OnOk result
        (lines.new.items ≡ lines.old.items ++ entry_lines (S.contents shown.now).entries) }
{
    for bank in 0..64 {
        push_bank(lines, shown, bank)?;
    }
    Ok(())
}

/// Adds a line for an entry in the order of service, if it is there.
fn push_service<A: Allocator>(
    lines: &mut Vec<ReportLine, A>,
    line: Option<OrderLine>,
) -> Result<(), AllocError>
    ensures { OnOk result
        (lines.new.items ≡ lines.old.items ++ order_lines (option_to_list line)) }
{
    if let Some(line) = line {
        lines.push(ReportLine::Order(line))?;
    }
    Ok(())
}

/// Adds a line for each entry, in the order of service.
pub fn push_order<A: Allocator, S: Shows>(
    lines: &mut Vec<ReportLine, A>,
    shown: &S,
) -> Result<(), AllocError>
    ensures { OnOk result
        (lines.new.items ≡ lines.old.items ++ order_lines (S.contents shown.now).order) }
{
    for number in 0..shown.order_lines() {
        push_service(lines, shown.order_line(number))?;
    }
    Ok(())
}

/// Whether there is an entry, of one of the newer operations.
fn is_newer_entry(entry: Option<EntryRow>) -> bool
    ensures { result ≡ list_any (λ e. is_newer e.op) (option_to_list entry) }
{
    match entry {
        Some(entry) => is_newer(entry.op),
        None => false,
    }
}

/// Whether some entry of a bank is one of the newer operations.
fn has_newer<S: Shows>(shown: &S, bank: u32) -> bool
    ensures { result ≡ list_any (λ e. is_newer e.op)
        (slice_index_or (S.contents shown.now).entries bank []) }
{
    for place in 0..shown.entries(bank) {
        if is_newer_entry(shown.entry(bank, place)) {
            return true;
        }
    }
    false
}

/// Whether some entry of some bank is one of the newer operations.
fn is_any_newer<S: Shows>(shown: &S) -> bool
    requires { length (S.contents shown.now).entries ≤ 64 }
    ensures { result
        ≡ list_any (λ es. list_any (λ e. is_newer e.op) es) (S.contents shown.now).entries }
{
    for bank in 0..64 {
        if has_newer(shown, bank) {
            return true;
        }
    }
    false
}

/// The version of the report of these entries.
pub fn version_of<S: Shows>(shown: &S) -> u32
    requires { length (S.contents shown.now).entries ≤ 64 }
    ensures { result ≡ version_of (S.contents shown.now).entries }
{
    if is_any_newer(shown) { 2 } else { 1 }
}
