ghost use Rattle.std.specs.Prelude.{◌≡◌, ◌++◌, ◌↔◌, ℕ, List, IfErr, IfOk, IfSome, IsNone, OnOk};
ghost use Rattle.report_lines.specs.declared.line.ReportLine.{ReportLine};
ghost use Rattle.report_check.specs.Seen.{Seen};
ghost use Rattle.report_check.specs.Good.{FirstBad, GoodReport, HasFault};
ghost use Rattle.report_check.specs.Broken.{misspelled, unread_broken};
ghost use Rattle.report_check.specs.Reason.{HasReason, Judges};
ghost use Rattle.report_check.specs.Shows.{KeepsSeen, Checks};

use crate::checker::Checker;
use crate::fault::CheckFault;
use crate::looks::has_line_feed;
use crate::making::start;
use crate::rule::{BadReport, Rule};
use report_lines::{ReportLine, read_line};
use std::alloc::{AllocError, Allocator};

/// Takes one more line, or says which rule it breaks.
fn take_line<A: Allocator + Copy>(
    checker: &mut Checker<A>,
    alloc: A,
    line: &ReportLine,
) -> Result<Option<Rule>, AllocError>
    ensures { IfOk result
        (λ rule. (s : Seen) → KeepsSeen s checker.old → Checks s line.now rule checker.new) }
{
    match line {
        ReportLine::Header(version) => Ok(checker.take_header(*version)),
        ReportLine::Shape(radices, words) => checker.take_shape(alloc, *radices, *words),
        ReportLine::Init(address, value) => Ok(checker.take_init(*address, *value)),
        ReportLine::Entry(entry) => checker.take_entry(entry),
        ReportLine::Answer(answer) => Ok(checker.take_answer(answer)),
        ReportLine::Word(address, value) => Ok(checker.take_word(*address, *value)),
        ReportLine::Order(order) => Ok(checker.take_order(order)),
        ReportLine::End(complete) => Ok(checker.take_end(*complete)),
    }
}

/// What rule a text breaks that begins with no line of a report.
fn misspelled(section: u8, rest: &[u8]) -> Rule
    ensures { result ≡ misspelled section rest.now }
{
    if section == 0 {
        Rule::FirstLine
    } else if section == 1 {
        Rule::SecondLine
    } else if has_line_feed(rest) {
        Rule::Spelling
    } else {
        Rule::NoLineFeed
    }
}

/// What rule is broken where no line is read.
fn unread_broken(section: u8, rest: &[u8]) -> Option<Rule>
    ensures { result ≡ unread_broken section rest.now }
{
    if section == 8 {
        if rest.is_empty() {
            None
        } else {
            Some(Rule::BehindEnd)
        }
    } else if rest.is_empty() {
        Some(Rule::NoEnd)
    } else {
        Some(misspelled(section, rest))
    }
}

/// Why a report is bad, in time and memory linear in its lines: none where it is good, else its
/// first bad line, and the first of the rules that the line breaks.
///
/// Errors: memory was refused.
pub fn report_or_why<A: Allocator + Copy>(
    alloc: A,
    report: &[u8],
) -> Result<Option<BadReport>, AllocError>
    // Nothing is told exactly of good reports.
    ensures good { IfOk result (λ found. IsNone found ↔ GoodReport report.now) }
    // The line is the first bad one.
    ensures line { IfOk result (λ found. IfSome found (λ bad. FirstBad report.now bad.line)) }
    // The rule is the first that it breaks, given the lines before it.
    ensures reason { IfOk result (λ found. IfSome found (HasReason report.now)) }
{
    judged(alloc, report)
}

fn judged<A: Allocator + Copy>(alloc: A, text: &[u8]) -> Result<Option<BadReport>, AllocError>
    ensures { IfOk result (λ found. Judges text.now found) }
{
    let mut checker = start(alloc)?;
    let mut rest = text;
    let mut number = 1u64;
    while let Some((line, after)) = read_line(rest) {
        if let Some(rule) = take_line(&mut checker, alloc, &line)? {
            return Ok(Some(BadReport { line: number, rule }));
        }
        rest = after;
        number += 1;
    }
    match unread_broken(checker.section, rest) {
        None => Ok(None),
        Some(rule) => Ok(Some(BadReport { line: number, rule })),
    }
}

/// Checks a report, in time and memory linear in its lines.
///
/// Errors: `CheckFault::BadReport` with the first bad line; `CheckFault::Memory`.
pub fn check_report<A: Allocator + Copy>(alloc: A, text: &[u8]) -> Result<(), CheckFault>
    // What is accepted is good.
    ensures good { OnOk result (GoodReport text.now) }
    // What is good is accepted, unless memory is refused.
    ensures only { GoodReport text.now → IfErr result (λ fault. fault ≡ CheckFault.Memory) }
    // What is refused has its first bad line there.
    ensures bad { IfErr result (λ fault. HasFault text.now fault) }
{
    match report_or_why(alloc, text)? {
        None => Ok(()),
        Some(bad) => Err(CheckFault::BadReport { line: bad.line }),
    }
}
