//! The reason of a bad report.

ghost use Rattle.std.specs.Prelude.{◌↔◌, IfOk, IfSome, IsNone};
ghost use Rattle.report_check.specs.Good.{FirstBad, GoodReport};
ghost use Rattle.report_check.specs.declared.rule.BadReport.{BadReport};
ghost use Rattle.report_check.specs.Reason.{HasReason};
ghost use Rattle.program_fault.specs.Origins.{HasOrigin};

use crate::origin::{Origin, origin_before};
use report_check::{Rule, report_or_why};
use std::alloc::{AllocError, Allocator};

/// A rule that a line breaks, and where the word of the address is from that the rule names.
#[derive(Clone, Copy)]
pub struct Reason {
    pub rule: Rule,
    pub origin: Origin,
}

/// The first bad line of a report, and why it is bad.
#[derive(Clone, Copy)]
pub struct WhyBad {
    /// The line, from 1, as `check_report` gives it.
    pub line: u64,
    pub reason: Reason,
}

/// Where the word is from of which a rule names a reply.
fn origin_of(rule: Rule, text: &[u8], line: u64) -> Origin
    ensures { HasOrigin rule text.now line result }
{
    match rule {
        Rule::Reply { address, .. } => origin_before(address, text, line),
        _ => Origin::Nothing,
    }
}

/// Why a report is bad: none where it is good, else its first bad line, and the first of the rules
/// that the line breaks.
///
/// Errors: memory was refused.
pub fn why_bad<A: Allocator + Copy>(alloc: A, report: &[u8]) -> Result<Option<WhyBad>, AllocError>
    // Nothing is told exactly of good reports.
    ensures good { IfOk result (λ found. IsNone found ↔ GoodReport report.now) }
    // The line is the first bad one.
    ensures line { IfOk result (λ found. IfSome found (λ bad. FirstBad report.now bad.line)) }
    // The rule is the first that it breaks, given the lines before it.
    ensures reason { IfOk result (λ found. IfSome found (λ bad.
        HasReason report.now (record { line = bad.line; rule = bad.reason.rule }))) }
    // The origin is that of the word of which the rule names a reply.
    ensures origin { IfOk result (λ found. IfSome found (λ bad.
        HasOrigin bad.reason.rule report.now bad.line bad.reason.origin)) }
{
    match report_or_why(alloc, report)? {
        None => Ok(None),
        Some(bad) => {
            let origin = origin_of(bad.rule, report, bad.line);
            let reason = Reason {
                rule: bad.rule,
                origin,
            };
            Ok(Some(WhyBad {
                line: bad.line,
                reason,
            }))
        }
    }
}
