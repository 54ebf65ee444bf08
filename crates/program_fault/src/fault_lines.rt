//! The line that says why the texts of a machine or a report are refused.

ghost use Rattle.std.specs.Prelude.{◌≡◌, false, IfOk, IfErr};
ghost use Rattle.std.specs.Str.Lines.{lines};
ghost use Rattle.program_fault.specs.Causes.{is_of_texts};
ghost use Rattle.program_fault.specs.FaultLines.{Says, SaysOfReport, SaysOfTexts, SaysOfTile};

use crate::telling::{Cause, fault_cause, is_of_texts, named};
use crate::why::{WhyBad, why_bad};
use crate::{Names, ProgramFault, Texts};
use sentences::{
    Sentence, TileSentence, machine_sentence, scripts_sentence, steps_sentence, tile_sentence,
};
use std::alloc::{AllocError, Allocator};
use std::fmt;

/// What the texts of a command are.
#[derive(Clone, Copy)]
pub enum Kind {
    /// A machine, and where there are more its scripts, and steps.
    Machine,
    /// A machine, of which the route between two tiles is asked.
    Route { src: u32, dst: u32 },
    /// A report.
    Report,
}

/// Why the report of a name is bad: `FILE:12: ..`.
#[derive(Clone, Copy)]
pub struct ReportLine<'a> {
    pub name: &'a str,
    pub bad: WhyBad,
}

impl<'a> fmt::Display for ReportLine<'a> {
    fn fmt<W: fmt::Write>(&self, f: &mut fmt::Formatter<W>) -> fmt::Result {
        write!(f, "{}:{}: {}", self.name, self.bad.line, self.bad.reason)
    }
}

/// Why the texts of a command have a fault.
#[derive(Clone, Copy)]
pub enum FaultLine<'a> {
    /// Why the first text that has a fault is refused.
    Text(Cause<Sentence<'a>>),
    /// Which tile of a route the machine hasn't.
    Tile(TileSentence),
    /// Which rule the first bad line of a report breaks.
    Report(ReportLine<'a>),
}

impl<'a> fmt::Display for FaultLine<'a> {
    fn fmt<W: fmt::Write>(&self, f: &mut fmt::Formatter<W>) -> fmt::Result {
        match self {
            FaultLine::Text(cause) => cause.fmt(f),
            FaultLine::Tile(tile) => tile.fmt(f),
            FaultLine::Report(report) => report.fmt(f),
        }
    }
}

/// Why the texts of a command have the fault that it answers; `None` where the fault isn't theirs.
///
/// Errors: memory was refused while a tile or a report was looked up.
pub fn fault_line<'a, A: Allocator + Copy>(
    alloc: A,
    kind: Kind,
    names: &Names<'a>,
    texts: &'a Texts,
    fault: &ProgramFault,
) -> Result<Option<FaultLine<'a>>, AllocError>
    ensures ok { IfOk result (Says kind names.now texts.now fault.now) }
    ensures err { IfErr result (λ _. is_of_texts fault.now ≡ false) }
{
    match fault {
        ProgramFault::Tile => tile_line(alloc, kind, &texts.first),
        ProgramFault::Bad(_) => report_line(alloc, kind, names, &texts.first),
        _ => {
            if !is_of_texts(fault) {
                return Ok(None);
            }
            match fault_cause(fault, sentence(alloc, kind, names, texts)) {
                Some(cause) => Ok(Some(FaultLine::Text(cause))),
                None => Ok(None),
            }
        }
    }
}

/// Which tile of a route the machine of a text hasn't.
fn tile_line<'a, A: Allocator + Copy>(
    alloc: A,
    kind: Kind,
    machine: &'a [u8],
) -> Result<Option<FaultLine<'a>>, AllocError>
    ensures { IfOk result (SaysOfTile kind (lines machine.now)) }
{
    let Kind::Route { src, dst } = kind else {
        return Ok(None);
    };
    match tile_sentence(alloc, machine, src, dst) {
        Ok(Some(tile)) => Ok(Some(FaultLine::Tile(tile))),
        Ok(None) => Ok(None),
        Err(_) => Err(AllocError),
    }
}

/// Which rule the first bad line of a report breaks.
fn report_line<'a, A: Allocator + Copy>(
    alloc: A,
    kind: Kind,
    names: &Names<'a>,
    report: &[u8],
) -> Result<Option<FaultLine<'a>>, AllocError>
    ensures { IfOk result (SaysOfReport kind names.now report.now) }
{
    let (Kind::Report, Some(name)) = (kind, names.first) else {
        return Ok(None);
    };
    match why_bad(alloc, report)? {
        Some(bad) => Ok(Some(FaultLine::Report(ReportLine { name, bad }))),
        None => Ok(None),
    }
}

/// Which text of a command with a machine has the first fault, at which line, and why.
fn sentence<'a, A: Allocator + Copy>(
    alloc: A,
    kind: Kind,
    names: &Names<'a>,
    texts: &'a Texts,
) -> Option<Sentence<'a>>
    ensures { SaysOfTexts kind names.now texts.now result }
{
    if let Kind::Report = kind {
        return None;
    }
    let machine = named(names.first?, &texts.first);
    let Some(script) = names.second else {
        return machine_sentence(alloc, machine);
    };
    let script = named(script, &texts.second);
    let Some(steps) = names.third else {
        return scripts_sentence(alloc, machine, script);
    };
    steps_sentence(alloc, machine, script, named(steps, &texts.third))
}
