//! The outcomes of scripts over all schedules, and a run to one, as C sees them.

ghost use Rattle.std.specs.Prelude.{◌≡◌, ◌⊎◌, IfErr, IfOk, None, Some};
ghost use Rattle.std.specs.Str.Lines.{lines};
ghost use Rattle.machine_core.specs.Loading.{load_by};
ghost use Rattle.torusmem_c.specs.Searches.{AreAllowed, IsUnsearched, PutsOutcomes, PutsReach};
ghost use Rattle.torusmem_c.specs.Searches.{PutsRun, RefusesOutcomes, RefusesSearch, SaysOutcomes};
ghost use Rattle.torusmem_c.specs.Searches.{SaysReach, found_in, if_whole, outcomes_code};
ghost use Rattle.torusmem_c.specs.Searches.{reach_code, searched_record, unmade, unsearched_record};

use crate::outcome::{Code, Outcome, fault_outcome, memory_fault};
use crate::room::{put_as, put_code};
use crate::texts::Text;
use command_schedule::{OutcomesEnd, ReachEnd, Searched, outcomes_text, reach_text};
use lexer::LineFault;
use program_fault::ProgramFault;
use std::alloc::Global;
use torus::Fault;

/// What a search for outcomes has found: the number of a code; how many outcomes are known, and how many
/// states were looked at, or 0; and the length of the text, or the line at fault.
#[repr(C)]
#[derive(Clone, Copy)]
pub struct SearchedRecord {
    pub code: u32,
    pub outcomes: u64,
    pub states: u64,
    pub value: u64,
}

/// How a search for outcomes ended, and its text.
#[derive(Drop)]
pub struct OutcomesSaid {
    pub end: OutcomesEnd,
    pub text: Vec<u8>,
}

/// How a search for a run with some replies ended, and its text.
#[derive(Drop)]
pub struct ReachSaid {
    pub end: ReachEnd,
    pub text: Vec<u8>,
}

/// The greatest number of states that a search may look at.
const MOST_STATES: u64 = 10000000;

/// How many states a search looks at, at most.
///
/// Errors: the number isn't 1 to 10,000,000.
fn allowed(states: u64) -> Result<usize, LineFault>
    ensures ok { IfOk result (λ most. AreAllowed states × (most ≡ states)) }
    ensures err { IfErr result (λ found. (AreAllowed states → ⊥)
        × (found ≡ record { fault = Fault.Range; line = 0 })) }
{
    if states == 0 || states > MOST_STATES {
        return Err(LineFault {
            fault: Fault::Range,
            line: 0,
        });
    }
    Ok(states as usize)
}

/// Why a search has no text: the first fault of its texts; else no memory was left for it.
fn unmade(why: ProgramFault) -> LineFault
    ensures { result ≡ unmade why }
{
    match why {
        ProgramFault::Line(found) => found,
        _ => memory_fault(),
    }
}

/// What the program prints of the outcomes of scripts, or of a run to the outcome of a number.
///
/// Errors: the number of states is out of range, the first fault of the texts, or out of memory.
fn outcomes_said(
    alloc: Global,
    machine: &[u8],
    scripts: &[u8],
    states: u64,
    run: Option<usize>,
) -> Result<OutcomesSaid, LineFault>
    ensures said { IfOk result
        (SaysOutcomes (load_by (lines machine.now) (lines scripts.now)) states run) }
    ensures unsaid { IfErr result
        (IsUnsearched (load_by (lines machine.now) (lines scripts.now)) states) }
{
    let most = allowed(states)?;
    let mut text = Text {
        bytes: Vec::new(alloc),
        refused: 0,
    };
    match outcomes_text(alloc, machine, scripts, most, run, &mut text) {
        Ok(end) => Ok(OutcomesSaid {
            end,
            text: text.bytes,
        }),
        Err(why) => Err(unmade(why)),
    }
}

/// What the program prints of a run of scripts whose replies are those of an answer.
///
/// Errors: the number of states is out of range, the first fault of the texts, or out of memory.
fn reach_said(
    alloc: Global,
    machine: &[u8],
    scripts: &[u8],
    answer: &[u8],
    states: u64,
) -> Result<ReachSaid, LineFault>
    ensures said { IfOk result
        (SaysReach (load_by (lines machine.now) (lines scripts.now)) answer.now states) }
    ensures unsaid { IfErr result
        (IsUnsearched (load_by (lines machine.now) (lines scripts.now)) states) }
{
    let most = allowed(states)?;
    let mut text = Text {
        bytes: Vec::new(alloc),
        refused: 0,
    };
    match reach_text(alloc, machine, scripts, answer, most, &mut text) {
        Ok(end) => Ok(ReachSaid {
            end,
            text: text.bytes,
        }),
        Err(why) => Err(unmade(why)),
    }
}

/// What a search that ended so has found.
fn found_in(end: OutcomesEnd) -> Searched
    ensures { result ≡ found_in end }
{
    match end {
        OutcomesEnd::Listed(searched) => searched,
        OutcomesEnd::NoOutcome(searched) => searched,
        OutcomesEnd::Ran | OutcomesEnd::TooLong => Searched {
            outcomes: 0,
            states: 0,
            whole: false,
        },
    }
}

/// A code, if a search has found all outcomes; else the one for that more states are reached.
fn if_whole(whole: bool, code: Code) -> Code
    ensures { result ≡ if_whole whole code }
{
    match whole {
        true => code,
        false => Code::Undecided,
    }
}

/// The code of how a search for outcomes ended.
fn outcomes_code(end: OutcomesEnd) -> Code
    ensures { result ≡ outcomes_code end }
{
    match end {
        OutcomesEnd::Listed(searched) => if_whole(searched.whole, Code::Done),
        OutcomesEnd::Ran => Code::Done,
        OutcomesEnd::NoOutcome(searched) => if_whole(searched.whole, Code::NoSuch),
        OutcomesEnd::TooLong => Code::TooLong,
    }
}

/// The code of how a search for a run with some replies ended.
fn reach_code(end: ReachEnd) -> Code
    ensures { result ≡ reach_code end }
{
    match end {
        ReachEnd::Reached => Code::Done,
        ReachEnd::Never => Code::Never,
        ReachEnd::Undecided => Code::Undecided,
        ReachEnd::NoReply => Code::NoReply,
        ReachEnd::OtherCount => Code::OtherCount,
        ReachEnd::TooLong => Code::TooLong,
    }
}

/// What C sees of a search: what became of its text, what it has found, and how long the text is.
fn searched_record(code: Code, found: Searched, length: u64) -> SearchedRecord
    ensures { result ≡ searched_record code found length }
{
    SearchedRecord {
        code: code.number(),
        outcomes: found.outcomes as u64,
        states: found.states as u64,
        value: length,
    }
}

/// What C sees where nothing is searched.
fn unsearched_record(outcome: Outcome) -> SearchedRecord
    ensures { result ≡ unsearched_record outcome }
{
    SearchedRecord {
        code: outcome.code,
        outcomes: 0,
        states: 0,
        value: outcome.value,
    }
}

/// Finds the outcomes of the scripts of a text on the machine of a text, over all schedules and in at
/// most so many states, and puts the text that the program prints into a buffer: a line for each, and a
/// last line that says whether these are all.
///
/// Errors: the number of states isn't 1 to 10,000,000; the first fault of the texts, taken in the order
/// machine, scripts; or out of memory. The buffer is as it was then.
#[unsafe(no_mangle)]
pub extern "C" fn torusmem_outcomes(
    alloc: Global,
    machine: &[u8],
    scripts: &[u8],
    states: u64,
    out: &mut [u8],
) -> SearchedRecord
    ensures { PutsOutcomes (load_by (lines machine.now) (lines scripts.now)) states out.old out.new
        result ⊎ RefusesOutcomes (load_by (lines machine.now) (lines scripts.now)) states out.old
        out.new result }
{
    match outcomes_said(alloc, machine, scripts, states, None) {
        Ok(said) => {
            let text = said.text.as_slice();
            let code = put_code(outcomes_code(said.end), text, out);
            searched_record(code, found_in(said.end), text.len() as u64)
        }
        Err(fault) => unsearched_record(fault_outcome(fault)),
    }
}

/// Finds the outcomes of the scripts of a text on the machine of a text, in at most so many states, and
/// puts the steps of a run to the one of a number into a buffer, as the program prints them.
///
/// Errors: those of `torusmem_outcomes`. The buffer is as it was then.
#[unsafe(no_mangle)]
pub extern "C" fn torusmem_outcomes_run(
    alloc: Global,
    machine: &[u8],
    scripts: &[u8],
    states: u64,
    number: u64,
    out: &mut [u8],
) -> Outcome
    ensures { PutsRun (load_by (lines machine.now) (lines scripts.now)) states number out.old
        out.new result ⊎ RefusesSearch (load_by (lines machine.now) (lines scripts.now)) states
        out.old out.new result }
{
    match outcomes_said(alloc, machine, scripts, states, Some(number as usize)) {
        Ok(said) => put_as(outcomes_code(said.end), said.text.as_slice(), out),
        Err(fault) => fault_outcome(fault),
    }
}

/// Finds a run of the scripts of a text on the machine of a text whose replies are those of an answer,
/// over all schedules and in at most so many states, and puts the text that the program prints into a
/// buffer: its steps; or that there is no such run, or that none is known.
///
/// Errors: those of `torusmem_outcomes`. The buffer is as it was then.
#[unsafe(no_mangle)]
pub extern "C" fn torusmem_reach(
    alloc: Global,
    machine: &[u8],
    scripts: &[u8],
    answer: &[u8],
    states: u64,
    out: &mut [u8],
) -> Outcome
    ensures { PutsReach (load_by (lines machine.now) (lines scripts.now)) answer.now states out.old
        out.new result ⊎ RefusesSearch (load_by (lines machine.now) (lines scripts.now)) states
        out.old out.new result }
{
    match reach_said(alloc, machine, scripts, answer, states) {
        Ok(said) => put_as(reach_code(said.end), said.text.as_slice(), out),
        Err(fault) => fault_outcome(fault),
    }
}
