//! What is said of a trace text, as C sees it: an order that explains it, or why there is none.

ghost use Rattle.std.specs.Prelude.{◌≡◌, ◌⊎◌, ◌++◌, ◌∷◌, ℕ, List, [], IfErr, IfOk};
ghost use Rattle.std.specs.Str.Lines.{lines};
ghost use Rattle.trace_answer.specs.Texts.{order_text};
ghost use Rattle.torusmem_c.specs.TraceAnswers.{BeginsWithLine, IsSaidOf, IsUnsaid, PutsSaid};
ghost use Rattle.torusmem_c.specs.TraceAnswers.{RefusesTrace, SaysFinding, SaysFirst, SaysUndecided};
ghost use Rattle.torusmem_c.specs.TraceAnswers.{SaysTrace, SaysWhy, said_record, unsaid_record};

use crate::outcome::{Code, Outcome, fault_outcome, memory_fault};
use crate::room::put_code;
use crate::texts::Text;
use lexer::{LineFault, Named};
use std::alloc::{AllocError, Global};
use trace_answer::{LineText, not_linearizable, not_linearizable_by, undecided, write_order};
use trace_laws::Call;
use trace_text::{Finding, Issued, TraceText, Unfound, read_trace};
use trace_why::{ConflictSentence, NoOrderSentence, conflict_sentence, no_order_sentence};

/// What is said of a trace: the number of a code; the line that it is of, or 0; and the length of the text.
#[repr(C)]
#[derive(Clone, Copy)]
pub struct SaidRecord {
    pub code: u32,
    pub line: u64,
    pub length: u64,
}

/// What is said of a trace: a code, the line that it is of, or 0, and a text.
#[derive(Drop)]
pub struct TraceSaid {
    pub code: Code,
    pub line: u64,
    pub text: Vec<u8>,
}

/// The lines of an order, and that the trace is linearizable.
fn order_said(alloc: Global, issued: &[Issued], order: &[Call]) -> Result<Vec<u8>, AllocError>
    ensures { IfOk result (λ text. text.items ≡ order_text issued.now order.now) }
{
    let mut text = Text {
        bytes: Vec::new(alloc),
        refused: 0,
    };
    match write_order(&mut text, issued, order) {
        Ok(()) => Ok(text.bytes),
        Err(_) => Err(AllocError),
    }
}

/// A line, its line feed with it.
fn line_said(alloc: Global, line: &LineText) -> Result<Vec<u8>, AllocError>
    ensures { IfOk result (λ text. text.items ≡ line.now.bytes ++ 10 ∷ []) }
{
    let mut text = Vec::new(alloc);
    text.extend_from_slice(line.as_str().as_bytes())?;
    text.push(b'\n')?;
    Ok(text)
}

/// Adds why no order explains a trace, if that is found, and a line feed.
fn add_no_order(
    alloc: Global,
    text: &mut Vec<u8>,
    sentence: Option<NoOrderSentence<'_, Global>>,
) -> Result<(), AllocError>
    ensures { IfOk result (λ _. (rest : List ℕ) × (text.new.items ≡ text.old.items ++ rest)) }
{
    let Some(sentence) = sentence else {
        return Ok(());
    };
    match format!(in alloc; "{sentence}\n") {
        Ok(said) => text.extend_from_slice(said.as_bytes()),
        Err(_) => Err(AllocError),
    }
}

/// Adds a certificate that no order explains a trace, if one is found, and a line feed.
fn add_conflict(
    alloc: Global,
    text: &mut Vec<u8>,
    sentence: Option<ConflictSentence<'_, Global>>,
) -> Result<(), AllocError>
    ensures { IfOk result (λ _. (rest : List ℕ) × (text.new.items ≡ text.old.items ++ rest)) }
{
    let Some(sentence) = sentence else {
        return Ok(());
    };
    match format!(in alloc; "{sentence}\n") {
        Ok(said) => text.extend_from_slice(said.as_bytes()),
        Err(_) => Err(AllocError),
    }
}

/// A first line, and behind it the sentences on why no order explains a trace from the answer of a line on.
fn reasons_said(
    alloc: Global,
    trace: &[u8],
    first: &LineText,
    line: u64,
    bound: u64,
) -> Result<Vec<u8>, AllocError>
    ensures { IfOk result (λ text. BeginsWithLine first.now.bytes text.items) }
{
    let trace = Named {
        name: "trace",
        text: trace,
    };
    let mut text = line_said(alloc, first)?;
    add_no_order(
        alloc,
        &mut text,
        no_order_sentence(alloc, trace, line, bound),
    )?;
    add_conflict(alloc, &mut text, conflict_sentence(alloc, trace, line))?;
    Ok(text)
}

/// What is said where no order explains a trace up to a line: this first line, and why.
fn no_order_said(
    alloc: Global,
    trace: &[u8],
    first: &LineText,
    line: u64,
    bound: u64,
) -> Result<TraceSaid, AllocError>
    ensures { IfOk result (SaysFirst Code.NotLinearizable line first.now.bytes) }
{
    let text = reasons_said(alloc, trace, first, line, bound)?;
    Ok(TraceSaid {
        code: Code::NotLinearizable,
        line,
        text,
    })
}

/// What is said of a trace text that is found so.
fn finding_said(
    alloc: Global,
    trace: &[u8],
    issued: &[Issued],
    found: &Finding<Global>,
    bound: u64,
) -> Result<TraceSaid, AllocError>
    ensures { IfOk result (SaysFinding issued.now bound found.now) }
{
    match found {
        Finding::Linearizable(order) => {
            let text = order_said(alloc, issued, order.as_slice())?;
            Ok(TraceSaid {
                code: Code::Done,
                line: 0,
                text,
            })
        }
        Finding::No { line } => {
            no_order_said(alloc, trace, &not_linearizable(*line), *line, bound)
        }
        Finding::NoBy { line, why } => match not_linearizable_by(*line, *why, bound) {
            Some(first) => no_order_said(alloc, trace, &first, *line, bound),
            None => Err(AllocError),
        },
    }
}

/// What is said of a trace that isn't judged, at this line and by this code.
fn undecided_as(
    alloc: Global,
    why: Unfound,
    code: Code,
    line: u64,
    bound: u64,
) -> Result<TraceSaid, AllocError>
    ensures { IfOk result (SaysUndecided why code line bound) }
{
    let Some(first) = undecided(why, bound) else {
        return Err(AllocError);
    };
    let text = line_said(alloc, &first)?;
    Ok(TraceSaid { code, line, text })
}

/// What is said of a trace that isn't judged, for this reason.
///
/// Errors: out of memory.
fn undecided_said(alloc: Global, why: Unfound, bound: u64) -> Result<TraceSaid, AllocError>
    ensures { IfOk result (SaysWhy why bound) }
{
    match why {
        Unfound::Memory => Err(AllocError),
        Unfound::Configurations { line } => undecided_as(alloc, why, Code::TooMany, line, bound),
        Unfound::Operations { line } => undecided_as(alloc, why, Code::TooOpen, line, bound),
    }
}

/// Judges a trace that is read of a text, and says what is found.
///
/// Errors: out of memory.
fn judged_said(
    alloc: Global,
    text: &[u8],
    trace: &TraceText<Global>,
    bound: u64,
) -> Result<TraceSaid, AllocError>
    ensures { IfOk result (SaysTrace Global trace.now bound) }
{
    match trace.linearize(alloc, bound as usize) {
        Ok(found) => finding_said(alloc, text, trace.issued(), &found, bound),
        Err(why) => undecided_said(alloc, why, bound),
    }
}

/// Judges the trace of a text, with at most so many configurations of a word at once, and says what is
/// found.
///
/// Errors: the text's first fault, or out of memory.
fn trace_said(alloc: Global, text: &[u8], bound: u64) -> Result<TraceSaid, LineFault>
    ensures said { IfOk result (IsSaidOf Global (lines text.now) bound) }
    ensures unsaid { IfErr result (IsUnsaid (lines text.now)) }
{
    let trace = match read_trace(alloc, text) {
        Ok(trace) => trace,
        Err(fault) => return Err(fault),
    };
    match judged_said(alloc, text, &trace, bound) {
        Ok(said) => Ok(said),
        Err(_) => Err(memory_fault()),
    }
}

/// What C sees where something is said: what became of the text, and how long that is.
fn said_record(code: Code, line: u64, length: u64) -> SaidRecord
    ensures { result ≡ said_record code line length }
{
    SaidRecord {
        code: code.number(),
        line,
        length,
    }
}

/// What C sees where nothing is said.
fn unsaid_record(outcome: Outcome) -> SaidRecord
    ensures { result ≡ unsaid_record outcome }
{
    SaidRecord {
        code: outcome.code,
        line: outcome.value,
        length: 0,
    }
}

/// Judges the trace of a text, with at most so many configurations of a word at once, and puts a text
/// into a buffer: the operations in an order that explains it, a line each, and `linearizable`; or the
/// line from which on there is none, and why; or why that isn't decided.
///
/// Errors: the text's first fault, or out of memory. The buffer is as it was then.
#[unsafe(no_mangle)]
pub extern "C" fn torusmem_linearize_answer(
    alloc: Global,
    trace: &[u8],
    configurations: u64,
    out: &mut [u8],
) -> SaidRecord
    ensures { PutsSaid Global (lines trace.now) configurations out.old out.new result
        ⊎ RefusesTrace (lines trace.now) out.old out.new result }
{
    match trace_said(alloc, trace, configurations) {
        Ok(said) => {
            let text = said.text.as_slice();
            let code = put_code(said.code, text, out);
            said_record(code, said.line, text.len() as u64)
        }
        Err(fault) => unsaid_record(fault_outcome(fault)),
    }
}
