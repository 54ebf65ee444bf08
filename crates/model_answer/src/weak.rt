//! RISC-V's memory model of a log, and what the other models leave out of it.

ghost use Rattle.std.specs.Prelude.{◌≡◌, ◌+◌, ◌&&◌, ◌||◌, Bool, Some, true, not, IfOk};
ghost use Rattle.std.specs.List.{list_any};
ghost use Rattle.memory_models.specs.Trace.{IsMemoryTrace};
ghost use Rattle.weak_models.specs.Verdict.{IsRvwmoVerdict};
ghost use Rattle.model_text.specs.Noted.{dependencies_of_log, notes_of_log};
ghost use Rattle.model_text.specs.Views.{log_so_far};
ghost use Rattle.model_answer.specs.Weak.{IsWeakOn, TellsWeak, forbids, is_explained, is_full, is_judged};
ghost use Rattle.model_answer.specs.Weak.{is_weak, is_weaker, weak_answer_of, doubts_of, doubts_on};

use crate::answer::Options;
use model_text::{Log, LogNotes, LogTrace, notes_of_log};
use std::alloc::{AllocError, Allocator, Global};
use weak_models::notes::is_conditional;
use weak_models::{Accesses, FenceOrder, Note, RvwmoVerdict, judge_rvwmo};

/// What the models by rules leave out of a log, or count as too strong. The one can make a yes of theirs
/// a no, the other a no a yes.
#[derive(Clone, Copy, Debug, PartialEq, Eq)]
pub struct Doubts {
    /// They leave out what forbids: annotations and pairs, or a report's fences.
    pub more: bool,
    /// A fence counts as a full one that keeps less in order.
    pub less: bool,
}

/// What is found by RISC-V's model.
#[derive(Drop)]
pub struct Weak<A: Allocator = Global> {
    /// Its verdict, where it is asked.
    pub verdict: Option<RvwmoVerdict<A>>,
    /// What the other models leave out.
    pub doubts: Doubts,
}

/// What an answer says of RISC-V's model.
#[derive(Clone, Copy, Debug, PartialEq, Eq)]
pub struct WeakAnswer {
    /// Whether the log obeys it, where it is asked.
    pub obeyed: Option<bool>,
    /// What the other models leave out.
    pub doubts: Doubts,
}

/// Whether an operation with a note forbids what the models by rules allow.
fn forbids(note: Note) -> bool
    ensures { result ≡ forbids note }
{
    note.acquire || note.release || is_conditional(note)
}

/// Whether they are all accesses.
fn is_full(accesses: Accesses) -> bool
    ensures { result ≡ is_full accesses }
{
    accesses.reads && accesses.writes
}

/// Whether a fence with a note keeps less in order than a full one.
fn is_weak(note: Note) -> bool
    ensures { result ≡ is_weak note }
{
    match note.fence {
        FenceOrder::Sets(before, behind) => !(is_full(before) && is_full(behind)),
        FenceOrder::Tso => true,
    }
}

/// Whether one of some notes forbids what the models by rules allow.
fn any_forbids(notes: &[Note]) -> bool
    ensures { result ≡ list_any forbids notes.now }
{
    for i in 0..notes.len() {
        if forbids(notes[i]) {
            return true;
        }
    }
    false
}

/// Whether one of some notes is of a fence that keeps less in order than a full one.
fn any_weak(notes: &[Note]) -> bool
    ensures { result ≡ list_any is_weak notes.now }
{
    for i in 0..notes.len() {
        if is_weak(notes[i]) {
            return true;
        }
    }
    false
}

/// Judges a trace by RISC-V's model, with the notes of its log.
///
/// Errors: out of memory, and no other.
pub(crate) fn judged<A: Allocator + Copy>(
    alloc: A,
    trace: &LogTrace<A>,
    said: &LogNotes<A>,
) -> Result<RvwmoVerdict<A>, AllocError>
    requires { IsMemoryTrace (trace.now.openings + 1) trace.now.operations.items
        trace.now.writes.items }
    ensures { IfOk result (IsRvwmoVerdict said.now.notes.items said.now.dependencies.items
        trace.now.operations.items trace.now.writes.items) }
{
    let Some(words) = trace.openings.checked_add(1) else {
        return Err(AllocError);
    };
    Ok(judge_rvwmo(
        alloc,
        &said.notes,
        &said.dependencies,
        &trace.operations,
        &trace.writes,
        words,
    )?)
}

/// What the models by rules leave out of a log, or count as too strong.
///
/// Errors: out of memory, and no other.
pub fn doubts_on<A: Allocator + Copy>(alloc: A, log: &Log<A>) -> Result<Doubts, AllocError>
    ensures { IfOk result (λ doubts. doubts ≡ doubts_on (log_so_far log.now)) }
{
    if !log.is_annotated() {
        return Ok(Doubts {
            more: false,
            less: false,
        });
    }
    let said = notes_of_log(alloc, log)?;
    Ok(Doubts {
        more: any_forbids(&said.notes),
        less: any_weak(&said.notes),
    })
}

/// What is found of a log by RISC-V's model, where it is asked, or the log has annotations.
///
/// Errors: out of memory, and no other.
pub fn weak_of<A: Allocator + Copy>(
    alloc: A,
    log: &Log<A>,
    trace: &LogTrace<A>,
    options: Options,
) -> Result<Weak<A>, AllocError>
    requires { IsMemoryTrace (trace.now.openings + 1) trace.now.operations.items
        trace.now.writes.items }
    ensures { IfOk result (IsWeakOn (log_so_far log.now) trace.now options) }
{
    if !options.rvwmo && !log.is_annotated() {
        return Ok(Weak {
            verdict: None,
            doubts: Doubts {
                more: !options.fences,
                less: false,
            },
        });
    }
    let said = notes_of_log(alloc, log)?;
    let verdict = judged(alloc, trace, &said)?;
    Ok(Weak {
        verdict: Some(verdict),
        doubts: Doubts {
            more: !options.fences || any_forbids(&said.notes),
            less: any_weak(&said.notes),
        },
    })
}

/// Whether a verdict is an order.
pub(crate) fn is_explained<A: Allocator>(verdict: &RvwmoVerdict<A>) -> bool
    ensures { result ≡ is_explained verdict.now }
{
    match verdict {
        RvwmoVerdict::Ordered(_) => true,
        RvwmoVerdict::Cycle(_) => false,
    }
}

impl<A: Allocator> Weak<A> {
    /// What an answer says of it.
    pub fn answer(&self) -> WeakAnswer
        ensures { result ≡ weak_answer_of self.now }
    {
        let obeyed = match &self.verdict {
            None => None,
            Some(verdict) => Some(is_explained(verdict)),
        };
        WeakAnswer {
            obeyed,
            doubts: self.doubts,
        }
    }
}
