//! A small part of a trace that no order explains.

ghost use Rattle.std.specs.Prelude.{◌≡◌, ◌⊎◌, ◌≤◌, IfOk, IfSome, MatchOption};
ghost use Rattle.trace_answer.specs.Parts.{IsExplained, IsOpenTrace, IsSmallPart, PartBreaks};

use crate::beginnings::{all_kept, cited_kept, near_kept};
use crate::part::TraceJudge;
use state_search::{Ending, PartJudge, smallest_part};
use std::alloc::{AllocError, Allocator, Global};
use trace_text::TraceText;

/// How many parts of a trace are judged at most, the whole among them.
pub const MOST_PARTS: u32 = 1000;

/// A small part of a trace that no order explains.
#[derive(Drop)]
pub struct SmallPart<A: Allocator = Global> {
    /// Of each operation whether it is kept.
    pub kept: Vec<bool, A>,
    /// Why it is no smaller.
    pub ending: Ending,
    /// How many parts were judged, the whole among them: 1 to 1000.
    pub judged: u32,
}

/// How many times more operations are taken.
const STEPS: u32 = 11;

/// A part that breaks of the operation that a line answers, some of the last ones on its word, and what may have left what
/// these found, if one is found: first of one such operation, then of four times as many.
///
/// Errors: memory.
fn near_part<A: Allocator + Copy>(
    alloc: A,
    judge: &TraceJudge<'_, A>,
    line: u64,
    left: &mut u32,
) -> Result<Option<Vec<bool, A>>, AllocError>
    ensures breaks { IfOk result (λ found. IfSome found
        (λ kept. PartBreaks judge.now.trace.now kept.items)) }
    ensures fewer { left.new ≤ left.old }
{
    let mut count = 1usize;
    for _ in 0..STEPS {
        if *left == 0 || count > judge.trace.issued().len() {
            return Ok(None);
        }
        let near = near_kept(alloc, judge.trace, line, count)?;
        if judge.is_broken(alloc, &near, left)? {
            return Ok(Some(near));
        }
        count = count.saturating_mul(4);
    }
    Ok(None)
}

/// The part to begin with: what a certificate cites, or what is near the answer of a line, with what may have
/// left what these found, if it breaks; or else the whole.
///
/// Errors: memory.
fn first_kept<A: Allocator + Copy>(
    alloc: A,
    judge: &TraceJudge<'_, A>,
    all: Vec<bool, A>,
    line: u64,
    left: &mut u32,
) -> Result<Vec<bool, A>, AllocError>
    requires { PartBreaks judge.now.trace.now all.items }
    ensures breaks { IfOk result (λ first. PartBreaks judge.now.trace.now first.items) }
    ensures fewer { left.new ≤ left.old }
{
    let cited = cited_kept(alloc, judge.trace, line)?;
    if *left > 0 && judge.is_broken(alloc, &cited, left)? {
        return Ok(cited);
    }
    match near_part(alloc, judge, line, left)? {
        Some(near) => Ok(near),
        None => Ok(all),
    }
}

/// A small part of a trace that no order explains, with at most so many configurations of a word at once;
/// `None` where an order explains the trace, or that isn't decided. The search begins near the answer of a line,
/// and judges at most 1000 parts.
///
/// Errors: memory.
pub fn smallest_trace<A: Allocator + Copy>(
    alloc: A,
    trace: &TraceText<A>,
    line: u64,
    bound: usize,
) -> Result<Option<SmallPart<A>>, AllocError>
    ensures { IfOk result (λ found. MatchOption found
        (IsExplained trace.now ⊎ IsOpenTrace trace.now bound) (IsSmallPart trace.now bound)) }
{
    let _events = trace.events();
    let judge = TraceJudge { trace, bound };
    let mut left = MOST_PARTS;
    let all = all_kept(alloc, trace)?;
    if !judge.is_broken(alloc, &all, &mut left)? {
        return Ok(None);
    }
    let first = first_kept(alloc, &judge, all, line, &mut left)?;
    let part = smallest_part(alloc, &judge, &[], first, &mut left)?;
    Ok(Some(SmallPart {
        kept: part.kept,
        ending: part.ending,
        judged: MOST_PARTS - left,
    }))
}
