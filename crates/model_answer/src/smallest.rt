//! A small part of a log that no order of a model explains, if none explains the whole.

ghost use Rattle.std.specs.Prelude.{◌≡◌, ◌<◌, ◌≤◌, IfOk, MatchOption};
ghost use Rattle.model_text.specs.Views.{log_so_far};
ghost use Rattle.model_answer.specs.Parts.{IsExplainedBy, IsSmallLog, all_of_processors, needed_by};
ghost use Rattle.model_answer.specs.Parts.{needed_in, needs_of, part_of, write_read};
ghost use Rattle.state_search.specs.Parts.{AreClosed, AreWithin};

use crate::cited::{are_within, cited_kept};
use crate::model::AskedModel;
use crate::part::LogJudge;
use model_text::finals::is_final;
use model_text::trace::logged_at;
use model_text::{Log, Source};
use state_search::parts::are_closed;
use state_search::{Ending, PartJudge, smallest_part};
use std::alloc::{AllocError, Allocator, Global};
use weak_models::notes::note_of;

/// How many parts of a log are judged at most, the whole among them.
pub const MOST_PARTS: u32 = 1000;

/// A small part of a log that no order of a model explains.
#[derive(Drop)]
pub struct SmallLog<A: Allocator = Global> {
    /// Of each operation whether it is kept.
    pub kept: Vec<bool, A>,
    /// Why it is no smaller.
    pub ending: Ending,
    /// How many parts were judged, the whole among them: 1 to 1000.
    pub judged: u32,
}

/// The write that an operation read, if a line names it.
fn write_read(source: Source) -> Option<usize>
    ensures { result ≡ write_read source }
{
    match source {
        Source::Untold => None,
        Source::Own => None,
        Source::Opening => None,
        Source::Write(n) => Some(n),
        Source::Last => None,
    }
}

/// What an operation is never without: a load without the write that it read, and a store conditional
/// without its load reserved.
fn needed_in<A: Allocator>(log: &Log<A>, n: usize) -> Option<usize>
    ensures { result ≡ needed_in (log_so_far log.now) n }
{
    let note = log.notes.get(&n).copied().unwrap_or(note_of(&[], 0));
    match write_read(logged_at(&log.made, n).source) {
        Some(write) => Some(write),
        None => note.pair,
    }
}

/// This of each operation.
///
/// Errors: memory.
fn needs_of<A: Allocator + Copy>(
    alloc: A,
    log: &Log<A>,
) -> Result<Vec<Option<usize>, A>, AllocError>
    ensures { IfOk result (λ needs. needs.items ≡ needs_of (log_so_far log.now)) }
{
    let mut needs = Vec::new(alloc);
    for n in 0..log.made.len() {
        needs.push(needed_in(log, n))?;
    }
    Ok(needs)
}

/// All operations of processors: all but the final words, of which no model says anything.
///
/// Errors: memory.
fn all_of_processors<A: Allocator + Copy>(
    alloc: A,
    log: &Log<A>,
) -> Result<Vec<bool, A>, AllocError>
    ensures { IfOk result (λ kept. kept.items ≡ all_of_processors (log_so_far log.now)) }
{
    let mut kept = Vec::new(alloc);
    for n in 0..log.made.len() {
        kept.push(!is_final(log.made[n]))?;
    }
    Ok(kept)
}

/// The part to begin with: the operations of a cycle, with what they need, if no order explains these, or else
/// all.
///
/// Errors: memory.
fn first_kept<A: Allocator + Copy>(
    alloc: A,
    judge: &LogJudge<'_, A>,
    needs: &[Option<usize>],
    all: Vec<bool, A>,
    left: &mut u32,
) -> Result<Vec<bool, A>, AllocError>
    requires closed { AreClosed needs.now all.items }
    requires breaks { IsExplainedBy (part_of (log_so_far judge.now.log.now) all.items) judge.now.model → ⊥ }
    requires some { 0 < left.old }
    ensures within { IfOk result (λ first. AreWithin first.items all.items) }
    ensures closed { IfOk result (λ first. AreClosed needs.now first.items) }
    ensures breaks { IfOk result (λ first.
        IsExplainedBy (part_of (log_so_far judge.now.log.now) first.items) judge.now.model → ⊥) }
    ensures fewer { left.new ≤ left.old }
{
    let cited = cited_kept(alloc, judge.log, judge.model, needs)?;
    if !are_within(&cited, &all) || !are_closed(needs, &cited) {
        return Ok(all);
    }
    if judge.is_broken(alloc, &cited, left)? {
        return Ok(cited);
    }
    Ok(all)
}

/// A small part of the operations of a log that no order of a model explains; `None` where an order explains
/// them all. At most 1000 parts are judged.
///
/// Errors: memory; also where the log names an operation that it hasn't, as none that is read does.
pub fn smallest_log<A: Allocator + Copy>(
    alloc: A,
    log: &Log<A>,
    model: AskedModel,
) -> Result<Option<SmallLog<A>>, AllocError>
    ensures { IfOk result (λ found. MatchOption found
        (IsExplainedBy (part_of (log_so_far log.now) (all_of_processors (log_so_far log.now))) model)
        (IsSmallLog (log_so_far log.now) model)) }
{
    let judge = LogJudge { log, model };
    let mut left = MOST_PARTS;
    let needs = needs_of(alloc, log)?;
    let all = all_of_processors(alloc, log)?;
    if !are_closed(&needs, &all) {
        return Err(AllocError);
    }
    if !judge.is_broken(alloc, &all, &mut left)? {
        return Ok(None);
    }
    let first = first_kept(alloc, &judge, &needs, all, &mut left)?;
    let part = smallest_part(alloc, &judge, &needs, first, &mut left)?;
    Ok(Some(SmallLog {
        kept: part.kept,
        ending: part.ending,
        judged: MOST_PARTS - left,
    }))
}
