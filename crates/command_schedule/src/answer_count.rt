//! How many replies a script can have.

ghost use Rattle.std.specs.Prelude.{◌≡◌, ◌↔◌, ◌≤◌, ◌++◌, IfOk, OnOk, length, map, true};
ghost use Rattle.std.specs.List.{slice_split};
ghost use Rattle.script_lines.specs.Views.{lists_of};
ghost use Rattle.script_lines.specs.Lines.{operation_count, total_count};
ghost use Rattle.command_schedule.specs.Answers.{AreWithin, bound_of, bounds_of, CanAnswer, counts_of};
ghost use Rattle.command_schedule.specs.Answers.{is_parting, least_count};

use crate::answer_word::AnswerWord;
use order_book::operation_count;
use script::{Line, LineList};
use std::alloc::{AllocError, Allocator};

/// The least and the most replies that a script can have.
#[derive(Clone, Copy)]
pub(crate) struct Bounds {
    pub least: usize,
    pub most: usize,
}

/// The fewest operations that a script issues: one for each line but a fence.
fn least_count(lines: &[Line]) -> usize
    ensures { result ≡ least_count lines.now }
{
    let mut count = 0;
    for line in lines {
        match line {
            Line::Fence => {}
            _ => count += 1,
        }
    }
    count
}

/// Adds the bounds of a script, if it has any operation.
///
/// Errors: memory.
fn push_bound<A: Allocator>(bounds: &mut Vec<Bounds, A>, lines: &[Line]) -> Result<(), AllocError>
    requires { operation_count lines.now ≤ 65536 }
    ensures { OnOk result (bounds.new.items ≡ bounds.old.items ++ bound_of lines.now) }
{
    let least = least_count(lines);
    if least == 0 {
        return Ok(());
    }
    let most = operation_count(lines);
    bounds.push(Bounds { least, most })?;
    Ok(())
}

/// The bounds of each script that has any operation, by processor.
///
/// Errors: memory.
fn bounds_of<A: Allocator + Copy>(
    alloc: A,
    scripts: &[LineList<A>],
) -> Result<Vec<Bounds, A>, AllocError>
    requires { total_count (lists_of scripts.now) ≤ 65536 }
    ensures { IfOk result (λ bounds. bounds.items ≡ bounds_of (lists_of scripts.now)) }
{
    let mut bounds = Vec::new(alloc);
    for script in scripts {
        push_bound(&mut bounds, script.lines.as_slice())?;
    }
    Ok(bounds)
}

/// Whether a word parts the replies of two processors.
fn is_parting(word: AnswerWord) -> bool
    ensures { result ≡ is_parting word }
{
    matches!(word, AnswerWord::Parting)
}

/// The replies of an answer, by processor.
///
/// Errors: memory.
fn groups_of<A: Allocator>(
    alloc: A,
    wanted: &[AnswerWord],
) -> Result<Vec<&[AnswerWord], A>, AllocError>
    ensures { IfOk result (λ groups. map (λ group. group.now) groups.items
        ≡ slice_split is_parting wanted.now) }
{
    wanted.split(|word| is_parting(*word)).collect(alloc)
}

/// The numbers of replies of an answer that has any words, by processor.
///
/// Errors: memory.
fn lengths_of<A: Allocator + Copy>(
    alloc: A,
    wanted: &[AnswerWord],
) -> Result<Vec<usize, A>, AllocError>
    ensures { IfOk result (λ counts. counts.items
        ≡ map length (slice_split is_parting wanted.now)) }
{
    let mut counts = Vec::new(alloc);
    let groups = groups_of(alloc, wanted)?;
    for group in groups.as_slice() {
        counts.push(group.len())?;
    }
    Ok(counts)
}

/// The numbers of replies of an answer, by processor; none of an answer without words.
///
/// Errors: memory.
fn counts_of<A: Allocator + Copy>(
    alloc: A,
    wanted: &[AnswerWord],
) -> Result<Vec<usize, A>, AllocError>
    ensures { IfOk result (λ counts. counts.items ≡ counts_of wanted.now) }
{
    match wanted {
        [] => Ok(Vec::new(alloc)),
        [_, ..] => lengths_of(alloc, wanted),
    }
}

/// Whether each number is within its bounds, and there are as many of both.
fn are_within(bounds: &[Bounds], counts: &[usize]) -> bool
    ensures { (result ≡ true) ↔ AreWithin bounds.now counts.now }
{
    if bounds.len() != counts.len() {
        return false;
    }
    for at in 0..bounds.len() {
        if counts[at] < bounds[at].least || counts[at] > bounds[at].most {
            return false;
        }
    }
    true
}

/// Whether scripts can have as many replies as an answer has.
///
/// Errors: memory.
pub(crate) fn can_answer<A: Allocator + Copy>(
    alloc: A,
    scripts: &[LineList<A>],
    wanted: &[AnswerWord],
) -> Result<bool, AllocError>
    requires { total_count (lists_of scripts.now) ≤ 65536 }
    ensures { IfOk result (λ can. (can ≡ true) ↔ CanAnswer (lists_of scripts.now) wanted.now) }
{
    let bounds = bounds_of(alloc, scripts)?;
    let counts = counts_of(alloc, wanted)?;
    let within = bounds.as_slice();
    let given = counts.as_slice();
    Ok(are_within(within, given))
}
