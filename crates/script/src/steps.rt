ghost use Rattle.std.specs.Prelude.{◌≡◌, ◌≤◌, ◌<◌, ◌∷◌, [], length, map, IfOk};
ghost use Rattle.std.specs.Str.Lines.{lines};
ghost use Rattle.lexer.specs.Words.{words_of};
ghost use Rattle.lexer.specs.Outcome.{Gives as GivesOrWhy, Makes};
ghost use Rattle.lexer.specs.Faults.{Gives};
ghost use Rattle.script.specs.Steps.{after_words, take_step, steps_from, steps_of, steps_or_why};
ghost use Rattle.script.specs.Plain.{first_line, after_attempt};

use crate::attempt::{Attempt, attempt_of};
use crate::plain::plain_attempt;
use crate::reason::TextReason;
use crate::{LineFault, MachineText};
use lexer::{Refusal, first_words, next_line};
use std::alloc::Allocator;
use torus::Step;

/// Reads a steps text for a machine.
///
/// Errors: where and why its first bad line is refused, or that a request for memory was.
pub fn read_steps_or_why<A: Allocator + Copy, B: Allocator>(
    alloc: A,
    text: &[u8],
    machine: &MachineText<B>,
) -> Result<Vec<Step, A>, Refusal<TextReason>>
    ensures { GivesOrWhy TextReason.Memory (λ v. v.items) result
        (steps_or_why machine.now (lines text.now)) }
{
    let torus = machine.torus();
    read_list(alloc, text, torus.tiles(), torus.dims())
}

/// Reads a steps text for a machine.
///
/// Errors: the first fault and its line, or `Fault::Memory` at line 0.
pub fn read_steps<A: Allocator + Copy, B: Allocator>(
    alloc: A,
    text: &[u8],
    machine: &MachineText<B>,
) -> Result<Vec<Step, A>, LineFault>
    ensures { Gives (λ v. v.items) result (steps_of machine.now (lines text.now)) }
{
    Ok(read_steps_or_why(alloc, text, machine)?)
}

/// Reads a steps text for a torus of so many tiles and dimensions.
fn read_list<A: Allocator + Copy>(
    alloc: A,
    text: &[u8],
    tiles: u32,
    dims: u32,
) -> Result<Vec<Step, A>, Refusal<TextReason>>
    requires tiles { tiles ≤ 64 }
    requires dims { dims ≤ 3 }
    ensures { GivesOrWhy TextReason.Memory (λ v. v.items) result
        (steps_from tiles dims [] 1 (lines text.now)) }
{
    let mut steps = Vec::new(alloc);
    let mut number = 1u64;
    let mut rest = text;
    while !rest.is_empty() {
        match take_line(&mut steps, tiles, dims, rest) {
            Ok(after) => rest = after,
            Err(reason) => return Err(Refusal::at(number, reason)),
        }
        number += 1;
    }
    Ok(steps)
}

/// Takes what the first line of a text says, and gives what follows the line.
fn take_line<'a, A: Allocator>(
    steps: &mut Vec<Step, A>,
    tiles: u32,
    dims: u32,
    text: &'a [u8],
) -> Result<&'a [u8], TextReason>
    requires tiles { tiles ≤ 64 }
    requires dims { dims ≤ 3 }
    requires some { 0 < length text.now }
    ensures rest { IfOk result (λ rest. lines text.now ≡ first_line text.now ∷ lines rest.now) }
    ensures less { IfOk result (λ rest. length rest.now < length text.now) }
    ensures steps { Makes TextReason.Memory steps.new.items result
        (after_words tiles dims steps.old.items (words_of (first_line text.now))) }
{
    match plain_attempt(text) {
        Some((attempt, rest)) => {
            take_attempt(steps, tiles, dims, attempt)?;
            Ok(rest)
        }
        None => take_words_of_line(steps, tiles, dims, text),
    }
}

/// Takes what the words of the first line of a text say, and gives what follows the line.
fn take_words_of_line<'a, A: Allocator>(
    steps: &mut Vec<Step, A>,
    tiles: u32,
    dims: u32,
    text: &'a [u8],
) -> Result<&'a [u8], TextReason>
    requires tiles { tiles ≤ 64 }
    requires dims { dims ≤ 3 }
    requires some { 0 < length text.now }
    ensures rest { IfOk result (λ rest. lines text.now ≡ first_line text.now ∷ lines rest.now) }
    ensures less { IfOk result (λ rest. length rest.now < length text.now) }
    ensures steps { Makes TextReason.Memory steps.new.items result
        (after_words tiles dims steps.old.items (words_of (first_line text.now))) }
{
    let Some((line, rest)) = next_line(text) else {
        return Ok(text);
    };
    let (words, count) = first_words(line);
    take_words(steps, tiles, dims, &words[..count])?;
    Ok(rest)
}

/// Takes what the words of a line say.
fn take_words<A: Allocator>(
    steps: &mut Vec<Step, A>,
    tiles: u32,
    dims: u32,
    words: &[&[u8]],
) -> Result<(), TextReason>
    requires tiles { tiles ≤ 64 }
    requires dims { dims ≤ 3 }
    ensures { Makes TextReason.Memory steps.new.items result
        (after_words tiles dims steps.old.items (map (λ word. word.now) words.now)) }
{
    match words {
        [] => Ok(()),
        [[b'#', ..], ..] => Ok(()),
        [_, ..] => take_step(steps, tiles, dims, words),
    }
}

/// Takes the step of a line.
fn take_step<A: Allocator>(
    steps: &mut Vec<Step, A>,
    tiles: u32,
    dims: u32,
    words: &[&[u8]],
) -> Result<(), TextReason>
    requires tiles { tiles ≤ 64 }
    requires dims { dims ≤ 3 }
    ensures { Makes TextReason.Memory steps.new.items result
        (take_step tiles dims steps.old.items (map (λ word. word.now) words.now)) }
{
    take_attempt(steps, tiles, dims, attempt_of(words)?)
}

/// Takes the step that an attempt is.
#[inline(always)]
fn take_attempt<A: Allocator>(
    steps: &mut Vec<Step, A>,
    tiles: u32,
    dims: u32,
    attempt: Attempt,
) -> Result<(), TextReason>
    requires tiles { tiles ≤ 64 }
    requires dims { dims ≤ 3 }
    ensures { Makes TextReason.Memory steps.new.items result
        (after_attempt tiles dims steps.old.items attempt) }
{
    let step = attempt.step(tiles, dims)?;
    match steps.push(step) {
        Ok(()) => Ok(()),
        Err(_) => Err(TextReason::Memory),
    }
}
