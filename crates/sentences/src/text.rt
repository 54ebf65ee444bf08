//! The lines of the spins in the text of the scripts.

ghost use Rattle.std.specs.Prelude.{◌≡◌, IfOk, map};
ghost use Rattle.std.specs.Str.Lines.{lines};
ghost use Rattle.lexer.specs.Words.{words_of};
ghost use Rattle.sentences.specs.Answered.{are_answered};
ghost use Rattle.sentences.specs.Replies.{replies_in};
ghost use Rattle.sentences.specs.Texts.{placed_at_line, is_script_line, numbers_from, spent_lines};

use crate::replies::replies_in;
use crate::spins::{ScriptEnd, SpentSpin, end_of_script};
use lexer::{first_words, index, next_line};
use one_order::Answer;
use script::Line;
use std::alloc::{AllocError, Allocator};

/// Whether words are a line of this processor's script.
fn is_script_line(processor: u32, words: &[&[u8]]) -> bool
    ensures { result ≡ is_script_line processor (map (λ word. word.now) words.now) }
{
    match words {
        [] => false,
        [[b'#', ..], ..] => false,
        [word, ..] => match index(word) {
            Some(spelled) => spelled == processor,
            None => false,
        },
    }
}

/// Whether a line of a text of scripts is one of this processor's.
fn is_line_of(processor: u32, line: &[u8]) -> bool
    ensures { result ≡ is_script_line processor (words_of line.now) }
{
    let (words, count) = first_words(line);
    is_script_line(processor, &words[..count])
}

/// The numbers of the lines of a processor's script in a text.
fn numbers_of<A: Allocator>(
    alloc: A,
    processor: u32,
    text: &[u8],
) -> Result<Vec<u64, A>, AllocError>
    ensures { IfOk result
        (λ numbers. numbers.items ≡ numbers_from processor 1 (lines text.now)) }
{
    let mut numbers = Vec::new(alloc);
    let mut number = 1u64;
    let mut rest = text;
    while let Some((line, after)) = next_line(rest) {
        if is_line_of(processor, line) {
            numbers.push(number)?;
        }
        number += 1;
        rest = after;
    }
    Ok(numbers)
}

/// A spin at its line among these, at 0 where there is none.
fn placed_at_line(numbers: &[u64], spin: SpentSpin) -> SpentSpin
    ensures { result ≡ placed_at_line numbers.now spin }
{
    SpentSpin {
        place: numbers.get(spin.place as usize).copied().unwrap_or(0),
        address: spin.address,
        sought: spin.sought,
        loads: spin.loads,
    }
}

/// Spins at their lines among these.
fn at_lines<A: Allocator>(
    alloc: A,
    numbers: &[u64],
    spins: &[SpentSpin],
) -> Result<Vec<SpentSpin, A>, AllocError>
    ensures { IfOk result (λ lines. lines.items ≡ map (placed_at_line numbers.now) spins.now) }
{
    let mut lines = Vec::new(alloc);
    for spin in spins {
        lines.push(placed_at_line(numbers, *spin))?;
    }
    Ok(lines)
}

/// What became of a processor's script, by the answers that it had; each spin that ran out of loads
/// has its line in the text of the scripts, from 1.
pub(crate) fn end_at_lines<A: Allocator + Copy>(
    alloc: A,
    processor: u32,
    text: &[u8],
    script: &[Line],
    answers: &[Answer],
) -> Result<ScriptEnd<A>, AllocError>
    ensures spins { IfOk result (λ end. end.spins.items
        ≡ spent_lines processor (lines text.now) script.now answers.now) }
    ensures answered { IfOk result
        (λ end. end.is_answered ≡ are_answered script.now (replies_in answers.now)) }
{
    let replies = replies_in(alloc, answers)?;
    let end = end_of_script(alloc, script, &replies)?;
    if end.spins.is_empty() {
        return Ok(end);
    }
    let numbers = numbers_of(alloc, processor, text)?;
    let spins = at_lines(alloc, &numbers, &end.spins)?;
    Ok(ScriptEnd {
        spins,
        is_answered: end.is_answered,
    })
}
