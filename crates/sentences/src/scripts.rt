//! What became of the scripts of a run, by the answers that its processors had.

ghost use Rattle.std.specs.Prelude.{◌≡◌, ◌≤◌, ◌++◌, IfOk, IfErr, OnOk, map, if◌then◌else◌};
ghost use Rattle.std.specs.List.Sorted.{IsNonDecreasingBy, IsPermutation};
ghost use Rattle.std.specs.Str.Lines.{lines};
ghost use Rattle.sentences.specs.Ended.{ended_spin, answered_in, IsEndOf, IsEndOfTexts};
ghost use Rattle.sentences.specs.Ended.{IsEndInTextOrder, IsScriptsFault};

use crate::spins::{ScriptEnd, SpentSpin};
use crate::text::end_at_lines;
use lexer::LineFault;
use one_order::Answer;
use script::{Scripts, read_machine, read_scripts};
use std::alloc::{AllocError, Allocator};
use torus::Fault;

/// A spin that made all its loads, of which none found the number that it waits for.
#[derive(Clone, Copy)]
pub struct EndedSpin {
    pub processor: u32,
    /// The line of the script text, from 1.
    pub line: u64,
    pub address: u32,
    pub loads: u32,
    pub wanted: u64,
}

/// What became of the scripts of a run.
#[derive(Drop)]
pub struct EndedScripts<A: Allocator> {
    /// The spins that ran out of loads, processor by processor, and each one's in the order of its
    /// script.
    pub spins: Vec<EndedSpin, A>,
    /// How many processors have an operation that isn't answered.
    pub unfinished: u64,
    /// How many operations are answered.
    pub answered: u64,
}

/// A spin of a processor that ran out of loads, whose place is its line in the text of the scripts.
fn ended_spin(processor: u32, spin: SpentSpin) -> EndedSpin
    ensures { result ≡ ended_spin processor spin }
{
    EndedSpin {
        processor,
        line: spin.place,
        address: spin.address,
        loads: spin.loads,
        wanted: spin.sought,
    }
}

/// Adds the spins of a processor that ran out of loads.
fn add_spins<A: Allocator>(
    found: &mut Vec<EndedSpin, A>,
    processor: u32,
    spins: &[SpentSpin],
) -> Result<(), AllocError>
    ensures { OnOk result
        (found.new.items ≡ found.old.items ++ map (ended_spin processor) spins.now) }
{
    for spin in spins {
        found.push(ended_spin(processor, *spin))?;
    }
    Ok(())
}

/// How many operations are answered; at most `u64::MAX`.
fn answered_in(answers: &[&[Answer]]) -> u64
    ensures { result ≡ answered_in (map (λ own. own.now) answers.now) }
{
    let mut count = 0u64;
    for own in answers {
        count = count.saturating_add(own.len() as u64);
    }
    count
}

/// How many scripts aren't finished, of one whose operations are all answered or not.
fn unfinished_of(is_answered: bool) -> u64
    ensures is { result ≡ if is_answered then 0 else 1 }
    ensures few { result ≤ 1 }
{
    if is_answered { 0 } else { 1 }
}

/// What became of scripts, by the answers of each processor; the text is that of the scripts.
fn end_of_lists<A: Allocator + Copy>(
    alloc: A,
    text: &[u8],
    scripts: &Scripts<A>,
    answers: &[&[Answer]],
) -> Result<EndedScripts<A>, AllocError>
    ensures { IfOk result
        (IsEndOf (lines text.now) scripts.now.lists (map (λ own. own.now) answers.now)) }
{
    let answered = answered_in(answers);
    let mut spins = Vec::new(alloc);
    let mut unfinished = 0u64;
    let mut processor = 0u32;
    for own in answers {
        let Some(script) = scripts.lines(processor) else {
            return Ok(EndedScripts {
                spins,
                unfinished,
                answered,
            });
        };
        let end = end_at_lines(alloc, processor, text, script, own)?;
        add_spins(&mut spins, processor, &end.spins)?;
        unfinished += unfinished_of(end.is_answered);
        processor += 1;
    }
    Ok(EndedScripts {
        spins,
        unfinished,
        answered,
    })
}

/// What became of the scripts of a text for the machine of a text, by the answers that each processor
/// had in a run.
///
/// Errors: the first fault of the texts, taken in this order, or out of memory.
pub fn ended_scripts<A: Allocator + Copy>(
    alloc: A,
    machine: &[u8],
    scripts: &[u8],
    answers: &[&[Answer]],
) -> Result<EndedScripts<A>, LineFault>
    ensures ok { IfOk result (IsEndOfTexts (lines machine.now) (lines scripts.now)
        (map (λ own. own.now) answers.now)) }
    ensures err { IfErr result (IsScriptsFault (lines machine.now) (lines scripts.now)) }
{
    let read = read_machine(alloc, machine)?;
    let lists = read_scripts(alloc, scripts, &read)?;
    match end_of_lists(alloc, scripts, &lists, answers) {
        Ok(ended) => Ok(ended),
        Err(_) => Err(LineFault {
            fault: Fault::Memory,
            line: 0,
        }),
    }
}

/// Puts spins in the order of their lines.
fn put_in_text_order<A: Allocator>(spins: &mut Vec<EndedSpin, A>)
    ensures rising { IsNonDecreasingBy (λ spin. spin.line) spins.new.items }
    ensures same { IsPermutation spins.old.items spins.new.items }
{
    spins.sort_unstable_by_key(|spin| spin.line);
}

/// What `ended_scripts` answers, with the spins in the order of the script text.
///
/// Errors: as `ended_scripts`.
pub fn ended_in_text_order<A: Allocator + Copy>(
    alloc: A,
    machine: &[u8],
    scripts: &[u8],
    answers: &[&[Answer]],
) -> Result<EndedScripts<A>, LineFault>
    ensures ok { IfOk result (IsEndInTextOrder (lines machine.now) (lines scripts.now)
        (map (λ own. own.now) answers.now)) }
    ensures err { IfErr result (IsScriptsFault (lines machine.now) (lines scripts.now)) }
{
    let mut ended = ended_scripts(alloc, machine, scripts, answers)?;
    put_in_text_order(&mut ended.spins);
    Ok(ended)
}
