ghost use Rattle.std.specs.Prelude.{◌≡◌, ◌≤◌, ◌↔◌, IsTrue, IfOk, [], length, map, replicate, slice_get};
ghost use Rattle.std.specs.Option.{option_copied};
ghost use Rattle.std.specs.Str.Lines.{lines};
ghost use Rattle.lexer.specs.Outcome.{Gives as GivesOrWhy};
ghost use Rattle.lexer.specs.Faults.{Gives};
ghost use Rattle.script_lines.specs.Lines.{ScriptsSpec, AreAcceptedScripts, Fit, fits};
ghost use Rattle.script.specs.Scripts.{scripts_of, scripts_or_why, scripts_from};
ghost use Rattle.script_lines.specs.Views.{lists_of};

use crate::progress::Progress;
use crate::reason::TextReason;
use crate::{Line, LineFault, LineList, MachineText};
use lexer::{Refusal, first_words, next_line};
use std::alloc::{Allocator, Global};
use std::marker::Model;

/// The scripts of all processors: at most 4096 operations each and 65536 in all, where a spin counts
/// the greatest number of its loads.
#[derive(Drop)]
pub struct Scripts<A: Allocator = Global> {
    words: u32,
    lists: Vec<LineList<A>, A>,
}

impl<A: Allocator> Model for Scripts<A> {
    ghost use Rattle.script_lines.specs.Lines.{ScriptsSpec};

    ghost Value = { ScriptsSpec };

    ghost use Rattle.script.specs.ScriptsInside.{scripts_of_fields, IsScripts};

    ghost view = { scripts_of_fields };

    ghost invariant = { IsScripts };
}

impl<A: Allocator> Scripts<A> {
    /// Whether the scripts were read for a machine of as many tiles and words as this one.
    pub fn fits<B: Allocator>(&self, machine: &MachineText<B>) -> bool
        ensures value { result ≡ fits self.now machine.now }
        ensures fit { IsTrue result ↔ Fit self.now machine.now }
        ensures accepted { AreAcceptedScripts self.now }
    {
        self.lists.len() == machine.torus().tiles() as usize && self.words == machine.words()
    }

    /// The lines of a processor, in order; `None` exactly where there is no such processor.
    pub fn lines(&self, p: u32) -> Option<&[Line]>
        ensures value { option_copied result ≡ slice_get self.now.lists p }
        ensures accepted { AreAcceptedScripts self.now }
    {
        match self.lists.get(p as usize) {
            Some(list) => Some(list.lines.as_slice()),
            None => None,
        }
    }

    /// The lines of each processor, by tile.
    pub fn into_lists(self) -> Vec<LineList<A>, A>
        ensures value { lists_of result.items ≡ self.lists }
        ensures accepted { AreAcceptedScripts self }
    {
        self.lists
    }
}

/// Reads a script text for a machine.
///
/// Errors: where and why its first bad line is refused, or that a request for memory was.
pub fn read_scripts_or_why<A: Allocator + Copy, B: Allocator>(
    alloc: A,
    text: &[u8],
    machine: &MachineText<B>,
) -> Result<Scripts<A>, Refusal<TextReason>>
    ensures value { GivesOrWhy TextReason.Memory (λ s. s) result
        (scripts_or_why machine.now (lines text.now)) }
    ensures fit { IfOk result (λ s. Fit s machine.now) }
{
    read_lists(alloc, text, machine.torus().tiles(), machine.words())
}

/// Reads a script text for a machine.
///
/// Errors: the first fault and its line, or `Fault::Memory` at line 0.
pub fn read_scripts<A: Allocator + Copy, B: Allocator>(
    alloc: A,
    text: &[u8],
    machine: &MachineText<B>,
) -> Result<Scripts<A>, LineFault>
    ensures value { Gives (λ s. s) result (scripts_of machine.now (lines text.now)) }
    ensures fit { IfOk result (λ s. Fit s machine.now) }
{
    Ok(read_scripts_or_why(alloc, text, machine)?)
}

/// Reads a script text for so many tiles and words.
fn read_lists<A: Allocator + Copy>(
    alloc: A,
    text: &[u8],
    tiles: u32,
    words: u32,
) -> Result<Scripts<A>, Refusal<TextReason>>
    requires { tiles ≤ 64 }
    ensures value { GivesOrWhy TextReason.Memory (λ s. s) result
        (scripts_from words (replicate tiles []) 1 (lines text.now)) }
    ensures fit { IfOk result (λ s. (length s.lists ≡ tiles) × (s.words ≡ words)) }
{
    let Ok(mut progress) = Progress::none(alloc, tiles, words) else {
        return Err(Refusal::at(0, TextReason::Memory));
    };
    let mut number = 1u64;
    let mut rest = text;
    while let Some((line, after)) = next_line(rest) {
        let (found, count) = first_words(line);
        if let Err(reason) = progress.take(&found[..count]) {
            return Err(Refusal::at(number, reason));
        }
        number += 1;
        rest = after;
    }
    Ok(Scripts {
        words,
        lists: progress.lists,
    })
}
