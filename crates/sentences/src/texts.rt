//! Which of the texts of a command has the first fault, and why.

ghost use Rattle.std.specs.Prelude.{◌≡◌, ◌⊎◌, Err, IfOk, IfErr, IfSome};
ghost use Rattle.std.specs.Str.Lines.{lines};
ghost use Rattle.script.specs.Machine.{machine_of, machine_or_why};
ghost use Rattle.sentences.specs.Told.{IsAboutText, IsFromScripts, IsFromSteps};
ghost use Rattle.sentences.specs.Told.{TellsReading, TellsWhy, TellsTile, refusal_in};
ghost use Rattle.sentences.specs.Told.{scripts_read, steps_read, scripts_or_why_of};
ghost use Rattle.sentences.specs.Told.{steps_or_why_of};

use crate::sentence::{Sentence, TileSentence};
use lexer::{LineFault, Named, Refusal};
use script::{
    TextReason, read_machine, read_machine_or_why, read_scripts_or_why, read_steps_or_why,
};
use std::alloc::Allocator;
use torus::Fault;

/// Why a machine text is refused; `None` where it has no fault.
pub fn machine_sentence<'a, A: Allocator + Copy>(
    alloc: A,
    machine: Named<'a>,
) -> Option<Sentence<'a>>
    ensures tells { TellsReading (machine_of (lines machine.entry.text.now)) result }
    ensures why { TellsWhy (machine_or_why (lines machine.entry.text.now)) result }
    ensures text { IfSome result (IsAboutText machine.entry) }
{
    match read_machine_or_why(alloc, machine.text) {
        Ok(_) => None,
        Err(refusal) => Some(sentence(machine, refusal)),
    }
}

/// Why the first of a machine text and a script text that has a fault is refused; `None` where
/// neither has one.
pub fn scripts_sentence<'a, A: Allocator + Copy>(
    alloc: A,
    machine: Named<'a>,
    scripts: Named<'a>,
) -> Option<Sentence<'a>>
    ensures tells { TellsReading
        (scripts_read (lines machine.entry.text.now) (lines scripts.entry.text.now)) result }
    ensures why { TellsWhy
        (scripts_or_why_of (lines machine.entry.text.now) (lines scripts.entry.text.now)) result }
    ensures text { IfSome result (IsFromScripts machine.entry scripts.entry) }
{
    let read = match read_machine_or_why(alloc, machine.text) {
        Ok(read) => read,
        Err(refusal) => return Some(sentence(machine, refusal)),
    };
    match read_scripts_or_why(alloc, scripts.text, &read) {
        Ok(_) => None,
        Err(refusal) => Some(sentence(scripts, refusal)),
    }
}

/// Why the first of a machine text, a script text and a steps text that has a fault is refused;
/// `None` where none has one.
pub fn steps_sentence<'a, A: Allocator + Copy>(
    alloc: A,
    machine: Named<'a>,
    scripts: Named<'a>,
    steps: Named<'a>,
) -> Option<Sentence<'a>>
    ensures tells { TellsReading
        (steps_read (lines machine.entry.text.now) (lines scripts.entry.text.now)
        (lines steps.entry.text.now)) result }
    ensures why { TellsWhy
        (steps_or_why_of (lines machine.entry.text.now) (lines scripts.entry.text.now)
        (lines steps.entry.text.now)) result }
    ensures text { IfSome result (IsFromSteps machine.entry scripts.entry steps.entry) }
{
    let read = match read_machine_or_why(alloc, machine.text) {
        Ok(read) => read,
        Err(refusal) => return Some(sentence(machine, refusal)),
    };
    if let Err(refusal) = read_scripts_or_why(alloc, scripts.text, &read) {
        return Some(sentence(scripts, refusal));
    }
    match read_steps_or_why(alloc, steps.text, &read) {
        Ok(_) => None,
        Err(refusal) => Some(sentence(steps, refusal)),
    }
}

/// The sentence on a text that is refused.
fn sentence<'a>(text: Named<'a>, refusal: Refusal<TextReason>) -> Sentence<'a>
    ensures refusal { refusal_in result ≡ refusal }
    ensures text { IsAboutText text.entry result }
{
    Sentence {
        name: text.name,
        text: text.text,
        line: refusal.line,
        reason: refusal.reason,
    }
}

/// The first of two tiles that the machine of a text hasn't; `None` where it has both.
///
/// Errors: the text's first fault, or out of memory.
pub fn tile_sentence<A: Allocator + Copy>(
    alloc: A,
    machine: &[u8],
    src: u32,
    dst: u32,
) -> Result<Option<TileSentence>, LineFault>
    ensures ok { IfOk result (TellsTile (machine_of (lines machine.now)) src dst) }
    ensures err { IfErr result (λ found. (machine_of (lines machine.now) ≡ Err found)
        ⊎ (found ≡ record { fault = Fault.Memory; line = 0 })) }
{
    let read = read_machine(alloc, machine)?;
    let tiles = read.torus().tiles();
    if src >= tiles {
        return Ok(Some(TileSentence { tile: src, tiles }));
    }
    if dst >= tiles {
        return Ok(Some(TileSentence { tile: dst, tiles }));
    }
    Ok(None)
}
