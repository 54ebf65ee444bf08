ghost use Rattle.std.specs.Prelude.{◌≡◌, ◌≤◌, length, slice_get, vec_len};
ghost use Rattle.std.specs.Str.Lines.{lines};
ghost use Rattle.torus.specs.Shape.{IsAccepted};
ghost use Rattle.lexer.specs.Outcome.{Agrees, Gives as GivesOrWhy};
ghost use Rattle.script_lines.specs.Machine.{MachineSpec, IsAcceptedMachine};
ghost use Rattle.script.specs.Machine.{machine_of, machine_or_why};
ghost use Rattle.script.specs.Machine.{machine_with};
ghost use Rattle.script.specs.MachineViews.{reading_of, IsChecked};
ghost use Rattle.lexer.specs.Faults.{Gives};

use crate::LineFault;
use crate::reading::Reading;
use crate::reason::{Keyword, TextReason};
use lexer::{Refusal, first_words, next_line};
use std::alloc::{Allocator, Global};
use std::marker::Model;
use torus::Torus;

/// A machine as its text gives it: the torus, the depth of its channels (1 to 8 flits), the tags of
/// a processor (1 to 16) and the opening words (1 to 65536).
#[derive(Drop)]
pub struct MachineText<A: Allocator = Global> {
    torus: Torus,
    depth: u32,
    tags: u32,
    opening: Vec<u64, A>,
}

impl<A: Allocator> Model for MachineText<A> {
    ghost use Rattle.script_lines.specs.Machine.{MachineSpec};

    ghost Value = { MachineSpec };

    ghost use Rattle.script.specs.Inside.{machine_of_fields, IsMachineText};

    ghost view = { machine_of_fields };

    ghost invariant = { IsMachineText };
}

impl<A: Allocator> MachineText<A> {
    /// The machine of numbers within the limits.
    fn made(torus: Torus, depth: u32, tags: u32, opening: Vec<u64, A>) -> MachineText<A>
        requires shape { IsAccepted torus }
        requires depth { (1 ≤ depth) × (depth ≤ 8) }
        requires tags { (1 ≤ tags) × (tags ≤ 16) }
        requires words { (1 ≤ vec_len opening) × (vec_len opening ≤ 65536) }
        ensures { result ≡ record {
          shape = torus;
          depth = depth;
          tags = tags;
          opening = opening.items;
        } }
    {
        MachineText {
            torus,
            depth,
            tags,
            opening,
        }
    }

    /// The torus.
    pub fn torus(&self) -> &Torus
        ensures value { result.now ≡ self.now.shape }
        ensures accepted { IsAcceptedMachine self.now }
    {
        &self.torus
    }

    /// The flits that a channel holds, 1 to 8.
    pub fn depth(&self) -> u32
        ensures value { result ≡ self.now.depth }
        ensures accepted { IsAcceptedMachine self.now }
    {
        self.depth
    }

    /// The tags of a processor, 1 to 16.
    pub fn tags(&self) -> u32
        ensures value { result ≡ self.now.tags }
        ensures accepted { IsAcceptedMachine self.now }
    {
        self.tags
    }

    /// The number of words of the memory, 1 to 65536.
    pub fn words(&self) -> u32
        ensures value { result ≡ length self.now.opening }
        ensures accepted { IsAcceptedMachine self.now }
    {
        self.opening.len() as u32
    }

    /// The opening word at an address, `None` exactly where the address is not below the number of
    /// words.
    pub fn opening(&self, a: u32) -> Option<u64>
        ensures { result ≡ slice_get self.now.opening a }
    {
        self.opening.get(a as usize).copied()
    }

    /// The opening words by address.
    pub fn into_opening(self) -> Vec<u64, A>
        ensures value { result.items ≡ self.opening }
        ensures accepted { IsAcceptedMachine self }
    {
        self.opening
    }
}

/// Reads a machine text.
///
/// Errors: where and why its first bad line is refused, or that a request for memory was.
pub fn read_machine_or_why<A: Allocator + Copy>(
    alloc: A,
    text: &[u8],
) -> Result<MachineText<A>, Refusal<TextReason>>
    ensures { GivesOrWhy TextReason.Memory (λ m. m) result (machine_or_why (lines text.now)) }
{
    let mut reading = Reading::none(alloc);
    let mut number = 1u64;
    let mut rest = text;
    while let Some((line, after)) = next_line(rest) {
        let (words, count) = first_words(line);
        if let Err(reason) = reading.take(alloc, &words[..count]) {
            return Err(Refusal::at(number, reason));
        }
        number += 1;
        rest = after;
    }
    match machine_with(reading) {
        Ok(machine) => Ok(machine),
        Err(reason) => Err(Refusal::at(number, reason)),
    }
}

/// Reads a machine text.
///
/// Errors: the first fault and its line, or `Fault::Memory` at line 0.
pub fn read_machine<A: Allocator + Copy>(alloc: A, text: &[u8]) -> Result<MachineText<A>, LineFault>
    ensures { Gives (λ m. m) result (machine_of (lines text.now)) }
{
    Ok(read_machine_or_why(alloc, text)?)
}

/// The machine of settings that are all given.
fn machine_with<A: Allocator>(reading: Reading<A>) -> Result<MachineText<A>, TextReason>
    requires { IsChecked (reading_of reading) }
    ensures { Agrees (λ m. m) result (machine_with (reading_of reading)) }
{
    let Some(radices) = reading.settings.radices else {
        return Err(TextReason::Missing(Keyword::Radix));
    };
    let Some(dims) = reading.settings.dims else {
        return Err(TextReason::Missing(Keyword::Dims));
    };
    let Some(depth) = reading.settings.depth else {
        return Err(TextReason::Missing(Keyword::Depth));
    };
    let Some(tags) = reading.settings.tags else {
        return Err(TextReason::Missing(Keyword::Tags));
    };
    if reading.opening.is_empty() {
        return Err(TextReason::Missing(Keyword::Words));
    }
    let radices = radices.spread(dims);
    let datelines = match reading.settings.datelines {
        Some(datelines) => datelines,
        None => radices.last_digits(),
    };
    let torus = radices.torus(datelines).unwrap();
    Ok(MachineText::made(torus, depth, tags, reading.opening))
}
