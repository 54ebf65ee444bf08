//! Annotations of operations that processors made, and pairs of a load reserved and a store conditional.

ghost use Rattle.std.specs.Prelude.{◌≡◌};
ghost use Rattle.lexer.specs.Outcome.{Makes};
ghost use Rattle.model_text.specs.Made.{address_in, annotated, annotated_if, note_of, pair_of, pair_with};
ghost use Rattle.model_text.specs.Made.{reserve};
ghost use Rattle.model_text.specs.Views.{log_so_far};

use crate::annotation::{Annotation, PairPart, Reservation};
use crate::log::Log;
use crate::reason::LogReason;
use std::alloc::Allocator;
use trace_lines::{Form, LineReason};
use weak_models::Note;

/// The address of what is made; 0 of a fence.
pub(crate) fn address_in(step: Option<Form>) -> u128
    ensures { result ≡ address_in step }
{
    match step {
        None => 0,
        Some(form) => form.address,
    }
}

/// The note that an annotation makes.
fn note_of(annotation: Annotation, pair: Option<usize>) -> Note
    ensures { result ≡ note_of annotation pair }
{
    Note {
        acquire: annotation.acquire,
        release: annotation.release,
        rcpc: annotation.rcpc,
        pair,
        fence: annotation.fence,
    }
}

/// The number of the load that a store conditional at an address is paired with.
fn pair_with(reserved: Option<Reservation>, address: u128) -> Result<Option<usize>, LogReason>
    ensures { result ≡ pair_with reserved address }
{
    match reserved {
        None => Err(LogReason::NotReserved),
        Some(load) => {
            if load.address == address {
                Ok(Some(load.number))
            } else {
                Err(LogReason::ReservedWord)
            }
        }
    }
}

impl<A: Allocator + Copy> Log<A> {
    /// An operation has an annotation, where there is one.
    pub(crate) fn annotate_if(
        &mut self,
        p: u32,
        number: usize,
        address: u128,
        annotation: Option<Annotation>,
    ) -> Result<(), LogReason>
        ensures { Makes (LogReason.Line LineReason.Memory) (log_so_far self.new) result
            (annotated_if (log_so_far self.old) p number address annotation) }
    {
        match annotation {
            None => Ok(()),
            Some(annotation) => self.annotate(p, number, address, annotation),
        }
    }

    /// An operation of a processor has an annotation.
    fn annotate(
        &mut self,
        p: u32,
        number: usize,
        address: u128,
        annotation: Annotation,
    ) -> Result<(), LogReason>
        ensures { Makes (LogReason.Line LineReason.Memory) (log_so_far self.new) result
            (annotated (log_so_far self.old) p number address annotation) }
    {
        let pair = self.pair_of(p, address, annotation.part)?;
        let note = note_of(annotation, pair);
        if self.notes.insert(number, note).is_err() {
            return Err(LogReason::Line(LineReason::Memory));
        }
        self.reserve(p, number, address, annotation.part)
    }

    /// The load reserved that an operation of a processor is paired with, by its number.
    fn pair_of(&self, p: u32, address: u128, part: PairPart) -> Result<Option<usize>, LogReason>
        ensures { result ≡ pair_of (log_so_far self.now) p address part }
    {
        match part {
            PairPart::Neither => Ok(None),
            PairPart::Reserved => Ok(None),
            PairPart::Conditional => {
                let reserved = self.reserved.get(&p).copied().unwrap_or(None);
                pair_with(reserved, address)
            }
        }
    }

    /// What is reserved behind an operation of a processor.
    fn reserve(
        &mut self,
        p: u32,
        number: usize,
        address: u128,
        part: PairPart,
    ) -> Result<(), LogReason>
        ensures { Makes (LogReason.Line LineReason.Memory) (log_so_far self.new) result
            (reserve (log_so_far self.old) p number address part) }
    {
        let reserved = match part {
            PairPart::Neither => return Ok(()),
            PairPart::Reserved => Some(Reservation { number, address }),
            PairPart::Conditional => None,
        };
        if self.reserved.insert(p, reserved).is_err() {
            return Err(LogReason::Line(LineReason::Memory));
        }
        Ok(())
    }
}
