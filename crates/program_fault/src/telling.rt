//! How a sentence on a text is told.

ghost use Rattle.std.specs.Prelude.{◌≡◌, is_some};
ghost use Rattle.lexer.specs.Named.{IsAbout};
ghost use Rattle.program_fault.specs.Causes.{cause_of, is_of_texts};

use crate::ProgramFault;
use lexer::Named;
use std::fmt::{self, Display};
use torus::Fault;

/// A text, and the name under which a sentence speaks of it.
pub fn named<'a>(name: &'a str, text: &'a [u8]) -> Named<'a>
    ensures { IsAbout result name.now text.now }
{
    Named { name, text }
}

/// Whether a fault may be that of a line of a text: memory may have been refused while one was
/// read.
pub fn is_of_texts(fault: &ProgramFault) -> bool
    ensures { result ≡ is_of_texts fault.now }
{
    matches!(
        *fault,
        ProgramFault::Line(_) | ProgramFault::Fault(Fault::Memory)
    )
}

/// Why texts have a fault.
#[derive(Clone, Copy)]
pub enum Cause<S> {
    /// The sentence on the first of them that has one.
    Sentence(S),
    /// A request for memory was refused behind all, which have no fault.
    Behind,
}

impl<S: Display> Display for Cause<S> {
    ghost use Rattle.program_fault.specs.Causes.{cause_text};

    ghost output = { λ cause. cause_text S.output cause };

    fn fmt<W: fmt::Write>(&self, f: &mut fmt::Formatter<W>) -> fmt::Result {
        match self {
            Cause::Sentence(sentence) => sentence.fmt(f),
            Cause::Behind => f.write_str(
                "a request for memory was refused behind the texts, which have no fault",
            ),
        }
    }
}

/// Why texts have a fault, by the sentence on the first of them that has one. Where memory was
/// refused, that was at the same text once more, or behind all.
pub fn fault_cause<S: Drop>(fault: &ProgramFault, sentence: Option<S>) -> Option<Cause<S>>
    ensures { result ≡ cause_of fault.now sentence }
{
    match sentence {
        Some(sentence) => Some(Cause::Sentence(sentence)),
        None => match *fault {
            ProgramFault::Fault(Fault::Memory) => Some(Cause::Behind),
            _ => None,
        },
    }
}

/// Says a sentence, if there is one, and answers whether there is.
pub fn told<R: Eprint, S: Display + Drop>(rt: &R, sentence: Option<S>) -> bool
    ensures { result ≡ is_some sentence }
{
    let Some(sentence) = sentence else {
        return false;
    };
    let _ = eprintln!(rt; "{sentence}");
    true
}

/// Says why texts have a fault, by the sentence on the first of them that has one.
pub fn explain_by<R: Eprint, S: Display + Drop>(rt: &R, fault: &ProgramFault, sentence: Option<S>) {
    let _ = told(rt, fault_cause(fault, sentence));
}
