//! Where and why a text is refused.

ghost use Rattle.std.specs.Prelude.{◌≡◌};
ghost use Rattle.lexer.specs.Outcome.{line_of_fault};

use torus::Fault;

/// Why a line of a text is refused.
pub trait Reason: Copy {
    ghost use Rattle.torus.specs.declared.fault.Fault.{Fault};

    // Which fault has this reason.
    ghost fault_of: { Self → Fault };

    /// The fault that has this reason.
    fn fault(self) -> Fault
        ensures { result ≡ fault_of self };
}

/// Where and why a text is refused.
#[derive(Clone, Copy)]
pub struct Refusal<R> {
    /// The line, from 1. It is the number behind the last line where the text as a whole lacks
    /// something, and 0 where a request for memory was refused.
    pub line: u64,
    pub reason: R,
}

impl<R: Reason> Refusal<R> {
    /// A refusal of the line of a number; one of memory is at line 0.
    pub fn at(line: u64, reason: R) -> Refusal<R>
        ensures { result
            ≡ record { line = line_of_fault (R.fault_of reason) line; reason = reason } }
    {
        match reason.fault() {
            Fault::Memory => Refusal { line: 0, reason },
            _ => Refusal { line, reason },
        }
    }
}
