//! Faults and the records where they were found.

ghost use Rattle.std.specs.Prelude.{◌≡◌};
ghost use Rattle.lexer.specs.Outcome.{line_of_fault};

use lexer::LineFault;
use torus::Fault;

/// A fault that was found at the record of a place; `Fault::Memory` at 0.
pub(crate) fn fault_at(fault: Fault, place: u64) -> LineFault
    ensures { result ≡ record { fault = fault; line = line_of_fault fault place } }
{
    match fault {
        Fault::Memory => LineFault { fault, line: 0 },
        _ => LineFault { fault, line: place },
    }
}
