//! The first fault of a text, where its reason isn't asked for.

use crate::{Reason, Refusal};
use std::fmt;
use thiserror::Error;
use torus::Fault;

/// The first fault of a text and the number of its line, from 1. Out of memory is at line 0. Prints
/// as `fault F7 at line 3`.
#[derive(Clone, Copy, Debug, PartialEq, Eq, Error)]
pub struct LineFault {
    pub fault: Fault,
    pub line: u64,
}

impl fmt::Display for LineFault {
    fn fmt<W: fmt::Write>(&self, f: &mut fmt::Formatter<W>) -> fmt::Result {
        write!(f, "fault {} at line {}", self.fault, self.line)
    }
}

impl<R: Reason> From<Refusal<R>> for LineFault {
    ghost use Rattle.std.specs.Prelude.{◌≡◌};
    ghost use Rattle.lexer.specs.Faults.{fault_of_refusal};

    ghost from_gives = { λ refusal fault. fault ≡ fault_of_refusal R.fault_of refusal };

    fn from(refusal: Refusal<R>) -> LineFault {
        LineFault {
            fault: refusal.reason.fault(),
            line: refusal.line,
        }
    }
}
