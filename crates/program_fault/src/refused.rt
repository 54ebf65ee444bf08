//! Why a command failed, with where and why its text is refused.

use crate::ProgramFault;
use lexer::{LineFault, Reason, Refusal};
use report_lines::OutputFailed;
use std::alloc::AllocError;
use torus::Fault;

/// Why a command failed. What it prints for that is its fault; the refusal is for the sentence behind it.
#[derive(Clone, Copy)]
pub struct Refused<R> {
    pub fault: ProgramFault,
    /// Where and why the text is refused; `None` where the command failed behind it.
    pub refusal: Option<Refusal<R>>,
}

impl<R: Reason> From<Refusal<R>> for Refused<R> {
    ghost use Rattle.std.specs.Prelude.{◌≡◌};
    ghost use Rattle.program_fault.specs.Refused.{refused_by};

    ghost from_gives = { λ refusal made. made ≡ refused_by R.fault_of refusal };

    fn from(refusal: Refusal<R>) -> Refused<R> {
        Refused {
            fault: LineFault::from(refusal).into(),
            refusal: Some(refusal),
        }
    }
}

impl<R> From<ProgramFault> for Refused<R> {
    ghost use Rattle.std.specs.Prelude.{◌≡◌};
    ghost use Rattle.program_fault.specs.Refused.{failed_by};

    ghost from_gives = { λ fault made. made ≡ failed_by fault };

    fn from(fault: ProgramFault) -> Refused<R> {
        Refused {
            fault,
            refusal: None,
        }
    }
}

impl<R> From<OutputFailed> for Refused<R> {
    ghost use Rattle.std.specs.Prelude.{◌≡◌};
    ghost use Rattle.program_fault.specs.Refused.{failed_by};
    ghost use Rattle.program_fault.specs.declared.fault.ProgramFault.TheVariants as program;

    ghost from_gives = { λ _ made. made ≡ failed_by program.Output };

    fn from(_: OutputFailed) -> Refused<R> {
        Refused {
            fault: ProgramFault::Output,
            refusal: None,
        }
    }
}

impl<R> From<AllocError> for Refused<R> {
    ghost use Rattle.std.specs.Prelude.{◌≡◌};
    ghost use Rattle.program_fault.specs.Refused.{failed_by};
    ghost use Rattle.program_fault.specs.declared.fault.ProgramFault.TheVariants as program;
    ghost use Rattle.torus.specs.declared.fault.Fault.TheVariants as fault;

    ghost from_gives = { λ _ made. made ≡ failed_by (program.Fault fault.Memory) };

    fn from(_: AllocError) -> Refused<R> {
        Refused {
            fault: ProgramFault::Fault(Fault::Memory),
            refusal: None,
        }
    }
}
