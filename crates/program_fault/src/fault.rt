ghost use Rattle.std.specs.Prelude.{◌≡◌};
ghost use Rattle.program_fault.specs.Outcome.{finished_of, status_of};

use crate::message::fault_text;
use lexer::LineFault;
use report_check::CheckFault;
use report_lines::OutputFailed;
use std::error::Error;
use std::fmt;
use torus::Fault;

/// Why a command failed. It prints as `fault_text` says.
#[derive(Clone, Copy, Debug, PartialEq, Eq)]
pub enum ProgramFault {
    /// The first fault of a text.
    Line(LineFault),
    /// A fault that is of no line of a text, as out of memory is.
    Fault(Fault),
    /// The output took none of some bytes that it was given.
    Output,
    /// A tile that was named is not below the number of tiles.
    Tile,
    /// The first line of a report that breaks a rule, from 1.
    Bad(u64),
}

impl fmt::Display for ProgramFault {
    ghost use Rattle.std.specs.Prelude.{Some};
    ghost use Rattle.program_fault.specs.Message.{fault_text_of};

    ghost output = { λ fault. Some (fault_text_of fault) };

    fn fmt<W: fmt::Write>(&self, f: &mut fmt::Formatter<W>) -> fmt::Result {
        f.write_str(fault_text(self).as_str())
    }
}

impl Error for ProgramFault {}

impl From<LineFault> for ProgramFault {
    ghost use Rattle.program_fault.specs.Outcome.{of_line};

    ghost from_gives = { λ fault made. made ≡ of_line fault };

    fn from(fault: LineFault) -> ProgramFault {
        match fault.fault {
            Fault::Memory => ProgramFault::Fault(Fault::Memory),
            _ => ProgramFault::Line(fault),
        }
    }
}

impl From<CheckFault> for ProgramFault {
    ghost use Rattle.program_fault.specs.Outcome.{of_check};

    ghost from_gives = { λ fault made. made ≡ of_check fault };

    fn from(fault: CheckFault) -> ProgramFault {
        match fault {
            CheckFault::BadReport { line } => ProgramFault::Bad(line),
            CheckFault::Memory => ProgramFault::Fault(Fault::Memory),
        }
    }
}

impl From<Fault> for ProgramFault {
    ghost use Rattle.program_fault.specs.declared.fault.ProgramFault.TheVariants as program;

    ghost from_gives = { λ fault made. made ≡ program.Fault fault };

    fn from(fault: Fault) -> ProgramFault {
        ProgramFault::Fault(fault)
    }
}

impl From<OutputFailed> for ProgramFault {
    ghost use Rattle.program_fault.specs.declared.fault.ProgramFault.TheVariants as program;

    ghost from_gives = { λ _ made. made ≡ program.Output };

    fn from(_: OutputFailed) -> ProgramFault {
        ProgramFault::Output
    }
}

/// The answer of a command that runs no script: it is good, as one is whose scripts are finished.
pub fn finished(answer: Result<(), ProgramFault>) -> Result<bool, ProgramFault>
    ensures { result ≡ finished_of answer }
{
    match answer {
        Ok(()) => Ok(true),
        Err(fault) => Err(fault),
    }
}

/// The status that the program ends with: 0 good and, if scripts were run, all are finished; 1 a
/// fault of a text, a bad report, or out of memory; 2 a tile that is not there; 3 a script is not
/// finished; 4 the output failed.
pub fn status_of(answer: &Result<bool, ProgramFault>) -> u8
    ensures { result ≡ status_of answer.now }
{
    match answer {
        Ok(true) => 0,
        Ok(false) => 3,
        Err(ProgramFault::Line(_)) => 1,
        Err(ProgramFault::Fault(_)) => 1,
        Err(ProgramFault::Output) => 4,
        Err(ProgramFault::Tile) => 2,
        Err(ProgramFault::Bad(_)) => 1,
    }
}
