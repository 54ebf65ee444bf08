ghost use Rattle.std.specs.Prelude.{◌≡◌};
ghost use Rattle.report_check.specs.declared.fault.CheckFault.TheVariants.{Memory};

use std::alloc::AllocError;
use std::error::Error;
use std::fmt::{self, Display};

/// Why a report is not said to be good.
#[derive(Clone, Copy, Debug, PartialEq, Eq)]
pub enum CheckFault {
    /// The first line, counted from 1, that breaks a rule given the lines before it, or where
    /// another line had to come.
    BadReport { line: u64 },
    /// A request for memory was refused.
    Memory,
}

impl Display for CheckFault {
    ghost use Rattle.std.specs.Prelude.{Some};
    ghost use Rattle.report_check.specs.Message.{check_fault_text};

    ghost output = { λ fault. Some (check_fault_text fault) };

    fn fmt<W: fmt::Write>(&self, f: &mut fmt::Formatter<W>) -> fmt::Result {
        match self {
            Self::BadReport { line } => write!(f, "bad report at line {line}"),
            Self::Memory => f.write_str("out of memory"),
        }
    }
}

impl Error for CheckFault {}

impl From<AllocError> for CheckFault {
    ghost from_gives = { λ _ e. e ≡ Memory };

    fn from(_refused: AllocError) -> CheckFault {
        CheckFault::Memory
    }
}
