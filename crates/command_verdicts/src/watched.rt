//! What a watch of a trace comes to.

ghost use Rattle.std.specs.Prelude.{◌≡◌};
ghost use Rattle.command_verdicts.specs.Watched.{line_fault_of, watched_verdict};

use crate::Judged;
use command_watch::{End, Stop};
use lexer::{LineFault, Reason};
use program_fault::ProgramFault;
use torus::Fault;

/// A fault of the line of a number.
fn line_fault(fault: Fault, line: u64) -> ProgramFault
    ensures { result ≡ line_fault_of fault line }
{
    ProgramFault::from(LineFault { fault, line })
}

/// What a watch judges that ended so at the line of a number; `None` where its input can't be read. A line
/// that is too long, or gives no event of a trace, is one that isn't understood.
pub fn watched_verdict(end: End, line: u64) -> Option<Result<Judged, ProgramFault>>
    ensures { result ≡ watched_verdict end line }
{
    match end {
        End::Linearizable => Some(Ok(Judged::Linearizable)),
        End::Stopped(Stop::NoOrder) => Some(Ok(Judged::NotLinearizable { line })),
        End::Stopped(Stop::TooMany) => Some(Ok(Judged::TooMany { line })),
        End::Stopped(Stop::Refused(reason)) => Some(Err(line_fault(reason.fault(), line))),
        End::Stopped(Stop::NoTrace) => Some(Err(line_fault(Fault::Line, line))),
        End::TooLong => Some(Err(line_fault(Fault::Line, line))),
        End::Unread(_) => None,
    }
}
