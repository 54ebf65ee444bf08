//! The dialogue with a machine, over standard input and standard output.

use command_jobs::writer;
use command_live::{RecordedMachine, converse};
use program_fault::ProgramFault;
use std::io::{BufReader, Input};
use torus::Fault;

/// Holds a dialogue with the machine of a text, whose scripts are empty at first.
///
/// Errors: the text's first fault, or out of memory, before the first line; or the output failed.
pub(crate) fn talk<R: Input + Print + AllocGlobal>(
    rt: &R,
    machine: &[u8],
) -> Result<(), ProgramFault> {
    let mut machine = RecordedMachine::load(rt.alloc(), machine, b"")?;
    let Ok(mut input) = BufReader::new(rt.alloc(), rt.reader()) else {
        return Err(ProgramFault::Fault(Fault::Memory));
    };
    let mut out = writer(rt)?;
    converse(rt.alloc(), &mut machine, &mut input, &mut out)
}
