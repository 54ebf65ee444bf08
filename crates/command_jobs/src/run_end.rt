//! What became of the scripts of a run, for whoever is to be told.
ghost use Rattle.std.specs.Prelude.{IfSome};
ghost use Rattle.std.specs.Str.Lines.{lines};
ghost use Rattle.core_laws.specs.Machine.{shown};
ghost use Rattle.sentences.specs.Ended.{IsEndInTextOrder};

use command_texts::Ending;
use machine_report::{Reached, answers_of};
use sentences::{EndedScripts, ended_in_text_order};
use std::alloc::Global;

/// Finds what became of the scripts of a run.
#[derive(Drop)]
pub struct RunEnd<'a> {
    alloc: Global,
    machine: &'a [u8],
    scripts: &'a [u8],
    found: Option<EndedScripts<Global>>,
}

impl<'a> RunEnd<'a> {
    /// What is found of a run of the machine of a text, whose processors follow the scripts of a text:
    /// nothing before its end.
    pub fn new(alloc: Global, machine: &'a [u8], scripts: &'a [u8]) -> Self {
        RunEnd {
            alloc,
            machine,
            scripts,
            found: None,
        }
    }

    /// What became of the scripts; `None` before the end, and where memory ran out.
    pub fn found(&self) -> Option<&EndedScripts<Global>> {
        self.found.as_ref()
    }
}

impl Ending for RunEnd<'_> {
    ghost use Rattle.command_jobs.specs.Ends.{HasFound};

    ghost saw = { λ end core. HasFound end.machine.now end.scripts.now core end.found };

    fn shown<S: Reached>(&mut self, reached: &S) {
        self.found = found(self.alloc, reached, self.machine, self.scripts);
    }
}

/// What became of the scripts of a text, in the order of that text, by the answers of what was
/// reached; `None` where memory ran out.
fn found<S: Reached>(
    alloc: Global,
    reached: &S,
    machine: &[u8],
    scripts: &[u8],
) -> Option<EndedScripts<Global>>
    ensures { IfSome result (IsEndInTextOrder (lines machine.now) (lines scripts.now)
        (shown (S.core reached.now)).answers) }
{
    let Ok(answers) = answers_of(alloc, reached) else {
        return None;
    };
    ended_in_text_order(alloc, machine, scripts, &answers).ok()
}
