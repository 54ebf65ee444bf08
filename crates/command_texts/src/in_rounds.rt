ghost use Rattle.std.specs.Prelude.{◌≡◌, Bool, IfErr, IfOk, []};
ghost use Rattle.std.specs.Str.Lines.{lines};
ghost use Rattle.one_order.specs.Load.{Load};
ghost use Rattle.core_laws.specs.Machine.{IsAfter};
ghost use Rattle.machine_core.specs.Loading.{HasLoaded, load_by};
ghost use Rattle.fair_rounds.specs.declared.pacing.Pace.TheVariants.{InOrder};
ghost use Rattle.program_fault.specs.Done.{Does, output};
ghost use Rattle.program_fault.specs.Outcome.{IsReadFault, IsTextsFault};
ghost use Rattle.command_texts.specs.Ends.{HasEndedRounds, ShowsReached};
ghost use Rattle.command_texts.specs.Rounds.{HasMadeRounds, PrintsRounds};
ghost use Rattle.command_texts.specs.Calls.{Hears};
ghost use Rattle.command_texts.specs.Telling.{HearsPaced, TellsRounds, answered_by, round_calls};

use crate::ProgramFault;
use crate::ending::Ending;
use crate::steps::{moves_since, print_run};
use core_laws::machine_laws::{
    moves_are_counted, reached_machines_report_well, steps_decide_the_machine,
};
use fair_rounds::{Pace, Pacer};
use machine_core::{Machine, load};
use report_lines::Out;
use std::alloc::Allocator;

/// Watches a run in rounds, or by steps. Whatever it does, the run and its report are the same.
pub trait Progress {
    ghost use Rattle.std.specs.Prelude.{List, [], ◌∷◌};
    ghost use Rattle.command_texts.specs.Calls.{Call, Wants, Made, Ended, Hears};

    // Which lists of calls may be all that it has heard so far, in order: any, unless an `impl` says more.
    ghost heard: { Self → List Call → Type 0 } = { λ watcher calls. Unit {0} };

    /// Whether it wants a report on how far the run is. Asked once after each round, so it is to cost
    /// little.
    fn wants(&mut self) -> bool
        ensures { Hears (heard self.old) (heard self.new) (Wants result ∷ []) };

    /// So many rounds are made, and so many operations are answered.
    fn made(&mut self, rounds: u64, answered: u64)
        ensures { Hears (heard self.old) (heard self.new) (Made rounds answered ∷ []) };

    /// The run has ended, of so many moves, and the report is written next. In so many of its rounds a guard
    /// held operations back.
    fn ended(&mut self, moves: u64, held: u64)
        ensures { Hears (heard self.old) (heard self.new) (Ended moves held ∷ []) };
}

/// Watches nothing.
#[derive(Clone, Copy, Debug)]
pub struct Silent;

impl Progress for Silent {
    fn wants(&mut self) -> bool {
        false
    }

    fn made(&mut self, _rounds: u64, _answered: u64) {}

    fn ended(&mut self, _moves: u64, _held: u64) {}
}

/// Runs the machine of a text, whose processors follow the scripts of a text, in rounds: until every
/// script is finished, and at most so many rounds. Prints the report of the run. Answers whether
/// every script is finished.
///
/// Errors: the first fault of the texts, taken in the order machine, scripts, or out of memory; and
/// nothing was written then. If the output fails, a beginning was written.
pub fn round_text<A: Allocator + Copy, W: Out>(
    alloc: A,
    machine: &[u8],
    scripts: &[u8],
    rounds: u64,
    out: &mut W,
) -> Result<bool, ProgramFault>
    ensures { PrintsRounds InOrder (load_by (lines machine.now) (lines scripts.now)) rounds
        (output (W.taken out.old) (W.failures out.old))
        (output (W.taken out.new) (W.failures out.new)) result }
{
    round_text_with(
        alloc,
        machine,
        scripts,
        rounds,
        Pace::InOrder,
        out,
        &mut Silent,
        &mut Silent,
    )
}

/// Does what `round_text` does, in rounds of a pace, and reports to `progress` how far the run is. After
/// each round it asks `progress` whether that is wanted, and if so reports how many rounds are made and
/// how many operations are answered. Behind the last round it reports the end, with how many moves all
/// rounds made, and in how many a guard held operations back. A fault of the texts, and memory refused for
/// the machine, come before it reports anything. `ending` is shown the machine whose report is printed.
///
/// Errors: as `round_text`.
pub fn round_text_with<A: Allocator + Copy, W: Out, P: Progress, E: Ending>(
    alloc: A,
    machine: &[u8],
    scripts: &[u8],
    rounds: u64,
    pace: Pace,
    out: &mut W,
    progress: &mut P,
    ending: &mut E,
) -> Result<bool, ProgramFault>
    ensures prints { PrintsRounds pace (load_by (lines machine.now) (lines scripts.now)) rounds
        (output (W.taken out.old) (W.failures out.old))
        (output (W.taken out.new) (W.failures out.new)) result }
    ensures told { TellsRounds pace (load_by (lines machine.now) (lines scripts.now)) rounds
        (P.heard progress.old) (P.heard progress.new) result }
    ensures ends { Does
        (ShowsReached
        (HasEndedRounds pace (load_by (lines machine.now) (lines scripts.now)) rounds)
        (E.saw ending.new))
        (IsTextsFault (load_by (lines machine.now) (lines scripts.now)))
        (output (W.taken out.old) (W.failures out.old))
        (output (W.taken out.new) (W.failures out.new)) result }
{
    let mut machine = loaded(alloc, machine, scripts)?;
    let most = machine.moves_left();
    let held = make_rounds(&mut machine, rounds, pace, progress);
    moves_are_counted();
    progress.ended(moves_since(most, &machine), held);
    ending.shown(&machine);
    steps_decide_the_machine();
    print_run(alloc, &machine, out)
}

/// The machine of two texts before any step.
///
/// Errors: the first fault of the texts, taken in the order machine, scripts, or out of memory.
pub fn loaded<A: Allocator + Copy>(
    alloc: A,
    machine: &[u8],
    scripts: &[u8],
) -> Result<Machine<A>, ProgramFault>
    ensures ok { IfOk result (HasLoaded (load_by (lines machine.now) (lines scripts.now))) }
    ensures err { IfErr result (IsReadFault (load_by (lines machine.now) (lines scripts.now))) }
{
    Ok(load(alloc, machine, scripts)?)
}

/// Makes rounds of a pace until every script is finished, and at most so many, and tells `progress` of
/// them. Answers in how many a guard held operations back.
fn make_rounds<A: Allocator, P: Progress>(
    machine: &mut Machine<A>,
    rounds: u64,
    pace: Pace,
    progress: &mut P,
) -> u64
    ensures made { (l : Load) → IsAfter l machine.old []
        → HasMadeRounds pace l rounds machine.new }
    ensures told { (l : Load) → IsAfter l machine.old []
        → HearsPaced pace l rounds result (P.heard progress.old) (P.heard progress.new) }
{
    steps_decide_the_machine();
    let mut pacer = Pacer::new(pace, machine);
    for before in 0..rounds {
        if machine.finished() {
            return pacer.guard.held_rounds();
        }
        pacer.round(machine, before);
        tell_round(machine, before + 1, progress);
    }
    pacer.guard.held_rounds()
}

/// Tells `progress` of the last of so many rounds. Operations are counted only where it wants to
/// be told.
fn tell_round<A: Allocator, P: Progress>(machine: &Machine<A>, rounds: u64, progress: &mut P)
    ensures { (wants : Bool)
        × Hears (P.heard progress.old) (P.heard progress.new)
        (round_calls rounds (answered_by machine.now) wants) }
{
    if progress.wants() {
        progress.made(rounds, answered(machine));
    }
}

/// How many operations are answered; at most `u64::MAX`.
fn answered<A: Allocator>(machine: &Machine<A>) -> u64
    ensures { result ≡ answered_by machine.now }
{
    machine.reached();
    reached_machines_report_well();
    let mut count: u64 = 0;
    for processor in 0..machine.torus().tiles() {
        if let Some(answers) = machine.answers(processor) {
            count = count.saturating_add(answers.len() as u64);
        }
    }
    count
}
