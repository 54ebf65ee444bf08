//! Laws of the schedules of runs, each the contract of a function that does nothing.

ghost use Rattle.std.specs.Prelude.{◌≡◌, ◌<◌, ◌^◌, ℕ, List, Bool, length, Ok, All, flat_map};
ghost use Rattle.std.specs.Str.Lines.{lines};
ghost use Rattle.torus.specs.declared.step.Step.{Step};
ghost use Rattle.script_lines.specs.Machine.{MachineSpec};
ghost use Rattle.script.specs.Steps.{steps_of};
ghost use Rattle.command_schedule.specs.Line.{text_of};
ghost use Rattle.command_schedule.specs.Schedule.{IsStepOf, schedule_of, moves_schedule};
ghost use Rattle.core_laws.specs.Core.{Load};
ghost use Rattle.core_laws.specs.Runs.{IsAcceptedLoad};
ghost use Rattle.core_laws.specs.Machine.{Core, IsAfter};
ghost use Rattle.core_laws.specs.MachineMoves.{moves_of, moves_from};

/// The moves of a list of steps, from an accepted load and from a machine that steps led to, are of
/// agents and choices that the torus has.
pub fn moves_are_of_the_torus()
    ensures load { (l : Load) (steps : List Step)
        → IsAcceptedLoad l → All (IsStepOf l.shape) (moves_of l steps) }
    ensures machine { (l : Load) (c : Core) (before steps : List Step)
        → IsAfter l c before → All (IsStepOf l.shape) (moves_from c steps) }
{}

/// The schedule of the moves of a list of steps from an accepted load, cut into rounds or not, is
/// read for its machine as these moves, without a fault.
pub fn schedules_run_again()
    ensures rounds { (l : Load) (machine : MachineSpec) (steps : List Step)
        (rounds : List (List Step)) (finished : Bool)
        → IsAcceptedLoad l → machine.shape ≡ l.shape
        → flat_map (λ moves. moves) rounds ≡ moves_of l steps → length rounds < 2 ^ 64
        → steps_of machine (lines (text_of (schedule_of rounds finished)))
        ≡ Ok (moves_of l steps) }
    ensures moves { (l : Load) (machine : MachineSpec) (steps : List Step) (finished : Bool)
        → IsAcceptedLoad l → machine.shape ≡ l.shape
        → steps_of machine (lines (text_of (moves_schedule (moves_of l steps) finished)))
        ≡ Ok (moves_of l steps) }
{}
