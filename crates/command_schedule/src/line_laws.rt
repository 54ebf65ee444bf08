//! Laws of schedules, each the contract of a function that does nothing.

ghost use Rattle.std.specs.Prelude.{◌≡◌, ◌+◌, ◌<◌, ◌^◌, ℕ, List, Bool, [], ◌∷◌, ◌++◌, length};
ghost use Rattle.std.specs.Prelude.{Result, Ok, All};
ghost use Rattle.std.specs.Prelude.{flat_map};
ghost use Rattle.std.specs.Str.Lines.{lines};
ghost use Rattle.torus.specs.declared.step.Step.{Step};
ghost use Rattle.torus.specs.Shape.{IsAccepted};
ghost use Rattle.script_lines.specs.Machine.{MachineSpec};
ghost use Rattle.script.specs.Steps.{steps_of};
ghost use Rattle.command_schedule.specs.declared.line.ScheduleLine.{ScheduleLine};
ghost use Rattle.command_schedule.specs.Line.{text_of};
ghost use Rattle.command_schedule.specs.Schedule.{IsOfTorus, IsStepOf, moves_among, round_lines};
ghost use Rattle.command_schedule.specs.Schedule.{lines_of_rounds, schedule_of, moves_schedule};

/// The text of lines of a schedule, each of agents and choices that the torus has, is a steps text
/// without a fault, and its steps are the moves among the lines, in their order. So of a schedule of
/// rounds they are the moves of the rounds, one after the other, and of a schedule of moves the moves.
pub fn schedules_read_back()
    ensures lines { (machine : MachineSpec) (ls : List ScheduleLine)
        → IsAccepted machine.shape → All (IsOfTorus machine.shape) ls
        → steps_of machine (lines (text_of ls)) ≡ Ok (moves_among ls) }
    ensures rounds { (machine : MachineSpec) (rounds : List (List Step)) (finished : Bool)
        → IsAccepted machine.shape → All (All (IsStepOf machine.shape)) rounds
        → length rounds < 2 ^ 64
        → steps_of machine (lines (text_of (schedule_of rounds finished)))
        ≡ Ok (flat_map (λ steps. steps) rounds) }
    ensures moves { (machine : MachineSpec) (steps : List Step) (finished : Bool)
        → IsAccepted machine.shape → All (IsStepOf machine.shape) steps
        → steps_of machine (lines (text_of (moves_schedule steps finished))) ≡ Ok steps }
{}

/// The lines of rounds and of one more are those of the rounds, and then those of the one; a text of
/// lines and of more is the one text and then the other. So a schedule may be written line by line.
pub fn schedules_grow()
    ensures rounds { (number : ℕ) (rounds : List (List Step)) (steps : List Step)
        → lines_of_rounds number (rounds ++ steps ∷ [])
        ≡ lines_of_rounds number rounds ++ round_lines (number + length rounds) steps }
    ensures text { (ls more : List ScheduleLine)
        → text_of (ls ++ more) ≡ text_of ls ++ text_of more }
    ensures moves { (ls more : List ScheduleLine)
        → moves_among (ls ++ more) ≡ moves_among ls ++ moves_among more }
{}
