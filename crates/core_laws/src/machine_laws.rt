//! Laws of every run of an accepted load, and of every machine that one reaches, each the contract of a function that
//! does nothing.

ghost use Rattle.std.specs.Prelude.{◌≡◌, ◌+◌, ◌<◌, ◌≤◌, ◌++◌, ◌∷◌, [], ◌↔◌, ℕ, List, Some, None};
ghost use Rattle.std.specs.Prelude.{true, false, length};
ghost use Rattle.std.specs.Prelude.{slice_get};
ghost use Rattle.torus.specs.declared.step.Step.{Step};
ghost use Rattle.script_lines.specs.Machine.{MachineSpec, IsAcceptedMachine};
ghost use Rattle.script_lines.specs.Lines.{ScriptsSpec, AreAcceptedScripts, Fit};
ghost use Rattle.one_order.specs.declared.ordered.Ordered.{Ordered};
ghost use Rattle.one_order.specs.Order.{LinearizationPoint, IsLegalOrder, StandsBefore};
ghost use Rattle.one_order.specs.Rows.{BeginRows};
ghost use Rattle.one_order.specs.Consequences.{Precedes};
ghost use Rattle.one_order.specs.Load.{load_of};
ghost use Rattle.one_order.specs.AbstractScripts.{AreFinished};
ghost use Rattle.core_laws.specs.Rounds.{moves_in};
ghost use Rattle.core_laws.specs.Core.{Load, run_of, step, round};
ghost use Rattle.core_laws.specs.Runs.{IsAcceptedLoad};
ghost use Rattle.core_laws.specs.ProgressMoves.{IsLive, moves_made, most_moves};
ghost use Rattle.core_laws.specs.Machine.{Core, IsAfter, IsLawful, MakesMove, built_to, book_after};
ghost use Rattle.core_laws.specs.Machine.{core_after_load};
ghost use Rattle.core_laws.specs.Machine.{core_next, core_after, all_finished};
ghost use Rattle.core_laws.specs.Delivered.{DeliversInOrder};
ghost use Rattle.core_laws.specs.Reported.{ReportsWell};

/// Of every machine that is reached, what it shows goes with its rows: its report is a good one.
pub fn reached_machines_report_well()
    ensures { (l : Load) (c : Core) (steps : List Step) → IsAfter l c steps → ReportsWell c }
{}

/// An operation that is answered before another is issued comes before it in the order: said of the
/// steps of the run, in any legal order of it, and of the numbers in the rows.
pub fn order_respects_real_time()
    ensures steps { (l : Load) (c : Core) (steps : List Step) → IsAfter l c steps
        → (order : List LinearizationPoint)
        → IsLegalOrder l.opening (run_of l steps) (length steps) order
        → (p i k : ℕ) (y : LinearizationPoint) → slice_get order k ≡ Some y
        → Precedes (run_of l steps) p i y.source y.index
        → StandsBefore order k p i }
    ensures rows { (l : Load) (c : Core) (steps : List Step) → IsAfter l c steps
        → (j k m : ℕ) (x y : Ordered) → slice_get c.book.rows j ≡ Some x
        → slice_get c.book.rows k ≡ Some y
        → x.answered ≡ Some m → m < y.issued → j < k }
{}

/// Packets are delivered in order: between each two tiles and of both classes, those that the
/// receiver has whole are a beginning of those that the sender has sent there. None is invented,
/// doubled, mixed or overtaken. The load and the steps say what was sent.
pub fn packets_are_delivered()
    ensures { (l : Load) (c : Core) (steps : List Step) → IsAfter l c steps
        → DeliversInOrder l steps c }
{}

/// Two machines that the same steps reach from the same load are the same: the machine that these
/// steps lead to.
pub fn steps_decide_the_machine()
    ensures same { (l : Load) (c d : Core) (steps : List Step) → IsAfter l c steps
        → IsAfter l d steps → c ≡ d }
    ensures named { (l : Load) (c : Core) (steps : List Step) → IsAfter l c steps
        → c ≡ core_after_load l steps }
{}

/// What the readers give is an accepted load.
pub fn readers_give_accepted_loads()
    ensures { (machine : MachineSpec) (scripts : ScriptsSpec) → IsAcceptedMachine machine
        → AreAcceptedScripts scripts → Fit scripts machine → IsAcceptedLoad (load_of machine scripts) }
{}

/// The run of any list of steps from any accepted load is lawful.
pub fn every_run_is_lawful()
    ensures { (l : Load) (steps : List Step) → IsAcceptedLoad l
        → IsLawful l steps (book_after l steps).rows }
{}

/// From any accepted load any steps lead to a machine that stands after them, and reports well.
pub fn steps_lead_to_a_machine()
    ensures after { (l : Load) (steps : List Step) → IsAcceptedLoad l
        → IsAfter l (core_after_load l steps) steps }
    ensures reports { (l : Load) (steps : List Step) → IsAcceptedLoad l
        → ReportsWell (core_after_load l steps) }
{}

/// From where steps led, a further attempt and further steps lead on.
pub fn steps_lead_on()
    ensures step { (l : Load) (c : Core) (steps : List Step) (attempt : Step) → IsAfter l c steps
        → IsAfter l (core_next c attempt) (steps ++ attempt ∷ []) }
    ensures steps { (l : Load) (c : Core) (before steps : List Step) → IsAfter l c before
        → IsAfter l (core_after c steps) (before ++ steps) }
{}

/// Every follower has come to the end of its script exactly where every script is finished.
pub fn ended_followers_finish_scripts()
    ensures { (l : Load) (c : Core) (steps : List Step) → IsAfter l c steps
        → (all_finished c.state ≡ true) ↔ AreFinished (run_of l steps) (length steps) l.scripts }
{}

/// What a longer list of steps shows at its first steps is what these show by themselves.
pub fn first_steps_begin_the_run()
    ensures { (l : Load) (steps more : List Step) (k : ℕ) → k ≤ length steps
        → run_of l (steps ++ more) k ≡ run_of l steps k }
{}

/// The order of the first steps is a beginning of the order of a longer list of steps: the rows
/// stand where they stood, with the numbers that they had, and with answers' numbers that have come
/// since.
pub fn orders_go_on()
    ensures { (l : Load) (steps more : List Step) → IsAcceptedLoad l
        → BeginRows (book_after l steps).rows (book_after l (steps ++ more)).rows }
{}

/// The moves left and the moves made are together the most that the load allows; no list of steps
/// makes more than are left; and each move of a list leaves one less.
pub fn moves_are_counted()
    ensures all { (l : Load) (c : Core) (steps : List Step) → IsAfter l c steps
        → moves_made l steps + c.moves_left ≡ most_moves l }
    ensures most { (l : Load) (c : Core) (steps more : List Step) → IsAfter l c steps
        → moves_in (step (built_to c)) c.state more ≤ c.moves_left }
    ensures after { (l : Load) (c : Core) (steps more : List Step) → IsAfter l c steps
        → (core_after c more).moves_left + moves_in (step (built_to c)) c.state more
        ≡ c.moves_left }
{}

/// No dead state: while some script isn't finished, some step of a round is enabled; and a round
/// makes a move.
pub fn unfinished_machines_move()
    ensures live { (l : Load) (c : Core) (steps : List Step) → IsAfter l c steps
        → all_finished c.state ≡ false → IsLive (built_to c) c.state }
    ensures round { (l : Load) (c : Core) (steps : List Step) → IsAfter l c steps
        → all_finished c.state ≡ false → MakesMove c (round c.shape) }
{}
