//! Laws of reports, each the contract of a function that does nothing.

ghost use Rattle.std.specs.Prelude.{◌≡◌, ◌<◌, ℕ, List, length};
ghost use Rattle.torus.specs.declared.step.Step.{Step};
ghost use Rattle.script_lines.specs.declared.line.Line.{Line};
ghost use Rattle.core_laws.specs.Core.{Load};
ghost use Rattle.core_laws.specs.Machine.{Core, IsAfter, shown};
ghost use Rattle.core_laws.specs.MachineMoves.{moves_of};
ghost use Rattle.core_laws.specs.Appended.{appended, load_with, IsUnreported, MayFollow};
ghost use Rattle.core_laws.specs.Reopened.{reopened, without_reports};

/// Where steps lead from a load to a machine, the machine of which all reports are taken back stands
/// where the moves of these steps that are no reports lead: they are moves without the others too.
/// Nobody has reported there, and it shows what it showed.
pub fn reports_are_taken_back()
    ensures stands { (l : Load) (c : Core) (steps : List Step)
        → IsAfter l c steps → IsAfter l (reopened c) (without_reports (moves_of l steps)) }
    ensures moves { (l : Load) (c : Core) (steps : List Step)
        → IsAfter l c steps
        → moves_of l (without_reports (moves_of l steps)) ≡ without_reports (moves_of l steps) }
    ensures unreported { (c : Core) (p : ℕ)
        → p < length c.state.tiles → IsUnreported (reopened c).state p }
    ensures shown { (c : Core) → shown (reopened c) ≡ shown c }
    ensures book { (c : Core) → (reopened c).book ≡ c.book }
{}

/// So a line within the limits can come at any time, whoever has reported or seen that all have: the
/// machine of which the reports are taken back, and which is handed the line, stands where the moves
/// that are no reports lead from the load with the line.
pub fn lines_come_at_any_time()
    ensures { (l : Load) (c : Core) (steps : List Step) (p : ℕ) (line : Line)
        → IsAfter l c steps → MayFollow l p line
        → IsAfter (load_with l p line) (appended (reopened c) p line)
        (without_reports (moves_of l steps)) }
{}
