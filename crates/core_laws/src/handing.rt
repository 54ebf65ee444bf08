//! Laws of lines that come at any time, each the contract of a function that does nothing.

ghost use Rattle.std.specs.Prelude.{◌≡◌, ◌↔◌, ℕ, List, None, map, sum_by};
ghost use Rattle.torus.specs.declared.step.Step.{Step};
ghost use Rattle.script_lines.specs.declared.line.Line.{Line};
ghost use Rattle.core_laws.specs.Core.{Load};
ghost use Rattle.core_laws.specs.Machine.{Core, IsAfter, shown};
ghost use Rattle.core_laws.specs.Appended.{load_with, MayFollow};
ghost use Rattle.core_laws.specs.Handed.{handed, moves_kept, refused, BringsWords};

/// A machine that is handed a line that may follow, at any time: it stands where the moves of the steps
/// so far lead from the load with the line, without the reports where they were taken back, and it shows
/// what it showed.
pub fn lines_are_handed()
    ensures stands { (l : Load) (c : Core) (steps : List Step) (p : ℕ) (line : Line)
        → IsAfter l c steps → MayFollow l p line
        → IsAfter (load_with l p line) (handed c p line) (moves_kept l c p steps) }
    ensures shown { (c : Core) (p : ℕ) (line : Line) → shown (handed c p line) ≡ shown c }
    ensures book { (c : Core) (p : ℕ) (line : Line) → (handed c p line).book ≡ c.book }
{}

/// The machine alone decides which lines may follow: those that it doesn't refuse.
pub fn machines_tell_what_may_follow()
    ensures { (l : Load) (c : Core) (steps : List Step) (p : ℕ) (line : Line)
        → IsAfter l c steps → BringsWords line → (refused c p line ≡ None) ↔ MayFollow l p line }
{}
