//! Laws of machines that are asked, each the contract of a function that does nothing.

ghost use Rattle.std.specs.Prelude.{◌≡◌, ◌<◌, ◌≤◌, ◌+◌, ◌^◌, ℕ, List, false, true, length};
ghost use Rattle.torus.specs.declared.step.Step.{Step};
ghost use Rattle.script_lines.specs.declared.line.Line.{Line};
ghost use Rattle.script_lines.specs.Lines.{operation_count, script_of};
ghost use Rattle.one_order.specs.Observed.{list_at};
ghost use Rattle.machine_parts.specs.Core.{Load};
ghost use Rattle.machine_parts.specs.Appended.{load_with};
ghost use Rattle.machine_parts.specs.Machine.{Core, IsAfter, shown};
ghost use Rattle.fair_rounds.specs.Hosts.{Handing, IsOut, longest_wait};
ghost use Rattle.machine_asked.specs.Asked.{Asked, IsNumberedLine, has_spin, is_operation};
ghost use Rattle.machine_asked.specs.GoingOn.{GoesOnFrom};
ghost use Rattle.machine_asked.specs.Hosts.{IsHostedFairly};
ghost use Rattle.machine_asked.specs.Near.{AreNear};

/// A line that is put behind a script without spins has the index of as many operations as the script
/// makes: the operation that the processor issues under it, whenever it does, is that of the line.
pub fn operations_are_numbered()
    ensures { (l : Load) (p : ℕ) (line : Line) → p < length l.scripts
        → has_spin (script_of l.scripts p) ≡ false → is_operation line ≡ true
        → IsNumberedLine (load_with l p line) p line (operation_count (script_of l.scripts p)) }
{}

/// A machine whose opening words are the words of another goes on where that stands, as if it were one: there
/// are legal orders of the operations of both, of which the one behind the other is served by one memory,
/// from the opening words of the first on, with the same replies, and leaves the words of the second.
pub fn reopened_machines_go_on()
    ensures { (l k : Load) (c d : Core) (steps more : List Step) → IsAfter l c steps
        → IsAfter k d more → d.opening ≡ (shown c).memory → GoesOnFrom l steps k more }
{}

/// A processor's answers stand near the places of their operations, whatever the schedule: an answer has at most
/// 16 operations that were issued before its own and are not answered before it.
pub fn answers_stand_near()
    ensures { (l : Load) (c : Core) (steps : List Step) → IsAfter l c steps → (p : ℕ)
        → AreNear (list_at (shown c).answers p) }
{}

/// In fair rounds no operation is out for as many as the guard's rounds, 241 for each tag of each tile, 2 for
/// each tile and one, whatever lines hosts hand between them, within the first 2^64 rounds.
pub fn fair_rounds_let_none_wait()
    ensures { (most : ℕ) (lines : ℕ → List Handing) (v : ℕ → Asked) (l : Load) (steps : List Step)
        → IsAfter l (v 0).core steps → IsHostedFairly most lines v
        → (k p i : ℕ) → k + longest_wait most (v 0).core < 2 ^ 64
        → ((m : ℕ) → k ≤ m → m ≤ k + longest_wait most (v 0).core → IsOut (v m).core p i) → ⊥ }
{}
