//! Laws of moves, each the contract of a function that does nothing.

ghost use Rattle.std.specs.Prelude.{◌≡◌, ◌+◌, ◌≤◌, ◌++◌, ℕ, List, Option, length};
ghost use Rattle.torus.specs.declared.step.Step.{Step};
ghost use Rattle.core_laws.specs.Rounds.{after_attempts, moves_in};
ghost use Rattle.core_laws.specs.Core.{Load, step, after};
ghost use Rattle.core_laws.specs.Machine.{Core, IsAfter, built_to, book_after, core_after};
ghost use Rattle.core_laws.specs.Machine.{core_after_load};
ghost use Rattle.core_laws.specs.ProgressMoves.{moves_made, most_moves};
ghost use Rattle.core_laws.specs.Enabled.{IsSublist, enabled_of, AreEnabled};
ghost use Rattle.core_laws.specs.MachineMoves.{moves_of, moves_from, AreMoves, AreMovesFrom};

/// Of any machine whose steps are a partial function: the enabled ones of a list of attempts are a
/// sublist of it, each enabled where it comes, and lead to the same state. They are all attempts
/// where these are all enabled, and so they are their own enabled ones. They are as many as the
/// moves; and those of two lists, one after the other, come one after the other.
pub fn enabled_attempts_lead_alike<S, C>()
    ensures part { (step : S → C → Option S) (s : S) (cs : List C)
        → IsSublist (enabled_of step s cs) cs }
    ensures enabled { (step : S → C → Option S) (s : S) (cs : List C)
        → AreEnabled step s (enabled_of step s cs) }
    ensures after { (step : S → C → Option S) (s : S) (cs : List C)
        → after_attempts step s (enabled_of step s cs) ≡ after_attempts step s cs }
    ensures all { (step : S → C → Option S) (s : S) (cs : List C)
        → AreEnabled step s cs → enabled_of step s cs ≡ cs }
    ensures again { (step : S → C → Option S) (s : S) (cs : List C)
        → enabled_of step s (enabled_of step s cs) ≡ enabled_of step s cs }
    ensures count { (step : S → C → Option S) (s : S) (cs : List C)
        → length (enabled_of step s cs) ≡ moves_in step s cs }
    ensures joined { (step : S → C → Option S) (s : S) (cs ds : List C)
        → enabled_of step s (cs ++ ds)
        ≡ enabled_of step s cs ++ enabled_of step (after_attempts step s cs) ds }
{}

/// The moves of a list of steps from a load: each is enabled where it comes, and they lead to the
/// same state, the same book and the same machine; so a machine that stands after the steps stands
/// after their moves. They are their own moves, and as many as the moves made.
pub fn moves_lead_alike()
    ensures part { (l : Load) (steps : List Step) → IsSublist (moves_of l steps) steps }
    ensures enabled { (l : Load) (steps : List Step) → AreMoves l (moves_of l steps) }
    ensures state { (l : Load) (steps : List Step) → after l (moves_of l steps) ≡ after l steps }
    ensures book { (l : Load) (steps : List Step)
        → book_after l (moves_of l steps) ≡ book_after l steps }
    ensures machine { (l : Load) (steps : List Step)
        → core_after_load l (moves_of l steps) ≡ core_after_load l steps }
    ensures stands { (l : Load) (c : Core) (steps : List Step)
        → IsAfter l c steps → IsAfter l c (moves_of l steps) }
    ensures again { (l : Load) (steps : List Step)
        → moves_of l (moves_of l steps) ≡ moves_of l steps }
    ensures all { (l : Load) (steps : List Step) → AreMoves l steps → moves_of l steps ≡ steps }
    ensures count { (l : Load) (steps : List Step)
        → length (moves_of l steps) ≡ moves_made l steps }
    ensures few { (l : Load) (c : Core) (steps : List Step)
        → IsAfter l c steps → length (moves_of l steps) + c.moves_left ≡ most_moves l }
{}

/// The moves of a list of steps from any machine: each is enabled where it comes, they lead to the
/// same machine, and they are their own moves. From where steps led, the moves of further steps lead
/// on to the machine to which these lead, and there are no more of them than are left; they are the
/// further moves of all steps.
pub fn moves_of_machines_lead_alike()
    ensures part { (c : Core) (steps : List Step) → IsSublist (moves_from c steps) steps }
    ensures enabled { (c : Core) (steps : List Step) → AreMovesFrom c (moves_from c steps) }
    ensures machine { (c : Core) (steps : List Step)
        → core_after c (moves_from c steps) ≡ core_after c steps }
    ensures again { (c : Core) (steps : List Step)
        → moves_from c (moves_from c steps) ≡ moves_from c steps }
    ensures all { (c : Core) (steps : List Step)
        → AreMovesFrom c steps → moves_from c steps ≡ steps }
    ensures count { (c : Core) (steps : List Step)
        → length (moves_from c steps) ≡ moves_in (step (built_to c)) c.state steps }
    ensures joined { (c : Core) (steps more : List Step)
        → moves_from c (steps ++ more)
        ≡ moves_from c steps ++ moves_from (core_after c steps) more }
    ensures stands { (l : Load) (c : Core) (before steps : List Step)
        → IsAfter l c before → IsAfter l (core_after c steps) (before ++ moves_from c steps) }
    ensures further { (l : Load) (c : Core) (before steps : List Step)
        → IsAfter l c before
        → moves_of l (before ++ steps) ≡ moves_of l before ++ moves_from c steps }
    ensures few { (l : Load) (c : Core) (before steps : List Step)
        → IsAfter l c before → length (moves_from c steps) ≤ c.moves_left }
{}
