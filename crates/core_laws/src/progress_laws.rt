//! Laws of moves in every run of the core, each the contract of a function that does nothing.

ghost use Rattle.std.specs.Prelude.{◌≡◌, ◌↔◌, ◌<◌, ◌≤◌, ◌+◌, ℕ, List, take, Some, None, true};
ghost use Rattle.std.specs.Prelude.{false, slice_get};
ghost use Rattle.torus.specs.declared.step.Step.{Step};
ghost use Rattle.packet.specs.declared.kinds.Operation.{Operation};
ghost use Rattle.one_order.specs.Following.{is_finished};
ghost use Rattle.one_order.specs.Observed.{list_at, HasAnswered};
ghost use Rattle.one_order.specs.AbstractScripts.{AreFinished};
ghost use Rattle.core_laws.specs.Rounds.{IsOn, IsEnabled, moves_in, Finishes};
ghost use Rattle.core_laws.specs.Tile.{TileState};
ghost use Rattle.core_laws.specs.Core.{Load, design_of, step, round, run_of};
ghost use Rattle.core_laws.specs.Runs.{IsAcceptedLoad, state_after};
ghost use Rattle.core_laws.specs.ProgressMoves.{enabled_step, IsLive, tiles_finished, moves_made};
ghost use Rattle.core_laws.specs.ProgressMoves.{most_moves, moves_left};

/// No dead state: in every state that a run reaches, while some script isn't finished, some step of
/// a round is enabled; and a round from there makes a move.
pub fn some_step_is_enabled()
    ensures live { (l : Load) → IsAcceptedLoad l → (steps : List Step) (n : ℕ)
        → tiles_finished (state_after l steps n) ≡ false
        → IsLive (design_of l) (state_after l steps n) }
    ensures moves { (l : Load) → IsAcceptedLoad l → (steps : List Step) (n : ℕ)
        → tiles_finished (state_after l steps n) ≡ false
        → 0 < moves_in (step (design_of l)) (state_after l steps n) (round l.shape) }
{}

/// The first step in the order of a round that is enabled is enabled; where there is none, no step is
/// enabled, of any agent: each enabled step is an attempt of the round.
pub fn first_enabled_step_is_found()
    ensures found { (l : Load) → IsAcceptedLoad l → (steps : List Step) (n : ℕ) (attempt : Step)
        → enabled_step (design_of l) (state_after l steps n) ≡ Some attempt
        → IsEnabled (step (design_of l)) (state_after l steps n) attempt }
    ensures none { (l : Load) → IsAcceptedLoad l → (steps : List Step) (n : ℕ)
        → enabled_step (design_of l) (state_after l steps n) ≡ None
        → (attempt : Step) → IsEnabled (step (design_of l)) (state_after l steps n) attempt → ⊥ }
    ensures round { (l : Load) → IsAcceptedLoad l → (steps : List Step) (n : ℕ) (attempt : Step)
        → IsEnabled (step (design_of l)) (state_after l steps n) attempt
        → IsOn attempt (round l.shape) }
{}

/// All scripts are finished exactly where, in the run, each processor has issued what its script
/// allows and all of it is answered.
pub fn finished_scripts_are_followed_to_their_ends()
    ensures { (l : Load) → IsAcceptedLoad l → (steps : List Step) (n : ℕ)
        → (tiles_finished (state_after l steps n) ≡ true) ↔ AreFinished (run_of l steps) n l.scripts }
{}

/// An operation that is issued and has no answer makes its processor's script unfinished.
pub fn unanswered_operations_leave_scripts_unfinished()
    ensures script { (l : Load) → IsAcceptedLoad l
        → (steps : List Step) (n p i : ℕ) (o : Operation) (tile : TileState)
        → slice_get (state_after l steps n).tiles p ≡ Some tile
        → slice_get (list_at (run_of l steps n).issued p) i ≡ Some o
        → (HasAnswered (run_of l steps n) p i → ⊥)
        → is_finished tile.processor.operations.following ≡ false }
    ensures all { (l : Load) → IsAcceptedLoad l → (steps : List Step) (n p i : ℕ) (o : Operation)
        → slice_get (list_at (run_of l steps n).issued p) i ≡ Some o
        → (HasAnswered (run_of l steps n) p i → ⊥)
        → tiles_finished (state_after l steps n) ≡ false }
{}

/// Bounded work: no list of attempts, of any agents in any order, makes more moves than 241 for each
/// operation that the scripts allow, and 2 for each tile.
pub fn no_run_has_more_moves()
    ensures most { (l : Load) → IsAcceptedLoad l → (steps : List Step)
        → moves_made l steps ≤ most_moves l }
    ensures left { (l : Load) → IsAcceptedLoad l → (steps : List Step) (n : ℕ)
        → moves_made l (take n steps) + moves_left l steps n ≡ most_moves l }
{}

/// After every run rounds finish every script: there is a least number of rounds after which all are
/// finished, and it is at most the moves that were left.
pub fn rounds_finish_every_script()
    ensures { (l : Load) → IsAcceptedLoad l → (steps : List Step) (n : ℕ)
        → Finishes (step (design_of l)) (round l.shape) tiles_finished (λ s. moves_left l steps n)
        (state_after l steps n) }
{}
