//! The laws of scripts that are answered, each the contract of a function that does nothing.

ghost use Rattle.std.specs.Prelude.{◌≡◌, ◌↔◌, ℕ, List, Option, Some, slice_get, true};
ghost use Rattle.script_lines.specs.declared.line.Line.{Line};
ghost use Rattle.sentences.specs.declared.spins.SpentSpin.{SpentSpin};
ghost use Rattle.sentences.specs.Answered.{are_answered};
ghost use Rattle.sentences.specs.RunsOut.{HasAllReplies, RanOut};
ghost use Rattle.sentences.specs.Spins.{spent_spins};

/// The spins that are told are exactly those that made all their loads, behind operations that are all
/// answered, and found no number that they sought.
pub fn told_spins_ran_out()
    ensures { (script : List Line) (replies : List (Option ℕ)) (spin : SpentSpin)
        → ((i : ℕ) × (slice_get (spent_spins script replies) i ≡ Some spin))
        ↔ RanOut script replies spin }
{}

/// All operations of a script are answered exactly where the replies to all of them are there, one
/// after the other.
pub fn answered_scripts_have_all_replies()
    ensures { (script : List Line) (replies : List (Option ℕ))
        → (are_answered script replies ≡ true) ↔ HasAllReplies script replies }
{}
