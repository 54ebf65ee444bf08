//! The headline of what seats know, as laws, each the contract of a function that does nothing.

ghost use Rattle.std.specs.Prelude.{◌≡◌, ◌⊎◌, ◌<◌, ℕ, List};
ghost use Rattle.torus.specs.declared.step.Step.{Step};
ghost use Rattle.fabric_rule.specs.Core.{Load};
ghost use Rattle.fabric_rule.specs.Runs.{IsAcceptedLoad};
ghost use Rattle.fabric_rule.specs.Groups.{In, Apart};
ghost use Rattle.fabric.specs.Key.{Rises, ranges};
ghost use Rattle.fabric.specs.Seats.{Knowing, Learns, JoinsTo};
ghost use Rattle.fabric.specs.Lawful.{HasLawfulRun, IsAnsweredIn, KeepsAnswersFirst};

/// Of the ranges into which cuts part n tiles, each tile is in one, and in no other; and no other tile is.
pub fn ranges_have_each_tile_once()
    ensures every { (cuts : List ℕ) (n t : ℕ) → Rises 0 cuts n → t < n → In (ranges 0 cuts n) t }
    ensures no_others { (cuts : List ℕ) (n t : ℕ) → Rises 0 cuts n → In (ranges 0 cuts n) t
        → t < n }
    ensures once { (cuts : List ℕ) (n : ℕ) → Rises 0 cuts n → Apart (ranges 0 cuts n) }
{}

/// Every run of an accepted load is lawful: so is the run that a seat knows after any call, and the run
/// behind a `Final`.
pub fn known_runs_are_lawful()
    ensures { (load : Load) (run : List Step) → IsAcceptedLoad load → HasLawfulRun load run }
{}

/// What isn't issued in the run that a seat knows stands, once served, after all that is answered in
/// that run.
pub fn known_answers_come_first()
    ensures { (load : Load) (run : List Step) → IsAcceptedLoad load → KeepsAnswersFirst load run }
{}

/// A seat that met another, or holds the tiles of both, knows as answered all that either knew as
/// answered before. So what is issued after a meeting stands, once served, after all of that.
pub fn meetings_tell_all_answers()
    ensures met { (v u w : Knowing) (p i : ℕ) → IsAcceptedLoad v.load →
        u.load ≡ v.load → Learns v u w
        → IsAnsweredIn v.load v.run p i ⊎ IsAnsweredIn u.load u.run p i
        → IsAnsweredIn w.load w.run p i }
    ensures joined { (v u w : Knowing) (p i : ℕ) → IsAcceptedLoad v.load → u.load ≡ v.load
        → JoinsTo v u w
        → IsAnsweredIn v.load v.run p i ⊎ IsAnsweredIn u.load u.run p i
        → IsAnsweredIn w.load w.run p i }
{}
