//! Laws of rounds, of any machine whose steps are a partial function, each the contract of a
//! function that does nothing.

ghost use Rattle.std.specs.Prelude.{◌≡◌, ◌+◌, ◌<◌, ◌≤◌, ℕ, Bool, true, List, Option, Some, None};
ghost use Rattle.core_laws.specs.Rounds.{IsOn, first_enabled, IsEnabled, moves_in, after_attempts};
ghost use Rattle.core_laws.specs.Rounds.{Finishes};
ghost use Rattle.core_laws.specs.Rounds.{IsBoundedWork};

/// The first enabled choice of a list is enabled, where one is found; and where none is found, no
/// choice of the list is enabled.
pub fn first_enabled_is_found<S, C>()
    ensures found { (step : S → C → Option S) (s : S) (c : C) (cs : List C)
        → first_enabled step s cs ≡ Some c → IsOn c cs × IsEnabled step s c }
    ensures none { (step : S → C → Option S) (s : S) (c : C) (cs : List C)
        → first_enabled step s cs ≡ None → IsOn c cs → IsEnabled step s c → ⊥ }
{}

/// A round moves where a choice of it is enabled at first.
pub fn rounds_move<S, C>()
    ensures { (step : S → C → Option S) (s : S) (c : C) (cs : List C)
        → first_enabled step s cs ≡ Some c → 0 < moves_in step s cs }
{}

/// Where each enabled step lowers what is left, attempts lower it by their moves at least. And where
/// a choice of the round is enabled while the machine isn't finished, rounds finish it: there is a
/// least number of them that does, and it is at most what is left.
pub fn rounds_finish<S, C>()
    ensures falls { (step : S → C → Option S) (round : List C) (finished reached : S → Bool)
        (left : S → ℕ)
        → IsBoundedWork step round finished reached left → (s : S) (cs : List C) → reached s ≡ true
        → left (after_attempts step s cs) + moves_in step s cs ≤ left s }
    ensures finish { (step : S → C → Option S) (round : List C) (finished reached : S → Bool)
        (left : S → ℕ)
        → IsBoundedWork step round finished reached left → (s : S) → reached s ≡ true
        → Finishes step round finished left s }
{}
