//! Laws of searches for the order of a trace, each the contract of a function that does nothing.

ghost use Rattle.std.specs.Prelude.{◌≡◌, ◌<◌, ◌≤◌, ◌∷◌, ℕ, Bool, List, Option, None, [], length};
ghost use Rattle.std.specs.Prelude.{slice_index};
ghost use Rattle.trace_laws.specs.declared.event.Event.{Event};
ghost use Rattle.trace_laws.specs.Orders.{IsLinearizable, IsOrder};
ghost use Rattle.trace_laws.specs.declared.opened.Branch.{Branch};
ghost use Rattle.trace_laws.specs.declared.opened.Config.{Config};
ghost use Rattle.trace_laws.specs.declared.opened.Node.{Node};
ghost use Rattle.trace_laws.specs.declared.opened.Open.{Open};
ghost use Rattle.trace_laws.specs.Configs.{IsIn, IsIdle, IsAsGood, HasAsGood, IsOpen, MayTake, effect, release};
ghost use Rattle.trace_laws.specs.Searches.{IsSearched, IsComplete, Picks, first_branch, order_of};

/// Before the first event a search has nothing open, and of each word the opening word alone.
pub fn searches_begin()
    ensures { (opening : List ℕ) (trace : List Event) (tables : ℕ → List (Option Open))
        (sets : ℕ → List Branch) → ((w : ℕ) → w < length opening → tables w ≡ [])
        → ((w : ℕ) → w < length opening → sets w ≡ first_branch (slice_index opening w) ∷ [])
        → IsSearched opening trace 0 tables sets [] }
{}

/// At the end, whatever branches are picked, one for each word: the operations on the ways to them,
/// in the order in which their nodes were made, explain the trace.
pub fn branches_give_an_order()
    ensures { (opening : List ℕ) (trace : List Event) (k : ℕ) (tables : ℕ → List (Option Open))
        (sets : ℕ → List Branch) (nodes : List Node)
        → IsSearched opening trace k tables sets nodes → length trace ≤ k
        → (pick : ℕ → Branch) (trails : ℕ → List ℕ) (marks : List Bool)
        → Picks (length opening) sets nodes pick trails marks
        → IsOrder opening trace (order_of nodes marks) }
{}

/// Where a word has no branch, at any event, no order explains the trace.
pub fn words_without_branches_have_no_order()
    ensures { (opening : List ℕ) (trace : List Event) (k : ℕ) (tables : ℕ → List (Option Open))
        (sets : ℕ → List Branch) (nodes : List Node)
        → IsSearched opening trace k tables sets nodes → (w : ℕ) → w < length opening
        → ((b : Branch) → IsIn (sets w) b → ⊥) → IsLinearizable opening trace → ⊥ }
{}

/// Configurations that are as good may take the place of a search's own: it misses no order still.
pub fn configurations_as_good_suffice()
    ensures { (opening : List ℕ) (trace : List Event) (k : ℕ) (tables : ℕ → List (Option Open))
        (sets others : ℕ → List Config) → IsComplete opening trace k tables sets
        → ((w : ℕ) → w < length opening → (c : Config) → IsIn (sets w) c
        → HasAsGood (tables w) w (others w) c)
        → IsComplete opening trace k tables others }
{}

/// An idle operation may take effect at once, wherever its reply fits: what it leads to is as good.
/// So a search needs no branch on it.
pub fn idle_operations_take_effect_at_once()
    ensures { (table : List (Option Open)) (word : ℕ) (c : Config) (s : ℕ) (o : Open) → s < 128
        → MayTake table word c s o → IsIdle o → IsAsGood table word (effect c s o) c }
{}

/// An operation that the trace never answers may wait: the configuration without it is as good.
pub fn unanswered_operations_may_wait()
    ensures { (table : List (Option Open)) (word : ℕ) (c : Config) (s : ℕ) (o : Open) → s < 128
        → IsOpen table word s o → o.promise ≡ None → IsAsGood table word (release c s) c }
{}
