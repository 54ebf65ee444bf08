//! Laws of networks that are judged to be rising, each the contract of a function that does
//! nothing.

ghost use Rattle.std.specs.Prelude.{◌≡◌, ℕ, ◌≤◌, ◌<◌, Bool, true, List, All, length, slice_index};
ghost use Rattle.wormhole.specs.Net.{Parcel};
ghost use Rattle.wormhole.specs.State.{NetState};
ghost use Rattle.wormhole.specs.Delivery.{whole, WasSentTo};
ghost use Rattle.wormhole.specs.Ends.{IsQuiet};
ghost use Rattle.network_judge.specs.declared.table.Reply.{Reply};
ghost use Rattle.network_judge.specs.Replies.{AreReplies};
ghost use Rattle.network_judge.specs.TableNet.{Flits};
ghost use Rattle.network_adaptive.specs.Flow.{IsReachable};
ghost use Rattle.network_adaptive.specs.Progress.{GoesByEscapes, MoveByEscapes};
ghost use Rattle.network_adaptive.specs.Arrivals.{sum_of_packets};
ghost use Rattle.network_adaptive.specs.Choices.{AdaptiveNet, Comes, ExtendedDependency};
ghost use Rattle.network_adaptive.specs.Verdicts.{IsDependencyCycle};
ghost use Rattle.network_adaptive.specs.Work.{AreNearer};
ghost use Rattle.network_adaptive.specs.Travel.{CanGoRound};
ghost use Rattle.network_adaptive.specs.declared.verdict.Verdict.{Verdict};
ghost use Rattle.network_adaptive.specs.declared.verdict.Verdict.TheVariants.{Rising};
ghost use Rattle.network_adaptive.specs.Choosing.{ChoiceTable, table, network, IsShaped};
ghost use Rattle.network_adaptive.specs.Judged.{answers_of, IsAdaptiveVerdict};
ghost use Rattle.network_adaptive.specs.declared.verdict.Dependency.{Dependency};
ghost use Rattle.network_adaptive.specs.Between.{WaitsOver, IsCycleBy, dependency_at};

use std::alloc::Allocator;

/// A network that is judged to be rising never deadlocks: a channel that isn't quiet gives a move,
/// and where nothing can move, all packets that were sent have come whole. And always what is
/// whole was sent to where it is, and no more often.
pub fn rising_networks_never_lock_up<A: Allocator>()
    ensures moving { (t : ChoiceTable) (replies : List Reply) → IsShaped t
        → AreReplies (table t) replies
        → (v : Verdict A) (numbers : _) (travel : _) → v ≡ Rising numbers travel → IsAdaptiveVerdict t replies v
        → (depth : ℕ) (flits : Flits) → 0 < depth
        → (s : NetState) → IsReachable (network t depth flits) s
        → (x : ℕ) → x < length t.kinds → (IsQuiet (network t depth flits).frame s x → ⊥)
        → MoveByEscapes (network t depth flits) s (answers_of replies) }
    ensures delivered { (t : ChoiceTable) (replies : List Reply) → IsShaped t
        → AreReplies (table t) replies
        → (v : Verdict A) (numbers : _) (travel : _) → v ≡ Rising numbers travel → IsAdaptiveVerdict t replies v
        → (depth : ℕ) (flits : Flits) → 0 < depth
        → (s : NetState) → IsReachable (network t depth flits) s
        → GoesByEscapes (network t depth flits) s (answers_of replies) ⊥
        → (f : Parcel → ℕ) → sum_of_packets (network t depth flits) f (whole s)
        ≡ sum_of_packets (network t depth flits) f (λ x. (s.notes x).sent) }
    ensures sent { (t : ChoiceTable) → IsShaped t → (depth : ℕ) (flits : Flits)
        → (s : NetState) → IsReachable (network t depth flits) s
        → (x : ℕ) → All (WasSentTo (network t depth flits).frame s x) (whole s x) }
    ensures once { (t : ChoiceTable) → IsShaped t → (depth : ℕ) (flits : Flits)
        → (s : NetState) → IsReachable (network t depth flits) s
        → (f : Parcel → ℕ) → sum_of_packets (network t depth flits) f (whole s)
        ≤ sum_of_packets (network t depth flits) f (λ x. (s.notes x).sent) }
{}

/// Where packets can go round, no distances fall with each choice: so a verdict tells either that the
/// work is bounded or that packets can go round, and never both.
pub fn rounds_have_no_distances()
    ensures { (n : AdaptiveNet) (j x : ℕ) → CanGoRound n j x
        → (far : ℕ → ℕ → ℕ) → AreNearer n far → ⊥ }
{}

/// A cycle that is told with its ways is one of extended dependencies: where a packet holds a channel and
/// goes on over channels that are no escapes to where it waits for another, there is such a dependency.
pub fn ways_are_dependencies<A: Allocator>()
    ensures each { (n : AdaptiveNet) (x j y : ℕ) (over : List ℕ) → n.marked x ≡ true → Comes n j x
        → WaitsOver n j x over y → ExtendedDependency n x j y }
    ensures cycle { (n : AdaptiveNet) (answers : ℕ → ℕ → Bool) (edges : List (Dependency A))
        → IsCycleBy n answers edges
        → IsDependencyCycle n answers (length edges) (λ k. (dependency_at edges k).channel) }
{}
