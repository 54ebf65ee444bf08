//! Laws of adaptive networks: they never deadlock, packets come whole and once, work is bounded.

ghost use Rattle.std.specs.Prelude.{◌≡◌, ◌⊎◌, ℕ, ◌+◌, ◌<◌, ◌≤◌, Bool, true, false, List, length};
ghost use Rattle.std.specs.Prelude.{sum_by, All};
ghost use Rattle.wormhole.specs.State.{NetLine, NetState, empty};
ghost use Rattle.wormhole.specs.Events as one_choice;
ghost use Rattle.wormhole.specs.Events.{NetEvent, after, after_all, CanAccept};
ghost use Rattle.wormhole.specs.Net.{Net, IsNet, Parcel};
ghost use Rattle.wormhole.specs.Delivery.{whole, WasSentTo, FlitIsTaken, StayWhole, accept};
ghost use Rattle.wormhole.specs.Words.{Words};
ghost use Rattle.wormhole.specs.Ends.{IsQuiet};
ghost use Rattle.network_adaptive.specs.Choices.{AdaptiveNet, IsAdaptiveNet, HasEscapes};
ghost use Rattle.network_adaptive.specs.Choices.{ExtendedDependency, AreReplyEnds, AreRising};
ghost use Rattle.network_adaptive.specs.Deterministic.{deterministic};
ghost use Rattle.network_adaptive.specs.Flow.{CanOccur, CanAllOccur, IsReachable};
ghost use Rattle.network_adaptive.specs.Tracks.{HasTracks};
ghost use Rattle.network_adaptive.specs.Arrivals.{sum_of_packets, AreSent, BecomesWhole};
ghost use Rattle.network_adaptive.specs.Work.{AreNearer, adaptive_weight, adaptive_promised};
ghost use Rattle.network_adaptive.specs.Progress.{GoesByEscapes, MoveByEscapes};

/// No credit is lost, flits keep their order, no two packets mix, and packets came by choices: so
/// it is in the empty network, each event keeps it, and so it is in every state that events lead
/// to.
pub fn events_keep_words_and_tracks()
    ensures empty_words { (n : AdaptiveNet) → Words n.frame (empty n.frame) }
    ensures empty_tracks { (n : AdaptiveNet) → HasTracks n (empty n.frame) }
    ensures words { (n : AdaptiveNet) → IsAdaptiveNet n → (s : NetState) (e : NetEvent)
        → Words n.frame s → HasTracks n s → CanOccur n s.lines e
        → Words n.frame (after n.frame s e) }
    ensures tracks { (n : AdaptiveNet) → IsAdaptiveNet n → (s : NetState) (e : NetEvent)
        → Words n.frame s → HasTracks n s → CanOccur n s.lines e
        → HasTracks n (after n.frame s e) }
    ensures reached_words { (n : AdaptiveNet) → IsAdaptiveNet n → (s : NetState) → IsReachable n s
        → Words n.frame s }
    ensures reached_tracks { (n : AdaptiveNet) → IsAdaptiveNet n → (s : NetState) → IsReachable n s
        → HasTracks n s }
{}

/// With an escape for each packet wherever it comes, and numbers that rise over each extended
/// dependency and over each answer, the network never deadlocks: in every state that events lead
/// to something can move, or all channels are quiet. Whatever follows from each possible move
/// holds, or no flit stands anywhere; a channel that isn't quiet gives a move. Of choices that
/// are no escapes nothing is asked.
pub fn goes_or_quiet()
    ensures either { (n : AdaptiveNet) → IsAdaptiveNet n → HasEscapes n → (answers : ℕ → ℕ → Bool)
        → AreReplyEnds n answers → (number : ℕ → ℕ) → AreRising n answers number
        → 0 < n.frame.depth → (s : NetState) → Words n.frame s → HasTracks n s
        → (goes : Bool) → GoesByEscapes n s answers (goes ≡ true)
        → (goes ≡ true) ⊎ ((x : ℕ) → x < n.frame.channels → IsQuiet n.frame s x) }
    ensures moving { (n : AdaptiveNet) → IsAdaptiveNet n → HasEscapes n → (answers : ℕ → ℕ → Bool)
        → AreReplyEnds n answers → (number : ℕ → ℕ) → AreRising n answers number
        → 0 < n.frame.depth → (s : NetState) → IsReachable n s
        → (x : ℕ) → x < n.frame.channels → (IsQuiet n.frame s x → ⊥) → MoveByEscapes n s answers }
    ensures quiet { (n : AdaptiveNet) → IsAdaptiveNet n → HasEscapes n → (answers : ℕ → ℕ → Bool)
        → AreReplyEnds n answers → (number : ℕ → ℕ) → AreRising n answers number
        → 0 < n.frame.depth → (s : NetState) → IsReachable n s → GoesByEscapes n s answers ⊥
        → (x : ℕ) → x < n.frame.channels → IsQuiet n.frame s x }
{}

/// Packets come whole, once and where they go, and none is invented. In every state that events
/// lead to, a packet that is whole was sent to where it is, and none is whole more often than it
/// was sent; and over a quiet network all that were sent are whole. Order isn't kept.
pub fn packets_are_delivered()
    ensures reached { (n : AdaptiveNet) → IsAdaptiveNet n → (s : NetState) → IsReachable n s
        → AreSent n s }
    ensures sent { (n : AdaptiveNet) → IsAdaptiveNet n → (s : NetState) → IsReachable n s
        → (x : ℕ) → All (WasSentTo n.frame s x) (whole s x) }
    ensures once { (n : AdaptiveNet) → IsAdaptiveNet n → (s : NetState) → IsReachable n s
        → (f : Parcel → ℕ)
        → sum_of_packets n f (whole s) ≤ sum_of_packets n f (λ x. (s.notes x).sent) }
    ensures come { (n : AdaptiveNet) → IsAdaptiveNet n → (s : NetState) → IsReachable n s
        → ((x : ℕ) → x < n.frame.channels → IsQuiet n.frame s x)
        → (f : Parcel → ℕ)
        → sum_of_packets n f (whole s) ≡ sum_of_packets n f (λ x. (s.notes x).sent) }
{}

/// Flits of a packet don't mix with others: what a receiver is offered goes on with a packet that
/// was sent to it; with the tail flit that packet is whole, and with any other flit none is.
pub fn packets_become_whole_with_their_tails()
    ensures taken { (n : AdaptiveNet) → IsAdaptiveNet n → (s : NetState) → IsReachable n s
        → (x flit : ℕ) (more : List ℕ) (bit : Bool) → CanAccept n.frame (s.lines x) x flit more bit
        → FlitIsTaken n.frame s x flit }
    ensures tail { (n : AdaptiveNet) → IsAdaptiveNet n → (s : NetState) → IsReachable n s
        → (x flit : ℕ) (more : List ℕ) (bit : Bool) → CanAccept n.frame (s.lines x) x flit more bit
        → n.frame.is_tail flit ≡ true
        → BecomesWhole n s (after n.frame s (accept bit x flit more)) x flit }
    ensures body { (n : AdaptiveNet) → IsAdaptiveNet n → (s : NetState) → IsReachable n s
        → (x flit : ℕ) (more : List ℕ) (bit : Bool) → CanAccept n.frame (s.lines x) x flit more bit
        → n.frame.is_tail flit ≡ false
        → StayWhole n.frame s (after n.frame s (accept bit x flit more)) }
{}

/// Bounded work, where each choice brings packets nearer: each event makes one of the moves that
/// are owed, so that all together are no more than packets promise when they are sent.
pub fn work_is_bounded()
    ensures each { (n : AdaptiveNet) → IsAdaptiveNet n → (far : ℕ → ℕ → ℕ) → AreNearer n far
        → (s : NetState) → Words n.frame s → HasTracks n s → (e : NetEvent) → CanOccur n s.lines e
        → adaptive_weight n far (after n.frame s e) + 1
        ≤ adaptive_weight n far s + adaptive_promised far e }
    ensures all { (n : AdaptiveNet) → IsAdaptiveNet n → (far : ℕ → ℕ → ℕ) → AreNearer n far
        → (es : List NetEvent) → CanAllOccur n (empty n.frame) es
        → adaptive_weight n far (after_all n.frame (empty n.frame) es) + length es
        ≤ sum_by (adaptive_promised far) es }
{}

/// A network whose routers have one choice each is one whose routers choose: the same events may
/// happen in it, it has escapes everywhere, and where its numbers rise along routes they rise
/// over each extended dependency.
pub fn deterministic_networks_are_adaptive()
    ensures shape { (m : Net) → IsNet m → IsAdaptiveNet (deterministic m) }
    ensures escapes { (m : Net) → IsNet m → HasEscapes (deterministic m) }
    ensures rising { (m : Net) → IsNet m → (x j y : ℕ) → ExtendedDependency (deterministic m) x j y
        → m.number x < m.number y }
    ensures events { (m : Net) (ls : ℕ → NetLine) (e : NetEvent)
        → one_choice.CanHappen m ls e → CanOccur (deterministic m) ls e }
    ensures events_too { (m : Net) (ls : ℕ → NetLine) (e : NetEvent)
        → CanOccur (deterministic m) ls e → one_choice.CanHappen m ls e }
{}
