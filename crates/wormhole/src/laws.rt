//! Laws of a wormhole network, each the contract of a function that does nothing.

ghost use Rattle.std.specs.Prelude.{◌≡◌, ◌≢◌, ℕ, Bool, true, false, Option, Some, None, List, All};
ghost use Rattle.wormhole.specs.Net.{Net, IsNet};
ghost use Rattle.wormhole.specs.State.{NetState, empty};
ghost use Rattle.wormhole.specs.Events.{NetEvent, CanHappen, CanAccept, after};
ghost use Rattle.wormhole.specs.Words.{Words};
ghost use Rattle.wormhole.specs.Routes.{Routes};
ghost use Rattle.wormhole.specs.Delivery.{whole, IsDelivered, WasSentTo, FlitIsTaken, IsRouted, HeadHasOutput, IsReached};
ghost use Rattle.wormhole.specs.Delivery.{StayWhole, Arrives, IsAccept, accept};
ghost use Rattle.wormhole.specs.Holds.{AreHolds, holds_after};
ghost use Rattle.wormhole.specs.Flits.{HoldsOfSent, HoldsOfFlits};

/// No credit is lost, flits keep their order, no two packets mix, and packets are on their routes
/// and in order: so it is in the empty network, each event keeps it, and so it is in every state
/// that events lead to.
pub fn events_keep_words_and_routes()
    ensures empty_words { (n : Net) → Words n (empty n) }
    ensures empty_routes { (n : Net) → Routes n (empty n) }
    ensures words { (n : Net) → IsNet n → (s : NetState) (e : NetEvent) → Words n s → Routes n s
        → CanHappen n s.lines e → Words n (after n s e) }
    ensures routes { (n : Net) → IsNet n → (s : NetState) (e : NetEvent) → Words n s → Routes n s
        → CanHappen n s.lines e → Routes n (after n s e) }
    ensures reached_words { (n : Net) → IsNet n → (s : NetState) → IsReached n s → Words n s }
    ensures reached_routes { (n : Net) → IsNet n → (s : NetState) → IsReached n s → Routes n s }
{}

/// Of each sender and receiver, the packets that are whole at the receiver are a beginning of those
/// that were sent: none is doubled, mixed or overtaken. And none is invented: a packet that is
/// whole was sent, to where it is.
pub fn packets_are_delivered_in_order()
    ensures kept { (n : Net) (s : NetState) → Routes n s → (i j : ℕ) → n.joins i j ≡ true
        → IsDelivered s i j }
    ensures reached { (n : Net) → IsNet n → (s : NetState) → IsReached n s
        → (i j : ℕ) → n.joins i j ≡ true → IsDelivered s i j }
    ensures sent { (n : Net) (s : NetState) → Routes n s → (x : ℕ)
        → All (WasSentTo n s x) (whole s x) }
    ensures reached_sent { (n : Net) → IsNet n → (s : NetState) → IsReached n s
        → (x : ℕ) → All (WasSentTo n s x) (whole s x) }
{}

/// No flit is refused: what a receiver is offered goes on with a packet that was sent to it.
pub fn no_flit_is_refused()
    ensures { (n : Net) → IsNet n → (s : NetState) → Words n s → Routes n s
        → (x flit : ℕ) (more : List ℕ) (bit : Bool) → CanAccept n (s.lines x) x flit more bit
        → FlitIsTaken n s x flit }
{}

/// A packet becomes whole with its tail flit, at its receiver and nowhere else, and is then the next
/// of those that its sender sent there; no other flit and no other event makes a packet whole.
pub fn packets_become_whole_in_turn()
    ensures tail { (n : Net) → IsNet n → (s : NetState) → Words n s → Routes n s
        → (x flit : ℕ) (more : List ℕ) (bit : Bool) → CanAccept n (s.lines x) x flit more bit
        → n.is_tail flit ≡ true → Arrives n s (after n s (accept bit x flit more)) x flit }
    ensures body { (n : Net) → IsNet n → (s : NetState) → Words n s → Routes n s
        → (x flit : ℕ) (more : List ℕ) (bit : Bool) → CanAccept n (s.lines x) x flit more bit
        → n.is_tail flit ≡ false → StayWhole n s (after n s (accept bit x flit more)) }
    ensures others { (n : Net) → IsNet n → (s : NetState) → Words n s → Routes n s → (e : NetEvent)
        → CanHappen n s.lines e → (IsAccept e → ⊥) → StayWhole n s (after n s e) }
{}

/// A flit in a latch has its output: a head flit the next channel of its packet's route, any other
/// the one output that its input owns.
pub fn latched_flits_have_outputs()
    ensures head { (n : Net) → IsNet n → (s : NetState) → Words n s → Routes n s → (x flit : ℕ)
        → n.ejects x ≡ false → (s.lines x).latch ≡ Some flit → n.is_head flit ≡ true
        → IsRouted n s x flit }
    ensures rest { (n : Net) (s : NetState) → Words n s → (x flit : ℕ)
        → n.ejects x ≡ false → (s.lines x).latch ≡ Some flit → n.is_head flit ≡ false
        → HeadHasOutput s x }
{}

/// Owners can be told by the inputs, each holding the output that it owns, in place of by the
/// outputs.
pub fn inputs_tell_owners()
    ensures empty { (n : Net) → AreHolds (λ x. None) (empty n).lines }
    ensures kept { (n : Net) → IsNet n → (s : NetState) (holds : ℕ → Option ℕ) (e : NetEvent)
        → Words n s → Routes n s → CanHappen n s.lines e → AreHolds holds s.lines
        → AreHolds (holds_after n holds e) (after n s e).lines }
    ensures free { (holds : ℕ → Option ℕ) (s : NetState) (y : ℕ) → AreHolds holds s.lines
        → ((x : ℕ) → holds x ≢ Some y) → (s.lines y).owner ≡ None }
{}

/// What the flits of all sent packets are, all flits are: a test that those pass is passed by each
/// flit in a channel, in a latch, at a sender and at a receiver.
pub fn flits_are_of_sent_packets()
    ensures { (n : Net) (test : ℕ → Bool) → IsNet n → (s : NetState) → Words n s → Routes n s
        → HoldsOfSent (λ flit. test flit ≡ true) s → HoldsOfFlits n (λ flit. test flit ≡ true) s }
{}
