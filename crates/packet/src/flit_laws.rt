//! Laws of the spelling of packets, each the contract of a function that does nothing.

ghost use Rattle.std.specs.Prelude.{◌≡◌, ◌↔◌, ℕ, ◌+◌, ◌*◌, ◌^◌, ◌<◌, ◌≤◌, List, [], ◌∷◌, ◌++◌, length, All};
ghost use Rattle.packet.specs.Flit.{field};
ghost use Rattle.packet.specs.Spelling.{Spells, IsSpellable, IsTailShaped, TellsPacket, class_of, values_of};
ghost use Rattle.packet.specs.Flits.{flits_of};
ghost use Rattle.packet.specs.Written.{IsOfWords};
ghost use Rattle.packet.specs.declared.kinds.Packet.{Packet};
ghost use Rattle.torus.specs.declared.shape.Class.TheVariants.{Reply};

/// A packet that can be spelled is spelled by one list, a packet that is spelled can be, and a list
/// spells at most one packet.
pub fn one_spelling_each()
    ensures one_list { (p : Packet) (flits : List ℕ) → IsSpellable p → IsOfWords p
        → Spells p flits ↔ (flits ≡ flits_of p) }
    ensures spellable { (p : Packet) (flits : List ℕ) → Spells p flits → IsSpellable p }
    ensures of_words { (p : Packet) (flits : List ℕ) → Spells p flits → IsOfWords p }
    ensures one_packet { (p q : Packet) (flits : List ℕ) → Spells p flits → Spells q flits → p ≡ q }
{}

/// No spelling properly begins another.
pub fn no_spelling_begins_another()
    ensures { (p q : Packet) (flits more : List ℕ) → Spells p flits → Spells q (flits ++ more)
        → more ≡ [] }
{}

/// The first flit has the head bit, tells where the packet goes and its class, and has the tail bit
/// exactly if it is alone. No other flit has the head bit, and of them the last alone has the tail
/// bit.
pub fn head_and_tail()
    ensures head { (p : Packet) (head : ℕ) (rest : List ℕ) → Spells p (head ∷ rest)
        → TellsPacket p head }
    ensures alone { (p : Packet) (head : ℕ) (rest : List ℕ) → Spells p (head ∷ rest)
        → (field head 62 1 ≡ 1) ↔ (rest ≡ []) }
    ensures rest { (p : Packet) (head : ℕ) (rest : List ℕ) → Spells p (head ∷ rest)
        → IsTailShaped rest }
{}

/// A packet has a head flit and two flits for each of its values: at most 5 flits, and a reply at
/// most 3.
pub fn spelling_lengths()
    ensures length { (p : Packet) (flits : List ℕ) → Spells p flits
        → length flits ≡ 1 + 2 * length (values_of p) }
    ensures most { (p : Packet) (flits : List ℕ) → Spells p flits → length flits ≤ 5 }
    ensures reply { (p : Packet) (flits : List ℕ) → Spells p flits → class_of p ≡ Reply
        → length flits ≤ 3 }
{}

/// No flit is 0, and each is a word of 64 bits.
pub fn no_flit_is_zero()
    ensures some { (p : Packet) (flits : List ℕ) → Spells p flits → All (λ flit. 0 < flit) flits }
    ensures words { (p : Packet) (flits : List ℕ) → Spells p flits
        → All (λ flit. flit < 2 ^ 64) flits }
{}
