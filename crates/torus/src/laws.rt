//! Laws of tiles, digits, neighbours and homes, each the contract of a function that does nothing.

ghost use Rattle.std.specs.Prelude.{◌≡◌, ◌≢◌, ◌<◌, ℕ, List};
ghost use Rattle.torus.specs.Digits.{AreDigits, AreInRange};
ghost use Rattle.torus.specs.Shape.{Shape, IsAccepted, IsNeighbour, dims_of, tiles_of, home_of};
ghost use Rattle.torus.specs.declared.shape.Dir.{Dir};
ghost use Rattle.torus.specs.declared.shape.Dir.TheVariants.{Plus, Minus};

/// A tile and its list of digits determine each other: distinct tiles have distinct digits, every
/// tile's digits are in range, and every list of digits in range is a tile.
pub fn digits_name_tiles()
    ensures unique { (s : Shape) → IsAccepted s → (t u : ℕ) (digits : List ℕ) → t < tiles_of s
        → u < tiles_of s
        → AreDigits s t digits → AreDigits s u digits → t ≡ u }
    ensures in_range { (s : Shape) → IsAccepted s → (t : ℕ) (digits : List ℕ) → AreDigits s t digits
        → AreInRange s digits }
    ensures every { (s : Shape) → IsAccepted s → (digits : List ℕ) → AreInRange s digits
        → (t : ℕ) × (t < tiles_of s) × AreDigits s t digits }
{}

/// A hop leads to one tile only.
pub fn neighbours_are_unique()
    ensures { (s : Shape) → IsAccepted s → (t d u v : ℕ) (dir : Dir) → IsNeighbour s t d dir u
        → IsNeighbour s t d dir v → u ≡ v }
{}

/// A hop leads to a tile, and to another one than that which it leaves.
pub fn neighbours_are_other_tiles()
    ensures exists { (s : Shape) → IsAccepted s → (t d : ℕ) (dir : Dir) → t < tiles_of s
        → d < dims_of s → (u : ℕ) × IsNeighbour s t d dir u }
    ensures other { (s : Shape) → IsAccepted s → (t d u : ℕ) (dir : Dir) → d < dims_of s
        → IsNeighbour s t d dir u → u ≢ t }
{}

/// Plus and minus hops undo each other.
pub fn hops_are_inverse()
    ensures plus { (s : Shape) → IsAccepted s → (t d u : ℕ) → t < tiles_of s → d < dims_of s
        → IsNeighbour s t d Plus u → IsNeighbour s u d Minus t }
    ensures minus { (s : Shape) → IsAccepted s → (t d u : ℕ) → t < tiles_of s → d < dims_of s
        → IsNeighbour s t d Minus u → IsNeighbour s u d Plus t }
{}

/// The bank and the word determine the address, and each word of each bank is the home of one.
pub fn homes_name_addresses()
    ensures unique { (s : Shape) → IsAccepted s → (a b : ℕ) → home_of s a ≡ home_of s b → a ≡ b }
    ensures every { (s : Shape) → IsAccepted s → (bank word : ℕ) → bank < tiles_of s
        → (a : ℕ) × (home_of s a ≡ (bank, word)) }
{}
