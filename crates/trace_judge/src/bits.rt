//! Sets of slots, as the bits of a number.

ghost use Rattle.std.specs.Prelude.{◌≡◌, ◌<◌, true, false};
ghost use Rattle.std.specs.Int.{bit_at};
ghost use Rattle.trace_laws.specs.Configs.{with_bit, without_bit};

/// Whether the slot is in the set.
pub fn has(set: u128, slot: usize) -> bool
    requires { slot < 128 }
    ensures taken { result ≡ true → bit_at set slot ≡ 1 }
    ensures left { result ≡ false → bit_at set slot ≡ 0 }
{
    (set >> slot) & 1 == 1
}

/// The set with the slot.
pub fn with(set: u128, slot: usize) -> u128
    requires { slot < 128 }
    ensures { result ≡ with_bit set slot }
{
    set | (1 << slot)
}

/// The set without the slot.
pub fn without(set: u128, slot: usize) -> u128
    requires { slot < 128 }
    ensures { result ≡ without_bit set slot }
{
    set & !(1 << slot)
}
