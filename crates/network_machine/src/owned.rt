//! The channels that an input owns, as far as is known, so that none is looked for among all channels.

ghost use Rattle.std.specs.Prelude.{◌≡◌, ◌≢◌, ℕ, false};
ghost use Rattle.network_machine.specs.Owned.{MayOwn};

/// The channels that an input owns, as far as is known.
#[derive(Clone, Copy)]
pub enum Owned {
    /// None.
    Nothing,
    /// None but this one.
    Only(usize),
    /// Any.
    Any,
}

/// What is known once the input has put a flit that isn't the last of its packet into channel y.
fn owned_with(owned: Owned, y: usize) -> Owned
    ensures others { (z : ℕ) → MayOwn owned z → MayOwn result z }
    ensures here { MayOwn result y }
{
    match owned {
        Owned::Nothing => Owned::Only(y),
        Owned::Only(z) => { if z == y { Owned::Only(z) } else { Owned::Any } }
        Owned::Any => Owned::Any,
    }
}

/// What is known once it has put the last one.
fn owned_without(owned: Owned, y: usize) -> Owned
    ensures { (z : ℕ) → MayOwn owned z → z ≢ y → MayOwn result z }
{
    match owned {
        Owned::Nothing => Owned::Nothing,
        Owned::Only(z) => {
            if z == y {
                Owned::Nothing
            } else {
                Owned::Only(z)
            }
        }
        Owned::Any => Owned::Any,
    }
}

/// What is known once the input has put a flit into channel y, which it owns then unless the flit
/// `is_tail`.
pub(crate) fn owned_after(owned: Owned, y: usize, is_tail: bool) -> Owned
    ensures others { (z : ℕ) → MayOwn owned z → z ≢ y → MayOwn result z }
    ensures here { is_tail ≡ false → MayOwn result y }
{
    if is_tail {
        owned_without(owned, y)
    } else {
        owned_with(owned, y)
    }
}
