//! Where the flit in a latch goes.

ghost use Rattle.std.specs.Prelude.{◌≡◌, ◌≢◌, ◌<◌, ℕ, true, false, length, Some};
ghost use Rattle.std.specs.Prelude.{IfSome, IfNone, IfOk, IfErr};
ghost use Rattle.network_machine.specs.declared.moves.Move.TheVariants.{Put};
ghost use Rattle.network_judge.specs.Table.{channels_of};
ghost use Rattle.network_machine.specs.Machine.{Prevents};
ghost use Rattle.network_machine.specs.Outputs.{IsOwnedBy, IsOutputOf, HasNoOutput, IsLatched};
ghost use Rattle.network_machine.specs.Outputs.{IsWayOut};
ghost use Rattle.network_machine.specs.Owned.{OwnsWithin};

use crate::channel::Channel;
use crate::flit::{is_head, told};
use crate::machine::Machine;
use crate::moves::Hindrance;
use crate::owned::Owned;
use network_judge::walk::is_receiver;
use std::alloc::Allocator;

/// Whether channel y is another one than x, which owns it, and has a credit.
fn is_owned_by(channel: &Channel, x: usize, y: usize) -> bool
    ensures yes { result ≡ true
        → (x ≢ y) × (channel.now.owner ≡ Some x) × (0 < channel.now.held) }
    ensures no { result ≡ false → x ≢ y → channel.now.owner ≡ Some x → 0 < channel.now.held → ⊥ }
{
    x != y && channel.owner == Some(x) && channel.held > 0
}

/// A channel that channel x owns, with a credit, looked for among all channels.
fn owned_among(channels: &[Channel], x: usize) -> Option<usize>
    ensures some { IfSome result (IsOwnedBy channels.now x) }
    ensures none { IfNone result ((y : ℕ) → IsOwnedBy channels.now x y → ⊥) }
{
    for y in 0..channels.len() {
        if is_owned_by(&channels[y], x, y) {
            return Some(y);
        }
    }
    None
}

/// Channel y, if channel x owns it and it has a credit.
fn owned_at(channels: &[Channel], x: usize, y: usize) -> Option<usize>
    ensures some { IfSome result (IsOwnedBy channels.now x) }
    ensures none { IfNone result (IsOwnedBy channels.now x y → ⊥) }
{
    if y >= channels.len() {
        return None;
    }
    if is_owned_by(&channels[y], x, y) {
        return Some(y);
    }
    None
}

/// A channel that channel x owns, with a credit, where so much is known of those that it owns.
fn owned_by(channels: &[Channel], known: Owned, x: usize) -> Option<usize>
    requires { OwnsWithin known channels.now x }
    ensures some { IfSome result (IsOwnedBy channels.now x) }
    ensures none { IfNone result ((y : ℕ) → IsOwnedBy channels.now x y → ⊥) }
{
    match known {
        Owned::Nothing => None,
        Owned::Only(y) => owned_at(channels, x, y),
        Owned::Any => owned_among(channels, x),
    }
}

impl<'a, A: Allocator> Machine<'a, A> {
    /// The output of a flit behind channel x.
    fn output(&self, x: usize, flit: u64) -> Option<usize>
        requires { x < length self.now.channels }
        ensures some { IfSome result (IsOutputOf self.now.table self.now.channels x flit) }
        ensures none { IfNone result (HasNoOutput self.now.table self.now.channels x flit) }
        ensures size { length self.now.channels ≡ channels_of self.now.table }
    {
        if !is_head(flit) {
            return owned_by(&self.channels, self.owned[x], x);
        }
        match self.choice(x, told(flit)) {
            None => None,
            Some(y) => {
                if y >= self.channels.len() || y == x {
                    return None;
                }
                Some(y)
            }
        }
    }

    /// The flit in the latch behind channel x, or why a router can't put it.
    fn latched(&self, x: usize) -> Result<u64, Hindrance>
        requires { x < length self.now.channels }
        ensures some { IfOk result (IsLatched self.now.table self.now.channels x) }
        ensures none { IfErr result (λ h. Prevents self.now (Put x)) }
    {
        if is_receiver(self.kind(x)) {
            return Err(Hindrance::Ejection(x));
        }
        match self.channels[x].latch {
            None => Err(Hindrance::LatchEmpty(x)),
            Some(flit) => Ok(flit),
        }
    }

    /// The flit in the latch behind channel x and its output, or why there is none.
    pub(crate) fn way_out(&self, x: usize) -> Result<(u64, usize), Hindrance>
        requires { x < length self.now.channels }
        ensures some { IfOk result (λ p. IsWayOut self.now.table self.now.channels x p.0 p.1) }
        ensures none { IfErr result (λ h. Prevents self.now (Put x)) }
    {
        match self.latched(x) {
            Err(hindrance) => Err(hindrance),
            Ok(flit) => match self.output(x, flit) {
                None => Err(Hindrance::NoOutput(x)),
                Some(y) => Ok((flit, y)),
            },
        }
    }
}
