//! Of equal operations that are never answered the eldest takes effect first: so many of them give as
//! many configurations and one, where sets of them would be all sets.

ghost use Rattle.std.specs.Prelude.{◌≡◌, ◌<◌, ◌≤◌, true, MatchOption, length};
ghost use Rattle.trace_laws.specs.declared.opened.Open.{Open};
ghost use Rattle.trace_laws.specs.Configs.{effect};
ghost use Rattle.trace_judge.specs.Elders.{IsElder, HasElder};
ghost use Rattle.trace_judge.specs.Sets.{TakesEffect};

use crate::adding::after;
use crate::bits::has;
use trace_laws::{Config, Open};

/// Whether an open operation is an elder of another: the same was asked before, and neither is answered.
fn is_elder(elder: Open, opened: Open) -> bool
    ensures { result ≡ true → IsElder elder opened }
{
    elder.promise.is_none()
        && opened.promise.is_none()
        && elder.call.id < opened.call.id
        && elder.call.operation == opened.call.operation
}

/// Whether an elder of an operation waits to take effect in a configuration.
fn has_elder(config: Config, table: &[Option<Open>], address: u32, opened: Open) -> bool
    requires { length table.now ≤ 128 }
    ensures { result ≡ true → HasElder table.now address config opened }
{
    if opened.promise.is_some() {
        return false;
    }
    for slot in 0..table.len() {
        if let Some(elder) = table[slot]
            && elder.call.operation.address == address
            && is_elder(elder, opened)
            && !has(config.taken, slot)
        {
            return true;
        }
    }
    false
}

/// The configuration after the operation at this place took effect, if it may, and no elder of it waits.
pub fn after_elders(
    config: Config,
    table: &[Option<Open>],
    place: Option<Open>,
    address: u32,
    slot: usize,
) -> Option<(Open, Config)>
    requires small { length table.now ≤ 128 }
    requires inside { slot < 128 }
    ensures { MatchOption result
        ((o : Open) → TakesEffect place address config slot o → HasElder table.now address config o)
        (λ r. TakesEffect place address config slot r.0 × (r.1 ≡ effect config slot r.0)) }
{
    let (opened, next) = after(config, place, address, slot)?;
    if has_elder(config, table, address, opened) {
        return None;
    }
    Some((opened, next))
}
