//! How many there are of each number.

ghost use Rattle.std.specs.Prelude.{◌≡◌, ◌+◌, ◌<◌, ◌==◌, ◌^◌, ℕ, IfOk, OnOk};
ghost use Rattle.std.specs.Prelude.{if◌then◌else◌};
ghost use Rattle.trace_table.specs.Counts.{count_in};

use std::alloc::{AllocError, Allocator};
use std::collections::BTreeMap;

/// Counts one more of a number, as a processor or an address, and answers how many came before it.
///
/// Errors: memory.
pub fn counted<A: Allocator + Copy>(
    counts: &mut BTreeMap<u32, u64, A>,
    number: u32,
) -> Result<u64, AllocError>
    requires { count_in counts.old.entries number < 2 ^ 63 }
    ensures count { IfOk result (λ count. count ≡ count_in counts.old.entries number) }
    ensures more { OnOk result ((n : ℕ) → count_in counts.new.entries n
        ≡ count_in counts.old.entries n + (if number == n then 1 else 0)) }
{
    let count = counts.get(&number).copied().unwrap_or(0);
    match counts.insert(number, count + 1) {
        Ok(_) => Ok(count),
        Err(_) => Err(AllocError),
    }
}
