//! Whether branches are more than are looked at.

ghost use Rattle.std.specs.Prelude.{◌≡◌, true, IfOk};
ghost use Rattle.trace_judge.specs.Crowds.{AreDistinct, IsCrowd};

use std::alloc::{AllocError, Allocator};
use std::collections::HashSet;
use trace_laws::{Branch, Config};

/// The slots of the operations that have taken effect.
fn taken_of(config: Config) -> u128
    ensures { result ≡ config.taken }
{
    config.taken
}

/// Whether no two branches have the same configuration.
fn are_distinct<A: Allocator + Copy>(alloc: A, branches: &[Branch]) -> Result<bool, AllocError>
    ensures { IfOk result (λ b. b ≡ true → AreDistinct branches.now) }
{
    let mut seen = HashSet::new(alloc);
    for i in 0..branches.len() {
        let config = branches[i].config;
        let taken = taken_of(config);
        if !seen.insert((config.word, taken))? {
            return Ok(false);
        }
    }
    Ok(true)
}

/// Whether there are more than so many branches, no two of them with the same configuration.
pub fn is_crowd<A: Allocator + Copy>(
    alloc: A,
    branches: &[Branch],
    bound: usize,
) -> Result<bool, AllocError>
    ensures { IfOk result (λ b. b ≡ true → IsCrowd bound branches.now) }
{
    if branches.len() <= bound {
        return Ok(false);
    }
    are_distinct(alloc, branches)
}
