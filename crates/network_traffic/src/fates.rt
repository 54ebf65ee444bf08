//! What becomes of packets: the round in which each is begun, and that in which it is delivered.

ghost use Rattle.std.specs.Prelude.{◌≡◌, ◌-◌, ◌<◌, ◌==◌, ◌&&◌, ℕ, length, Some, None, nat_lt};
ghost use Rattle.std.specs.Prelude.{slice_index, slice_index_or, if◌then◌else◌};
ghost use Rattle.network_rounds.specs.Counts.{one_at};
ghost use Rattle.network_traffic.specs.Fates.{names_packet};

use std::alloc::{Allocator, Global};

/// What becomes of each packet.
#[derive(Drop)]
pub struct Fates<A: Allocator = Global> {
    /// The round in which it is begun, if it is.
    pub begun: Vec<Option<u64>, A>,
    /// How many of its flits are still to come to its receiver.
    pub left: Vec<u64, A>,
    /// The round in which its receiver has all of it, if it has.
    pub delivered: Vec<Option<u64>, A>,
}

/// Notes a round at the place of a packet, if one is given.
pub(crate) fn note_round(rounds: &mut [Option<u64>], of: Option<usize>, round: u64)
    ensures size { length rounds.new ≡ length rounds.old }
    ensures value { (k : ℕ) → k < length rounds.old → slice_index_or rounds.new k None
        ≡ (if names_packet k of then Some round else slice_index_or rounds.old k None) }
{
    if let Some(k) = of {
        if k < rounds.len() {
            rounds[k] = Some(round);
        }
    }
}

/// One flit less is to come of a packet, if one is given. Answers the packet, if none is to come then.
pub(crate) fn count_down(left: &mut [u64], of: Option<usize>) -> Option<usize>
    ensures size { length left.new ≡ length left.old }
    ensures left { (k : ℕ) → k < length left.old
        → slice_index left.new k ≡ slice_index left.old k - one_at k of }
    ensures whole { (k : ℕ) → k < length left.old → names_packet k result
        ≡ (nat_lt 0 (slice_index left.old k) && slice_index left.new k == 0) }
{
    let k = of?;
    if k >= left.len() || left[k] == 0 {
        return None;
    }
    left[k] -= 1;
    if left[k] == 0 { Some(k) } else { None }
}
