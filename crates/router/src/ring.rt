//! Places of a ring, in bytes.

ghost use Rattle.std.specs.Prelude.{◌≡◌, ◌<◌, ◌≤◌, ◌+◌, ◌%◌};

/// The place that is so many after a place of a ring, at most once around.
#[inline(always)]
pub(crate) fn place_after(place: u8, count: u8, depth: u8) -> u8
    requires place { place < depth }
    requires count { count ≤ depth }
    requires small { depth ≤ 8 }
    ensures value { result ≡ (place + count) % depth }
    ensures within { result < depth }
{
    let sum = place + count;
    if sum < depth { sum } else { sum - depth }
}
