//! What the moves of a round come to, by channels. Counts are exact up to 2^64 - 1, and stay there.

ghost use Rattle.std.specs.Prelude.{◌≡◌, ◌≢◌, ◌+◌, ◌<◌, ◌^◌, ℕ, length, slice_index, Some};
ghost use Rattle.network_rounds.specs.Counts.{channel_left, begun_by, one_at, flits_gone};
ghost use Rattle.network_rounds.specs.Counts.{packets_begun};

use network_machine::Move;

/// Counts one more at a place.
fn count_at(counts: &mut [u64], x: usize)
    requires { x < length counts.old }
    ensures here { slice_index counts.old x + 1 < 2 ^ 64
        → slice_index counts.new x ≡ slice_index counts.old x + 1 }
    ensures others { (z : ℕ) → z ≢ x → slice_index counts.new z ≡ slice_index counts.old z }
{
    counts[x] = counts[x].saturating_add(1);
}

/// Counts one more at a place, if it is there.
fn count_one(counts: &mut [u64], x: usize)
    ensures { (z : ℕ) → z < length counts.old
        → slice_index counts.old z + one_at z (Some x) < 2 ^ 64
        → slice_index counts.new z ≡ slice_index counts.old z + one_at z (Some x) }
{
    if x < counts.len() {
        count_at(counts, x);
    }
}

/// Adds what a move comes to.
fn count_move(begun: &mut [u64], flits: &mut [u64], of: Move)
    ensures begun { (x : ℕ) → x < length begun.old
        → slice_index begun.old x + one_at x (begun_by of) < 2 ^ 64
        → slice_index begun.new x ≡ slice_index begun.old x + one_at x (begun_by of) }
    ensures flits { (x : ℕ) → x < length flits.old
        → slice_index flits.old x + one_at x (channel_left of) < 2 ^ 64
        → slice_index flits.new x ≡ slice_index flits.old x + one_at x (channel_left of) }
{
    match of {
        Move::Send(packet) => count_one(begun, packet.from),
        Move::More(_) => {}
        Move::Take(x) => count_one(flits, x),
        Move::Put(_) => {}
        Move::Accept(x) => count_one(flits, x),
        Move::Credit(_) => {}
    }
}

/// Adds to the counts how many packets each sender begins and how many flits leave each channel by some
/// moves.
pub fn count_moves(begun: &mut [u64], flits: &mut [u64], moves: &[Move])
    ensures begun { (x : ℕ) → x < length begun.old
        → slice_index begun.old x + packets_begun x moves.now < 2 ^ 64
        → slice_index begun.new x ≡ slice_index begun.old x + packets_begun x moves.now }
    ensures flits { (x : ℕ) → x < length flits.old
        → slice_index flits.old x + flits_gone x moves.now < 2 ^ 64
        → slice_index flits.new x ≡ slice_index flits.old x + flits_gone x moves.now }
{
    for k in 0..moves.len() {
        count_move(begun, flits, moves[k]);
    }
}
