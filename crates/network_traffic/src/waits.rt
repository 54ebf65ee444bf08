//! How long flits wait in latches, counted when one comes or goes and not in each round.

ghost use Rattle.std.specs.Prelude.{◌≡◌, ◌≢◌, ◌+◌, ◌-◌, ◌<◌, ◌^◌, ℕ, Bool, true, false, List, Option};
ghost use Rattle.std.specs.Prelude.{length, is_some, slice_index, slice_index_or, None};
ghost use Rattle.network_traffic.specs.Waits.{CountsWait, CountWaits};

use crate::labels::packet_at;

/// How long flits have waited in a latch.
#[derive(Clone, Copy)]
pub struct Wait {
    /// The round in which the flit came that stands there, or that stood there last. One that comes in
    /// the round in which another goes, which stood there when it began, goes on with its wait.
    pub since: u64,
    /// The round in which a flit went last.
    pub left: u64,
    /// How many rounds flits have waited there that are gone.
    pub waited: u64,
}

/// How many rounds there are between two.
fn rounds_between(since: u64, round: u64) -> u64
    ensures { result ≡ round - since - 1 }
{
    round.saturating_sub(since).saturating_sub(1)
}

impl Wait {
    /// A flit comes in a round.
    fn come(self, round: u64) -> Wait
        ensures { (waited : ℕ) (stood : Bool) → CountsWait waited round stood false self
            → CountsWait waited round stood true result }
    {
        if self.left == round && self.since < round {
            let again = rounds_between(self.since, round);
            return Wait {
                waited: self.waited.saturating_sub(again),
                ..self
            };
        }
        Wait {
            since: round,
            ..self
        }
    }

    /// The flit goes in a round.
    fn gone(self, round: u64) -> Wait
        ensures { (waited : ℕ) (stood : Bool) → waited < 2 ^ 64
            → CountsWait waited round stood true self → CountsWait waited round stood false result }
    {
        let more = rounds_between(self.since, round);
        Wait {
            left: round,
            waited: self.waited.saturating_add(more),
            ..self
        }
    }

    /// What a move of a round leaves: before it a flit stood there or not, and now one stands there or
    /// not.
    fn noted(self, round: u64, was: bool, is: bool) -> Wait
        ensures { (waited : ℕ) (stood : Bool) → waited < 2 ^ 64
            → CountsWait waited round stood was self → CountsWait waited round stood is result }
    {
        if was == is {
            return self;
        }
        if is {
            self.come(round)
        } else {
            self.gone(round)
        }
    }

    /// How many rounds flits have waited there behind so many rounds.
    fn total(self, rounds: u64, is_full: bool) -> u64
        ensures { (waited : ℕ) → waited < 2 ^ 64
            → CountsWait waited (rounds + 1) is_full is_full self → result ≡ waited }
    {
        if is_full {
            self.waited
                .saturating_add(rounds.saturating_sub(self.since))
        } else {
            self.waited
        }
    }
}

/// Notes whether a flit stood in the latch behind a channel before a move of a round, and whether one
/// stands there now.
pub(crate) fn note_latch(waits: &mut [Wait], x: usize, round: u64, was: bool, is: bool)
    ensures size { length waits.new ≡ length waits.old }
    ensures counts { (waited : ℕ → ℕ) (stood : ℕ → Bool) (old new : List (Option ℕ))
        → waited x < 2 ^ 64
        → was ≡ is_some (slice_index_or old x None) → is ≡ is_some (slice_index_or new x None)
        → ((z : ℕ) → z ≢ x → slice_index_or new z None ≡ slice_index_or old z None)
        → CountWaits waited round stood old waits.old
        → CountWaits waited round stood new waits.new }
{
    if x < waits.len() {
        waits[x] = waits[x].noted(round, was, is);
    }
}

/// Writes how many rounds flits have waited in each latch behind so many rounds.
pub(crate) fn total_waits(
    waits: &[Wait],
    latches: &[Option<usize>],
    rounds: u64,
    waited: &mut [u64],
)
    requires { length waited.old ≡ length waits.now }
    ensures size { length waited.new ≡ length waited.old }
    ensures total { (counts : ℕ → ℕ) → ((x : ℕ) → counts x < 2 ^ 64)
        → CountWaits counts (rounds + 1) (λ x. is_some (slice_index_or latches.now x None))
        latches.now waits.now
        → (x : ℕ) → x < length waits.now → slice_index waited.new x ≡ counts x }
{
    for x in 0..waits.len() {
        let is_full = packet_at(latches, x).is_some();
        waited[x] = waits[x].total(rounds, is_full);
    }
}
