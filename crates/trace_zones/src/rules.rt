//! What an operation may do to a set of words, as far as its reply tells.

ghost use Rattle.std.specs.Prelude.{◌≡◌, ◌≤◌, ◌<◌, ℕ, true, false, MatchOption, length};
ghost use Rattle.std.specs.List.Sorted.{IsNonDecreasing};
ghost use Rattle.packet.specs.Memory.{new_word};
ghost use Rattle.trace_zones.specs.Told.{FitsTold};
ghost use Rattle.trace_zones.specs.Zones.{is_listed};

use crate::told::Told;
use packet::{Op, Reply, apply};

/// Whether values rise, or stay.
pub(crate) fn rises(set: &[u64]) -> bool
    ensures { result ≡ true → IsNonDecreasing set.now }
{
    set.is_sorted()
}

/// Whether a value is one of these, which rise.
pub(crate) fn has(set: &[u64], value: u64) -> bool
    requires { IsNonDecreasing set.now }
    ensures { result ≡ is_listed set.now value }
{
    match set.binary_search(&value) {
        Ok(_place) => true,
        Err(_place) => false,
    }
}

/// The word that the operation found, if that is told.
pub(crate) fn found(op: Op, told: Option<Told>) -> Option<u64>
    ensures { MatchOption result (Unit {0}) (λ v. (u : ℕ) → FitsTold op told u → u ≡ v) }
{
    match told {
        Some(known) => match known.reply {
            Reply::Old(word) => Some(word),
            Reply::Ok => None,
        },
        None => None,
    }
}

/// The word that an operation leaves which found this one.
pub(crate) fn left(op: Op, word: u64) -> u64
    ensures { result ≡ new_word op word }
{
    let (new, _) = apply(op, word);
    new
}

/// Whether an operation may find a word outside a set and leave one of it, where no reply is known.
fn enters_blindly(set: &[u64], op: Op) -> bool
    requires { IsNonDecreasing set.now }
    ensures { result ≡ false → (u : ℕ) → is_listed set.now u ≡ false
        → is_listed set.now (new_word op u) ≡ true → ⊥ }
{
    match op {
        Op::Load => false,
        Op::Store(value) => has(set, value),
        Op::Swap(value) => has(set, value),
        Op::Cas(expected, new) => has(set, new) && !has(set, expected),
        _ => true,
    }
}

/// Whether an operation may find a word outside a set and leave one of it.
pub(crate) fn may_enter(set: &[u64], op: Op, told: Option<Told>) -> bool
    requires { IsNonDecreasing set.now }
    ensures { result ≡ false → (u : ℕ) → FitsTold op told u → is_listed set.now u ≡ false
        → is_listed set.now (new_word op u) ≡ true → ⊥ }
{
    match found(op, told) {
        Some(word) => !has(set, word) && has(set, left(op, word)),
        None => enters_blindly(set, op),
    }
}

/// Whether an operation surely found a word of a set.
pub(crate) fn finds(set: &[u64], op: Op, told: Option<Told>) -> bool
    requires { IsNonDecreasing set.now }
    ensures { result ≡ true → (u : ℕ) → FitsTold op told u → is_listed set.now u ≡ true }
{
    match found(op, told) {
        Some(word) => has(set, word),
        None => false,
    }
}

/// The word that an operation surely left.
pub(crate) fn left_surely(op: Op, told: Option<Told>) -> Option<u64>
    ensures { MatchOption result (Unit {0}) (λ v.
        (u : ℕ) → FitsTold op told u → new_word op u ≡ v) }
{
    match found(op, told) {
        Some(word) => Some(left(op, word)),
        None => match op {
            Op::Store(value) => Some(value),
            Op::Swap(value) => Some(value),
            _ => None,
        },
    }
}

/// Whether an operation surely left a word of a set.
pub(crate) fn leaves(set: &[u64], op: Op, told: Option<Told>) -> bool
    requires { IsNonDecreasing set.now }
    ensures { result ≡ true → (u : ℕ) → FitsTold op told u →
        is_listed set.now (new_word op u) ≡ true }
{
    match left_surely(op, told) {
        Some(word) => has(set, word),
        None => false,
    }
}

/// Whether an operation surely left a word outside a set.
pub(crate) fn avoids(set: &[u64], op: Op, told: Option<Told>) -> bool
    requires { IsNonDecreasing set.now }
    ensures { result ≡ true → (u : ℕ) → FitsTold op told u →
        is_listed set.now (new_word op u) ≡ false }
{
    match left_surely(op, told) {
        Some(word) => !has(set, word),
        None => false,
    }
}
