//! The words that were there.

ghost use Rattle.std.specs.Prelude.{◌≡◌, true, false, IfOk};
ghost use Rattle.trace_laws.specs.Configs.{IsIn};
ghost use Rattle.trace_watch.specs.States.{IsGlimpsed, config_of, newest_number, other_words, seen_by};

use crate::state::{Glimpse, State};
use std::alloc::{AllocError, Allocator};
use trace_laws::Call;

/// Whether a word was there for as many operations as another glimpse says.
pub(crate) fn has_glimpse(seen: &[Glimpse], glimpse: Glimpse) -> bool
    ensures yes { result ≡ true → IsGlimpsed seen.now glimpse }
    ensures no { result ≡ false → IsGlimpsed seen.now glimpse → ⊥ }
{
    for i in 0..seen.len() {
        if seen[i].word == glimpse.word && glimpse.newest <= seen[i].newest {
            return true;
        }
    }
    false
}

/// Whether each of some words was there for as many operations.
pub(crate) fn are_seen(seen: &[Glimpse], others: &[Glimpse]) -> bool
    ensures yes { result ≡ true → (g : Glimpse) → IsIn others.now g → IsGlimpsed seen.now g }
    ensures no { result ≡ false → ((g : Glimpse) → IsIn others.now g → IsGlimpsed seen.now g) → ⊥ }
{
    for i in 0..others.len() {
        if !has_glimpse(seen, others[i]) {
            return false;
        }
    }
    true
}

/// The highest number of some operations, or 0.
fn newest_number(calls: &[Call]) -> u64
    ensures { result ≡ newest_number calls.now }
{
    let mut newest = 0;
    for i in 0..calls.len() {
        if calls[i].id > newest {
            newest = calls[i].id;
        }
    }
    newest
}

/// The glimpses of other words than this one.
fn other_words<A: Allocator>(
    alloc: A,
    seen: &[Glimpse],
    word: u64,
) -> Result<Vec<Glimpse, A>, AllocError>
    ensures { IfOk result (λ v. v.items ≡ other_words word seen.now) }
{
    let mut others = Vec::with_capacity(alloc, seen.len() + 1)?;
    for i in 0..seen.len() {
        let glimpse = seen[i];
        if glimpse.word != word {
            others.push(glimpse)?;
        }
    }
    Ok(others)
}

/// The words that these operations may have found in a state, once this word is there.
pub(crate) fn seen_by<A: Allocator>(
    alloc: A,
    calls: &[Call],
    state: &State<A>,
    word: u64,
) -> Result<Vec<Glimpse, A>, AllocError>
    ensures { IfOk result (λ v. v.items ≡ seen_by calls.now (config_of state.now) word) }
{
    let mut seen = other_words(alloc, &state.seen, word)?;
    if state.word != word {
        let newest = newest_number(calls);
        seen.insert(
            0,
            Glimpse {
                word: state.word,
                newest,
            },
        )?;
    }
    Ok(seen)
}
