//! Another watch that has seen what one has.

ghost use Rattle.std.specs.Prelude.{◌≡◌, ℕ, List, IfOk, map};
ghost use Rattle.trace_laws.specs.declared.event.Event.{Event};
ghost use Rattle.trace_watch.specs.Follows.{Tracks};
ghost use Rattle.trace_watch.specs.States.{configs_of};
ghost use Rattle.trace_watch.specs.Watched.{watched};

use crate::state::{State, copy_of};
use crate::watch::Watch;
use std::alloc::{AllocError, Allocator};

/// A copy of what may have become of a word.
pub(crate) fn states_copied<A: Allocator + Copy, B: Allocator>(
    alloc: A,
    states: &[State<B>],
) -> Result<Vec<State<A>, A>, AllocError>
    ensures { IfOk result (λ v. configs_of v.items ≡ configs_of states.now) }
{
    let mut copies = Vec::with_capacity(alloc, states.len())?;
    for i in 0..states.len() {
        copies.push(copy_of(alloc, &states[i])?)?;
    }
    Ok(copies)
}

/// A copy of what may have become of each word.
fn words_copied<A: Allocator + Copy>(
    alloc: A,
    words: &[Vec<State<A>, A>],
) -> Result<Vec<Vec<State<A>, A>, A>, AllocError>
    ensures { IfOk result (λ v. map (λ states. configs_of states.items) v.items
        ≡ map (λ states. configs_of states.items) words.now) }
{
    let mut copies = Vec::new(alloc);
    for i in 0..words.len() {
        let copy = states_copied(alloc, &words[i])?;
        copies.push(copy)?;
    }
    Ok(copies)
}

impl<A: Allocator + Copy> Watch<A> {
    /// Another watch that has seen what this one has: it says what this one says, and follows whatever trace this
    /// one follows. The two share nothing.
    ///
    /// Errors: out of memory alone.
    pub fn copied(&self, alloc: A) -> Result<Watch<A>, AllocError>
        ensures same { IfOk result (λ copy. watched copy ≡ watched self.now) }
        ensures follows { IfOk result (λ copy. (opening : List ℕ) (trace : List Event)
            → Tracks opening trace self.now → Tracks opening trace copy) }
    {
        Ok(Watch {
            words: words_copied(alloc, &self.words)?,
            pending: Vec::from_slice(alloc, &self.pending)?,
            last: self.last,
        })
    }
}
