//! Whether a part of a trace keeps all that may have left what it found.

ghost use Rattle.std.specs.Prelude.{◌≡◌, ◌+◌, ℕ, List, Some, None, true, false, IfOk, OnOk};
ghost use Rattle.std.specs.Prelude.{length, slice_get};
ghost use Rattle.state_search.specs.Parts.{IsKept};
ghost use Rattle.trace_laws.specs.declared.event.Event.{Event};
ghost use Rattle.trace_text.specs.declared.issued.Issued.{Issued};
ghost use Rattle.trace_answer.specs.Leaving.{IsClosedPart, MayHaveLeft};
ghost use Rattle.trace_answer.specs.Noted.{AddsNotes, HoldsFound};

use crate::leaving::{found_of, left_of};
use crate::noted::FoundWords;
use state_search::parts::is_kept;
use std::alloc::{AllocError, Allocator};
use trace_laws::Event;
use trace_text::Issued;

/// The operation of a number, if it is there.
fn issued_at(issued: &[Issued], k: usize) -> Option<Issued>
    ensures { result ≡ slice_get issued.now k }
{
    issued.get(k).copied()
}

/// Whether the operation of a number is there and has no answer.
fn is_unanswered(issued: &[Issued], k: usize) -> bool
    ensures yes { result ≡ true → (first : Issued) × (slice_get issued.now k ≡ Some first)
        × (first.reply ≡ None) }
    ensures no { result ≡ false → (first : Issued) → slice_get issued.now k ≡ Some first
        → first.reply ≡ None → ⊥ }
{
    match issued_at(issued, k) {
        Some(first) => first.reply.is_none(),
        None => false,
    }
}

/// Notes what an operation found, if it is kept.
pub(crate) fn note_kept<A: Allocator + Copy>(
    found: &mut FoundWords<A>,
    issued: &[Issued],
    kept: &[bool],
    k: usize,
) -> Result<(), AllocError>
    ensures { OnOk result (AddsNotes issued.now kept.now k found.old found.new) }
{
    if !is_kept(kept, k) {
        return Ok(());
    }
    let Some(first) = issued_at(issued, k) else {
        return Ok(());
    };
    found.note(first.operation.address, found_of(first))
}

/// Notes what an operation found, if it has no answer and is kept.
fn note_unanswered<A: Allocator + Copy>(
    found: &mut FoundWords<A>,
    issued: &[Issued],
    kept: &[bool],
    k: usize,
) -> Result<(), AllocError>
    ensures { (events : List Event) (i : ℕ) → HoldsFound issued.now events kept.now k i found.old
        → OnOk result (HoldsFound issued.now events kept.now (k + 1) i found.new) }
{
    if is_unanswered(issued, k) {
        return note_kept(found, issued, kept, k);
    }
    Ok(())
}

/// What the operations found that are kept and have no answer.
///
/// Errors: memory.
pub(crate) fn unanswered_found<A: Allocator + Copy>(
    alloc: A,
    issued: &[Issued],
    kept: &[bool],
) -> Result<FoundWords<A>, AllocError>
    ensures { (events : List Event) → IfOk result
        (HoldsFound issued.now events kept.now (length issued.now) (length events)) }
{
    let mut found = FoundWords::none(alloc);
    for k in 0..issued.len() {
        note_unanswered(&mut found, issued, kept, k)?;
    }
    Ok(found)
}

/// Notes what an operation found, if an event answers it and it is kept.
pub(crate) fn note_answered<A: Allocator + Copy>(
    found: &mut FoundWords<A>,
    issued: &[Issued],
    kept: &[bool],
    event: Event,
) -> Result<(), AllocError>
    ensures { (events : List Event) (n i : ℕ) → slice_get events i ≡ Some event
        → HoldsFound issued.now events kept.now n (i + 1) found.old
        → OnOk result (HoldsFound issued.now events kept.now n i found.new) }
{
    match event {
        Event::Issue(_) => Ok(()),
        Event::Answer(id, _) => note_kept(found, issued, kept, id as usize),
    }
}

/// Whether an event issues an operation that isn't kept and may have left what was found.
pub(crate) fn is_lacking<A: Allocator>(
    found: &FoundWords<A>,
    issued: &[Issued],
    kept: &[bool],
    event: Event,
) -> bool
    ensures yes { result ≡ true → (events : List Event) (i : ℕ) → slice_get events i ≡ Some event
        → HoldsFound issued.now events kept.now (length issued.now) (i + 1) found.now
        → IsClosedPart issued.now events kept.now → ⊥ }
    ensures no { result ≡ false → (events : List Event) (i : ℕ) → slice_get events i ≡ Some event
        → HoldsFound issued.now events kept.now (length issued.now) (i + 1) found.now
        → (k j : ℕ) → IsKept kept.now k → (m : MayHaveLeft issued.now events k j) → m.event ≡ i
        → IsKept kept.now j }
{
    let Event::Issue(call) = event else {
        return false;
    };
    let id = call.id as usize;
    if is_kept(kept, id) {
        return false;
    }
    match issued_at(issued, id) {
        Some(second) => found.meets(second.operation.address, left_of(second)),
        None => false,
    }
}

/// Whether a part keeps with each operation all that may have left what that one found.
///
/// Errors: memory.
pub(crate) fn is_closed<A: Allocator + Copy>(
    alloc: A,
    issued: &[Issued],
    events: &[Event],
    kept: &[bool],
) -> Result<bool, AllocError>
    ensures yes { IfOk result (λ b. b ≡ true → IsClosedPart issued.now events.now kept.now) }
    ensures no { IfOk result (λ b. b ≡ false → IsClosedPart issued.now events.now kept.now → ⊥) }
{
    let mut found = unanswered_found(alloc, issued, kept)?;
    let mut i = events.len();
    'events: while i > 0 {
        i -= 1;
        if is_lacking(&found, issued, kept, events[i]) {
            return Ok(false);
        }
        note_answered(&mut found, issued, kept, events[i])?;
    }
    Ok(true)
}
