//! Laws of zones (Gibbons and Korach, Testing shared memories, SIAM J. Comput. 26(4), 1997), each the
//! contract of a function that does nothing.

ghost use Rattle.std.specs.Prelude.{◌≡◌, ◌<◌, ℕ, Bool, List, length, min, slice_index};
ghost use Rattle.trace_laws.specs.declared.event.Call.{Call};
ghost use Rattle.trace_laws.specs.declared.event.Event.{Event};
ghost use Rattle.trace_laws.specs.Orders.{IsLinearizable};
ghost use Rattle.trace_laws.specs.Traces.{IsTrace};
ghost use Rattle.trace_zones.specs.declared.conflict.Conflict.{Conflict};
ghost use Rattle.trace_zones.specs.Conflicts.{IsConflict};
ghost use Rattle.trace_zones.specs.Zones.{IsZone, AreApartSets, IsSeenBefore, IsFoundEarly};
ghost use Rattle.trace_zones.specs.Zones.{IsFoundUnwritten};
ghost use Rattle.trace_zones.specs.Zones.{IsSetLeft, WasTaken, AreDifferent, is_value};

use std::alloc::Allocator;

/// Two zones of one word that have no word in common: where each is seen before the other, no order
/// explains the trace.
pub fn zones_in_conflict_have_no_order()
    ensures { (opening : List ℕ) (trace : List Event) (w : ℕ) (one other : ℕ → Bool)
        → IsTrace (length opening) trace → w < length opening → IsZone (slice_index opening w) trace w one
        → IsZone (slice_index opening w) trace w other → AreApartSets one other
        → IsSeenBefore (slice_index opening w) trace w one other
        → IsSeenBefore (slice_index opening w) trace w other one
        → IsLinearizable opening trace → ⊥ }
{}

/// What was found before the operation was issued that alone can have written it: no order.
pub fn words_found_before_their_write_have_no_order()
    ensures { (opening : List ℕ) (trace : List Event) (w : ℕ) (set : ℕ → Bool)
        → IsTrace (length opening) trace → w < length opening
        → IsFoundEarly (slice_index opening w) trace w set → IsLinearizable opening trace → ⊥ }
{}

/// What was found and no operation can have written: no order.
pub fn words_that_nobody_wrote_have_no_order()
    ensures { (opening : List ℕ) (trace : List Event) (w : ℕ) (set : ℕ → Bool)
        → IsTrace (length opening) trace → w < length opening
        → IsFoundUnwritten (slice_index opening w) trace w set → IsLinearizable opening trace → ⊥ }
{}

/// A zone is left once: where two operations found it and left another word, no order explains the
/// trace. A lost update is this.
pub fn zones_that_are_left_twice_have_no_order()
    ensures { (opening : List ℕ) (trace : List Event) (w : ℕ) (set : ℕ → Bool) (c d : Call)
        → IsTrace (length opening) trace → w < length opening → IsZone (slice_index opening w) trace w set
        → WasTaken (slice_index opening w) trace w c → WasTaken (slice_index opening w) trace w d
        → IsSetLeft trace w set c → IsSetLeft trace w set d → (c.id ≡ d.id → ⊥)
        → IsLinearizable opening trace → ⊥ }
{}

/// What a certificate says has no order.
pub fn conflicts_have_no_order<A: Allocator>()
    ensures { (opening : List ℕ) (trace : List Event) (w : ℕ) (conflict : Conflict A)
        → IsTrace (length opening) trace → w < length opening
        → IsConflict (slice_index opening w) trace w conflict → IsLinearizable opening trace → ⊥ }
{}

/// Where all operations on a word write different words, each word by itself is a zone.
pub fn different_words_are_zones()
    ensures { (opening : List ℕ) (trace : List Event) (w v : ℕ) →
        AreDifferent (slice_index opening w) trace w
        → IsZone (slice_index opening w) trace w (is_value v) }
{}

/// Where zones have no conflict, the least of a zone's first answer and its last issue puts them in
/// order: one that has an answer before an issue of another comes first.
pub fn zones_without_conflict_have_ranks()
    ensures { (first last other_first other_last : ℕ)
        → (first < other_last → other_first < last → ⊥) → (other_last ≡ first → ⊥)
        → other_first < last → min other_first other_last < min first last }
{}
