//! What follows from a table: the source of a load is the last write before it.

ghost use Rattle.std.specs.Prelude.{◌≡◌, ◌⊎◌, ◌||◌, ◌*◌, ◌<◌, true, false, length};
ghost use Rattle.model_values.specs.Known.{AreConcluded, AreConcludedOf, HasSpreadOrder, IsConcluded};
ghost use Rattle.model_values.specs.Known.{IsOwnLoad, IsRival, NotesMore, is_known};

use crate::known::{add, is_before};
use crate::question::Unordered;
use crate::valued::is_reader;
use memory_models::kinds::is_write;
use memory_models::{Kind, Operation};

/// Whether a load or an atomic has a write on its word that is neither its source nor itself.
pub(crate) fn is_rival(operations: &[Operation], sources: &[usize], x: usize, w: usize) -> bool
    ensures yes { result ≡ true → IsRival operations.now sources.now x w }
    ensures no { result ≡ false → IsRival operations.now sources.now x w → ⊥ }
{
    if x >= operations.len() || w >= operations.len() || x >= sources.len() {
        return false;
    }
    let source = sources[x];
    if !is_reader(operations, x) || source >= operations.len() {
        return false;
    }
    if !is_write(operations[source].kind) || operations[source].word != operations[x].word {
        return false;
    }
    if !is_write(operations[w].kind) || operations[x].word != operations[w].word {
        return false;
    }
    w != x && w != source
}

/// Whether the second is a load, and the first of its processor before it.
pub(crate) fn is_own_load(operations: &[Operation], w: usize, x: usize) -> bool
    requires w { w < length operations.now }
    requires x { x < length operations.now }
    ensures yes { result ≡ true → IsOwnLoad operations.now w x }
    ensures no { result ≡ false → IsOwnLoad operations.now w x → ⊥ }
{
    match operations[x].kind {
        Kind::Load => operations[w].processor == operations[x].processor && w < x,
        _ => false,
    }
}

/// Whether a write is known to be before a load or an atomic, or is one of a load's processor before it.
fn is_early(operations: &[Operation], table: &[usize], level: usize, x: usize, w: usize) -> bool
    requires size { length table.now ≡ length operations.now * length operations.now }
    requires x { x < length operations.now }
    requires w { w < length operations.now }
    ensures yes { result ≡ true → (is_known table.now (length operations.now) level w x ≡ true)
        ⊎ IsOwnLoad operations.now w x }
    ensures no { result ≡ false → (is_known table.now (length operations.now) level w x ≡ true)
        ⊎ IsOwnLoad operations.now w x → ⊥ }
{
    if is_own_load(operations, w, x) {
        return true;
    }
    is_before(table, operations.len(), level, w, x)
}

/// Whether one of two facts holds.
fn either(first: bool, second: bool) -> bool
    ensures { result ≡ (first || second) }
{
    first || second
}

/// Notes what follows for a rival write: one before the reader comes before its source, and one behind
/// the source comes behind the reader. Returns whether it noted something new.
fn spread_rival(question: &Unordered, table: &mut [usize], level: usize, x: usize, w: usize) -> bool
    requires size { length table.old
        ≡ length question.now.operations.now * length question.now.operations.now }
    requires rival { IsRival question.now.operations.now question.now.sources.now x w }
    ensures spread { HasSpreadOrder question.now level table.old table.new }
    ensures more { NotesMore level table.old table.new result }
    ensures concluded { result ≡ false → IsConcluded question.now table.new level x w }
{
    let size = question.operations.len();
    let source = question.sources[x];
    let early = is_early(question.operations, table, level, x, w);
    let first = add(table, size, level, early, w, source);
    let late = is_before(table, size, level, source, w);
    let last = add(table, size, level, late, x, w);
    either(first, last)
}

/// Notes that for a write that is a rival, and nothing for another one.
fn spread_pair(question: &Unordered, table: &mut [usize], level: usize, x: usize, w: usize) -> bool
    requires size { length table.old
        ≡ length question.now.operations.now * length question.now.operations.now }
    ensures spread { HasSpreadOrder question.now level table.old table.new }
    ensures more { NotesMore level table.old table.new result }
    ensures concluded { result ≡ false
        → IsRival question.now.operations.now question.now.sources.now x w
        → IsConcluded question.now table.new level x w }
{
    if !is_rival(question.operations, question.sources, x, w) {
        return false;
    }
    spread_rival(question, table, level, x, w)
}

/// Notes that for one reader and all writes.
fn spread_row(question: &Unordered, table: &mut [usize], level: usize, x: usize) -> bool
    requires size { length table.old
        ≡ length question.now.operations.now * length question.now.operations.now }
    ensures spread { HasSpreadOrder question.now level table.old table.new }
    ensures more { NotesMore level table.old table.new result }
    ensures concluded { result ≡ false → AreConcludedOf question.now table.new level x }
{
    let mut more = false;
    for w in 0..question.operations.len() {
        let new = spread_pair(question, table, level, x, w);
        more = either(more, new);
    }
    more
}

/// Notes that for all readers.
fn spread_once(question: &Unordered, table: &mut [usize], level: usize) -> bool
    requires size { length table.old
        ≡ length question.now.operations.now * length question.now.operations.now }
    ensures spread { HasSpreadOrder question.now level table.old table.new }
    ensures more { NotesMore level table.old table.new result }
    ensures concluded { result ≡ false → AreConcluded question.now table.new level }
{
    let mut more = false;
    for x in 0..question.operations.len() {
        let new = spread_row(question, table, level, x);
        more = either(more, new);
    }
    more
}

/// Notes that for all readers, again and again until nothing is new.
pub(crate) fn spread(question: &Unordered, table: &mut [usize], level: usize)
    requires size { length table.old
        ≡ length question.now.operations.now * length question.now.operations.now }
    ensures spread { HasSpreadOrder question.now level table.old table.new }
    ensures concluded { AreConcluded question.now table.new level }
{
    'passes: loop {
        if !spread_once(question, table, level) {
            return;
        }
    }
}
