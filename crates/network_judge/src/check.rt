//! Whether some channels are a jam.

ghost use Rattle.std.specs.Prelude.{◌≡◌, ◌+◌, ◌<◌, true, false, Some, ℕ, length, All, IfOk, IfSome};
ghost use Rattle.std.specs.Prelude.{IfNone};
ghost use Rattle.network_judge.specs.declared.table.Kind.TheVariants.{Ejection};
ghost use Rattle.network_judge.specs.Table.{table_of, columns_of, table_next, joins_of, IsFull};
ghost use Rattle.network_judge.specs.Table.{kind_of};
ghost use Rattle.network_judge.specs.Columns.{AreColumns};
ghost use Rattle.network_judge.specs.Replies.{IsReply};
ghost use Rattle.network_judge.specs.Marks.{is_marked_at};
ghost use Rattle.network_judge.specs.Verdicts.{AllArrive};
ghost use Rattle.network_judge.specs.Jams.{IsJam, WaitsForFilled, AreFilledInTurn};
ghost use Rattle.network_judge.specs.Clear.{IsClearWalk, WaitsForMarked, AreFillsMarked};

use crate::columns::{columns_of, ends_of};
use crate::walk::cell;
use crate::{Fill, Join, Kind, Reply};
use std::alloc::{AllocError, Allocator};

/// The choice behind a channel for packets to an ejection channel; none only of what are no such
/// channels.
pub fn next_of(
    kinds: &[Kind],
    joins: &[Join],
    choices: &[u32],
    columns: &[usize],
    width: usize,
    x: usize,
    to: usize,
) -> Option<usize>
    requires full { IsFull (table_of kinds.now joins.now choices.now) }
    requires columns { AreColumns kinds.now columns.now }
    requires width { width ≡ columns_of (table_of kinds.now joins.now choices.now) }
    ensures some { IfSome result
        (λ y. y ≡ table_next (table_of kinds.now joins.now choices.now) x to) }
    ensures none { IfNone result
        (kind_of (table_of kinds.now joins.now choices.now) to ≡ Some Ejection
        → x < length kinds.now → ⊥) }
{
    if to >= columns.len() || x >= kinds.len() {
        return None;
    }
    let column = columns[to];
    if column >= width {
        return None;
    }
    Some(choices[cell(kinds.len(), width, x, column)] as usize)
}

/// Whether packets go from one channel to another.
pub fn is_joined(kinds: &[Kind], joins: &[Join], choices: &[u32], from: usize, to: usize) -> bool
    ensures { result ≡ joins_of (table_of kinds.now joins.now choices.now) from to }
{
    joins.iter().any(|pair| pair.from == from && pair.to == to)
}

/// The channel of an item, if its walk is clear of marked channels.
pub fn clear_walk(
    kinds: &[Kind],
    joins: &[Join],
    choices: &[u32],
    columns: &[usize],
    width: usize,
    marks: &[bool],
    item: Fill,
) -> Option<usize>
    requires full { IsFull (table_of kinds.now joins.now choices.now) }
    requires columns { AreColumns kinds.now columns.now }
    requires width { width ≡ columns_of (table_of kinds.now joins.now choices.now) }
    ensures some { IfSome result (IsClearWalk (table_of kinds.now joins.now choices.now) marks.now
        item.from item.to item.step) }
    ensures none { IfNone result
        (kind_of (table_of kinds.now joins.now choices.now) item.to ≡ Some Ejection
        → length marks.now ≡ length kinds.now → (x : ℕ)
        → IsClearWalk (table_of kinds.now joins.now choices.now) marks.now item.from item.to
        item.step x → ⊥) }
{
    let mut at = item.from;
    for step in 0..item.step {
        if at >= marks.len() || at == item.to {
            return None;
        }
        if marks[at] {
            return None;
        }
        match next_of(kinds, joins, choices, columns, width, at, item.to) {
            None => return None,
            Some(next) => at = next,
        }
    }
    if at >= marks.len() {
        return None;
    }
    if marks[at] {
        return None;
    }
    Some(at)
}

/// Whether packets from an ejection channel are answered on a marked channel.
pub fn is_answered(replies: &[Reply], marks: &[bool], to: usize) -> bool
    ensures yes { result ≡ true
        → (y : ℕ) × IsReply replies.now to y × (is_marked_at marks.now y ≡ true) }
    ensures no { result ≡ false
        → (y : ℕ) → IsReply replies.now to y → is_marked_at marks.now y ≡ true → ⊥ }
{
    for place in 0..replies.len() {
        let reply = replies[place];
        if reply.from == to && reply.to < marks.len() {
            if marks[reply.to] {
                return true;
            }
        }
    }
    false
}

/// Whether packets in a channel wait for a marked one.
pub fn waits(
    kinds: &[Kind],
    joins: &[Join],
    replies: &[Reply],
    choices: &[u32],
    columns: &[usize],
    width: usize,
    marks: &[bool],
    to: usize,
    x: usize,
) -> bool
    requires full { IsFull (table_of kinds.now joins.now choices.now) }
    requires columns { AreColumns kinds.now columns.now }
    requires width { width ≡ columns_of (table_of kinds.now joins.now choices.now) }
    ensures yes { result ≡ true
        → WaitsForMarked (table_of kinds.now joins.now choices.now) replies.now marks.now to x }
    ensures no { result ≡ false
        → kind_of (table_of kinds.now joins.now choices.now) to ≡ Some Ejection
        → x < length kinds.now
        → WaitsForMarked (table_of kinds.now joins.now choices.now) replies.now marks.now to x
        → ⊥ }
{
    if x == to {
        return is_answered(replies, marks, to);
    }
    match next_of(kinds, joins, choices, columns, width, x, to) {
        None => false,
        Some(next) => {
            if next >= marks.len() {
                return false;
            }
            marks[next]
        }
    }
}

/// Marks the channels of all items, the last first, if the walk of each is clear of those marked
/// before; the channels, the last first.
///
/// Errors: out of memory.
pub fn mark_all<A: Allocator + Copy>(
    alloc: A,
    kinds: &[Kind],
    joins: &[Join],
    choices: &[u32],
    columns: &[usize],
    width: usize,
    marks: &mut [bool],
    items: &[Fill],
) -> Result<Option<Vec<usize, A>>, AllocError>
    requires full { IsFull (table_of kinds.now joins.now choices.now) }
    requires columns { AreColumns kinds.now columns.now }
    requires width { width ≡ columns_of (table_of kinds.now joins.now choices.now) }
    requires arrive { AllArrive (table_of kinds.now joins.now choices.now) }
    requires size { length marks.old ≡ length kinds.now }
    requires clear { (m : ℕ) → is_marked_at marks.old m ≡ false }
    ensures some { IfOk result (λ found. IfSome found (λ ends.
        AreFillsMarked (table_of kinds.now joins.now choices.now) items.now 0 marks.new
        ends.items)) }
    ensures none { IfOk result (λ found. IfNone found
        (AreFilledInTurn (table_of kinds.now joins.now choices.now) items.now → ⊥)) }
{
    let mut ends = Vec::with_capacity(alloc, items.len())?;
    for done in 0..items.len() {
        let item = items[items.len() - 1 - done];
        if !is_joined(kinds, joins, choices, item.from, item.to) {
            return Ok(None);
        }
        match clear_walk(kinds, joins, choices, columns, width, marks, item) {
            None => return Ok(None),
            Some(x) => {
                marks[x] = true;
                ends.push(x)?;
            }
        }
    }
    Ok(Some(ends))
}

/// Whether the packets of each item wait for a marked channel.
pub fn all_wait(
    kinds: &[Kind],
    joins: &[Join],
    replies: &[Reply],
    choices: &[u32],
    columns: &[usize],
    width: usize,
    marks: &[bool],
    items: &[Fill],
    ends: &[usize],
) -> bool
    requires full { IsFull (table_of kinds.now joins.now choices.now) }
    requires columns { AreColumns kinds.now columns.now }
    requires width { width ≡ columns_of (table_of kinds.now joins.now choices.now) }
    requires marked { AreFillsMarked (table_of kinds.now joins.now choices.now) items.now 0
        marks.now ends.now }
    ensures yes { result ≡ true
        → All (WaitsForFilled (table_of kinds.now joins.now choices.now) replies.now items.now)
        items.now }
    ensures no { result ≡ false
        → All (WaitsForFilled (table_of kinds.now joins.now choices.now) replies.now items.now)
        items.now → ⊥ }
{
    for place in 0..items.len() {
        let x = ends[items.len() - 1 - place];
        if !waits(
            kinds,
            joins,
            replies,
            choices,
            columns,
            width,
            marks,
            items[place].to,
            x,
        ) {
            return false;
        }
    }
    true
}

/// Whether these items are a jam, in a network in which all walks arrive.
///
/// Errors: out of memory.
pub fn is_jam<A: Allocator + Copy>(
    alloc: A,
    kinds: &[Kind],
    joins: &[Join],
    replies: &[Reply],
    choices: &[u32],
    items: &[Fill],
) -> Result<bool, AllocError>
    requires full { IsFull (table_of kinds.now joins.now choices.now) }
    requires arrive { AllArrive (table_of kinds.now joins.now choices.now) }
    ensures yes { IfOk result (λ is. is ≡ true
        → IsJam (table_of kinds.now joins.now choices.now) replies.now items.now) }
    ensures no { IfOk result (λ is. is ≡ false
        → IsJam (table_of kinds.now joins.now choices.now) replies.now items.now → ⊥) }
{
    if items.is_empty() {
        return Ok(false);
    }
    let columns = columns_of(alloc, kinds)?;
    let width = ends_of(alloc, kinds)?.len();
    let mut marks = vec![in alloc; false; kinds.len()]?;
    match mark_all(
        alloc, kinds, joins, choices, &columns, width, &mut marks, items,
    )? {
        None => Ok(false),
        Some(ends) => Ok(all_wait(
            kinds, joins, replies, choices, &columns, width, &marks, items, &ends,
        )),
    }
}
