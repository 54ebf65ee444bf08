//! Walks by the routers' choices.

ghost use Rattle.std.specs.Prelude.{◌≡◌, ◌+◌, ◌*◌, ◌<◌, ◌^◌, ℕ, false, length, slice_get, OnOk};
ghost use Rattle.std.specs.Prelude.{IfErr};
ghost use Rattle.network_judge.specs.Table.{table_of, columns_of, is_sender, is_receiver, IsFull};
ghost use Rattle.network_judge.specs.Columns.{AreColumns};
ghost use Rattle.network_judge.specs.Verdicts.{FailsAt, IsFirstFault};
ghost use Rattle.network_judge.specs.Marks.{is_marked_at, IsTraced, MarksRoutes, HasTraced};

use crate::table::{Join, Kind, NoRoute, Why};

/// The kind of a channel, and none beyond the channels.
pub fn kind_at(kinds: &[Kind], x: usize) -> Option<Kind>
    ensures { result ≡ slice_get kinds.now x }
{
    if x < kinds.len() {
        Some(kinds[x])
    } else {
        None
    }
}

/// Whether a channel of this kind, if any, is an injection channel.
pub fn is_sender(kind: Option<Kind>) -> bool
    ensures { result ≡ is_sender kind }
{
    match kind {
        None => false,
        Some(Kind::Injection) => true,
        Some(Kind::Hop) => false,
        Some(Kind::Ejection) => false,
    }
}

/// Whether it is an ejection channel.
pub fn is_receiver(kind: Option<Kind>) -> bool
    ensures { result ≡ is_receiver kind }
{
    match kind {
        None => false,
        Some(Kind::Injection) => false,
        Some(Kind::Hop) => false,
        Some(Kind::Ejection) => true,
    }
}

/// The place of a channel and a column in a list that has a row for each channel.
pub fn cell(channels: usize, columns: usize, x: usize, column: usize) -> usize
    requires x { x < channels }
    requires column { column < columns }
    requires room { channels * columns < 2 ^ 64 }
    ensures value { result ≡ x * columns + column }
    ensures inside { result < channels * columns }
{
    x * columns + column
}

/// Walks from the source to the destination of the pair at this place, and marks each channel that packets
/// go on from.
///
/// Errors: why the walk is no route.
pub fn trace(
    kinds: &[Kind],
    joins: &[Join],
    choices: &[u32],
    columns: &[usize],
    width: usize,
    used: &mut [bool],
    place: usize,
) -> Result<(), Why>
    requires full { IsFull (table_of kinds.now joins.now choices.now) }
    requires columns { AreColumns kinds.now columns.now }
    requires width { width ≡ columns_of (table_of kinds.now joins.now choices.now) }
    requires square { length used.old ≡ length kinds.now * width }
    requires place { place < length joins.now }
    ensures square { length used.new ≡ length used.old }
    ensures way { OnOk result
        (HasTraced (table_of kinds.now joins.now choices.now) place used.old used.new) }
    ensures fails { IfErr result (FailsAt (table_of kinds.now joins.now choices.now) place) }
{
    let pair = joins[place];
    if kind_at(kinds, pair.from) != Some(Kind::Injection) {
        return Err(Why::NoSender);
    }
    if kind_at(kinds, pair.to) != Some(Kind::Ejection) {
        return Err(Why::NoReceiver);
    }
    let column = columns[pair.to];
    let mut at = pair.from;
    for step in 0..kinds.len() {
        let here = cell(kinds.len(), width, at, column);
        used[here] = true;
        let after = choices[here] as usize;
        match kind_at(kinds, after) {
            None => return Err(Why::Leaves(step + 1)),
            Some(Kind::Injection) => return Err(Why::Injects(step + 1)),
            Some(Kind::Ejection) => {
                if after == pair.to {
                    return Ok(());
                }
                return Err(Why::Ejects(step + 1));
            }
            Some(Kind::Hop) => {}
        }
        at = after;
    }
    Err(Why::Round)
}

/// Walks between all source-destination pairs, in their order, and marks what is passed.
///
/// Errors: the first pair without a route, and why.
pub fn trace_all(
    kinds: &[Kind],
    joins: &[Join],
    choices: &[u32],
    columns: &[usize],
    width: usize,
    used: &mut [bool],
) -> Result<(), NoRoute>
    requires full { IsFull (table_of kinds.now joins.now choices.now) }
    requires columns { AreColumns kinds.now columns.now }
    requires width { width ≡ columns_of (table_of kinds.now joins.now choices.now) }
    requires square { length used.old ≡ length kinds.now * width }
    requires clear { (m : ℕ) → is_marked_at used.old m ≡ false }
    ensures marked { OnOk result
        (MarksRoutes (table_of kinds.now joins.now choices.now) (length joins.now) used.new) }
    ensures fails { IfErr result (IsFirstFault (table_of kinds.now joins.now choices.now)) }
{
    for place in 0..joins.len() {
        match trace(kinds, joins, choices, columns, width, used, place) {
            Ok(()) => {}
            Err(why) => {
                let join = joins[place];
                return Err(NoRoute { join, why });
            }
        }
    }
    Ok(())
}
