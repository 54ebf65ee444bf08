//! How much of a network its packets go over, and of one of fixed routes how much that is.

ghost use Rattle.std.specs.Prelude.{◌≡◌, ◌+◌, ◌*◌, ◌<◌, ◌≤◌, ◌^◌, ◌&&◌, ℕ, true, false, length};
ghost use Rattle.std.specs.Prelude.{slice_get, take, IfOk, IfSome, IfNone};
ghost use Rattle.std.specs.List.{count_by};
ghost use Rattle.network_judge.specs.Table.{table_of, channels_of, columns_of, ejects, IsFull};
ghost use Rattle.network_judge.specs.Table.{is_sender};
ghost use Rattle.network_judge.specs.Columns.{AreColumns};
ghost use Rattle.network_judge.specs.Verdicts.{AllArrive, join_at};
ghost use Rattle.network_judge.specs.Marks.{MarksRoutes};
ghost use Rattle.network_judge.specs.Ways.{IsWay};
ghost use Rattle.network_judge.specs.Graph.{flag_at};
ghost use Rattle.network_answer.specs.Totals.{count_below, pair_count, injects, is_hop};
ghost use Rattle.network_answer.specs.Totals.{IsHopUsed, IsCountOf, IsLongestRoute, HasTotals};

use network_adaptive::Travel;
use network_judge::columns::{columns_of, ends_of};
use network_judge::spans::step_of;
use network_judge::walk::{cell, is_receiver, kind_at, trace_all};
use network_judge::{Join, Kind};
use std::alloc::{AllocError, Allocator};

/// How much of a network its packets go over.
#[derive(Clone, Copy)]
pub struct Totals {
    /// How many source-destination pairs packets go between.
    pub pairs: usize,
    /// How many there could be.
    pub all_pairs: usize,
    /// How many hops packets go over.
    pub hops: usize,
    /// How many hops there are.
    pub all_hops: usize,
    /// Over how many channels packets go at most, both ends counted: as many as the longest route has.
    pub longest: Travel,
}

/// Whether a kind is that of injection channels.
fn injects(kind: Kind) -> bool
    ensures { result ≡ injects kind }
{
    match kind {
        Kind::Injection => true,
        Kind::Hop => false,
        Kind::Ejection => false,
    }
}

/// Whether a kind is that of hops.
fn is_hop(kind: Kind) -> bool
    ensures { result ≡ is_hop kind }
{
    match kind {
        Kind::Injection => false,
        Kind::Hop => true,
        Kind::Ejection => false,
    }
}

/// How many injection channels there are.
pub(crate) fn injection_count(kinds: &[Kind]) -> usize
    ensures value { result ≡ count_by injects kinds.now }
    ensures low { result ≤ length kinds.now }
{
    let mut count = 0;
    for x in 0..kinds.len() {
        if injects(kinds[x]) {
            count += 1;
        }
    }
    count
}

/// How many hops there are.
pub(crate) fn hop_count(kinds: &[Kind]) -> usize
    ensures { result ≡ count_by is_hop kinds.now }
{
    let mut count = 0;
    for x in 0..kinds.len() {
        if is_hop(kinds[x]) {
            count += 1;
        }
    }
    count
}

/// How many injection channels are marked in a column.
pub(crate) fn marked_senders(kinds: &[Kind], used: &[bool], width: usize, column: usize) -> usize
    requires square { length used.now ≡ length kinds.now * width }
    requires column { column < width }
    ensures value { result ≡ count_below
        (λ x. is_sender (slice_get kinds.now x) && flag_at width used.now x column)
        (length kinds.now) }
    ensures low { result ≤ length kinds.now }
{
    let mut count = 0;
    for x in 0..kinds.len() {
        if injects(kinds[x]) && used[cell(kinds.len(), width, x, column)] {
            count += 1;
        }
    }
    count
}

/// Whether packets go over a channel and it is a hop, by the marks of their routes.
fn is_hop_marked(
    kinds: &[Kind],
    joins: &[Join],
    choices: &[u32],
    width: usize,
    used: &[bool],
    x: usize,
) -> bool
    requires full { IsFull (table_of kinds.now joins.now choices.now) }
    requires width { width ≡ columns_of (table_of kinds.now joins.now choices.now) }
    requires marked { MarksRoutes (table_of kinds.now joins.now choices.now) (length joins.now)
        used.now }
    requires x { x < length kinds.now }
    ensures yes { result ≡ true → IsHopUsed (table_of kinds.now joins.now choices.now) x }
    ensures no { result ≡ false → IsHopUsed (table_of kinds.now joins.now choices.now) x → ⊥ }
{
    if !is_hop(kinds[x]) {
        return false;
    }
    for column in 0..width {
        if used[cell(kinds.len(), width, x, column)] {
            return true;
        }
    }
    false
}

/// How many pairs packets go between, by the marks of their routes.
fn pairs_marked(
    kinds: &[Kind],
    joins: &[Join],
    choices: &[u32],
    columns: &[usize],
    width: usize,
    used: &[bool],
) -> usize
    requires full { IsFull (table_of kinds.now joins.now choices.now) }
    requires columns { AreColumns kinds.now columns.now }
    requires width { width ≡ columns_of (table_of kinds.now joins.now choices.now) }
    requires marked { MarksRoutes (table_of kinds.now joins.now choices.now) (length joins.now)
        used.now }
    ensures { result ≡ pair_count joins.now (length kinds.now) }
{
    let mut count = 0;
    for to in 0..kinds.len() {
        if is_receiver(kind_at(kinds, to)) {
            count += marked_senders(kinds, used, width, columns[to]);
        }
    }
    count
}

/// How many hops packets go over, by the marks of their routes.
fn hops_marked(
    kinds: &[Kind],
    joins: &[Join],
    choices: &[u32],
    width: usize,
    used: &[bool],
) -> usize
    requires full { IsFull (table_of kinds.now joins.now choices.now) }
    requires width { width ≡ columns_of (table_of kinds.now joins.now choices.now) }
    requires marked { MarksRoutes (table_of kinds.now joins.now choices.now) (length joins.now)
        used.now }
    ensures { IsCountOf (IsHopUsed (table_of kinds.now joins.now choices.now)) (length kinds.now)
        result }
{
    let mut count = 0;
    for x in 0..kinds.len() {
        if is_hop_marked(kinds, joins, choices, width, used, x) {
            count += 1;
        }
    }
    count
}

/// Over how many channels the route of a pair goes, where all pairs have routes.
fn route_channels(
    kinds: &[Kind],
    joins: &[Join],
    choices: &[u32],
    columns: &[usize],
    width: usize,
    place: usize,
) -> usize
    requires full { IsFull (table_of kinds.now joins.now choices.now) }
    requires columns { AreColumns kinds.now columns.now }
    requires width { width ≡ columns_of (table_of kinds.now joins.now choices.now) }
    requires arrive { AllArrive (table_of kinds.now joins.now choices.now) }
    requires place { place < length joins.now }
    ensures value { (n : ℕ) → IsWay (table_of kinds.now joins.now choices.now)
        (join_at (table_of kinds.now joins.now choices.now) place).from
        (join_at (table_of kinds.now joins.now choices.now) place).to n → result ≡ n + 1 }
    ensures low { result ≤ length kinds.now }
{
    let pair = joins[place];
    let (from, to) = (pair.from, pair.to);
    match step_of(kinds, joins, choices, columns, width, from, to, to) {
        Some(step) => step + 1,
        None => 0,
    }
}

/// Over how many channels the longest route goes, where all pairs have routes.
fn longest_route(
    kinds: &[Kind],
    joins: &[Join],
    choices: &[u32],
    columns: &[usize],
    width: usize,
) -> usize
    requires full { IsFull (table_of kinds.now joins.now choices.now) }
    requires columns { AreColumns kinds.now columns.now }
    requires width { width ≡ columns_of (table_of kinds.now joins.now choices.now) }
    requires arrive { AllArrive (table_of kinds.now joins.now choices.now) }
    ensures { IsLongestRoute (table_of kinds.now joins.now choices.now) result }
{
    let mut most = 0;
    for place in 0..joins.len() {
        let channels = route_channels(kinds, joins, choices, columns, width, place);
        if channels > most {
            most = channels;
        }
    }
    most
}

/// How much of a network its packets go over; none where a pair has no route.
///
/// Errors: out of memory.
pub fn totals_of<A: Allocator + Copy>(
    alloc: A,
    kinds: &[Kind],
    joins: &[Join],
    choices: &[u32],
) -> Result<Option<Totals>, AllocError>
    requires { IsFull (table_of kinds.now joins.now choices.now) }
    ensures some { IfOk result (λ found. IfSome found
        (HasTotals (table_of kinds.now joins.now choices.now))) }
    ensures none { IfOk result (λ found. IfNone found
        (AllArrive (table_of kinds.now joins.now choices.now) → ⊥)) }
{
    let columns = columns_of(alloc, kinds)?;
    let width = ends_of(alloc, kinds)?.len();
    let mut used = vec![in alloc; false; choices.len()]?;
    match trace_all(kinds, joins, choices, &columns, width, &mut used) {
        Ok(()) => {}
        Err(_) => return Ok(None),
    }
    Ok(Some(Totals {
        pairs: pairs_marked(kinds, joins, choices, &columns, width, &used),
        all_pairs: injection_count(kinds) * width,
        hops: hops_marked(kinds, joins, choices, width, &used),
        all_hops: hop_count(kinds),
        longest: Travel::Bounded(longest_route(kinds, joins, choices, &columns, width)),
    }))
}
