//! How much of a network whose routers choose its packets go over.

ghost use Rattle.std.specs.Prelude.{◌≡◌, ◌*◌, ◌<◌, ◌≤◌, ℕ, [], false, true, length, map, slice_get};
ghost use Rattle.std.specs.Prelude.{Some, IfOk, IfSome};
ghost use Rattle.std.specs.List.{count_by};
ghost use Rattle.network_judge.specs.declared.table.Kind.TheVariants.{Injection, Ejection};
ghost use Rattle.network_judge.specs.Table.{table_of, joins_of, ejects, is_sender};
ghost use Rattle.network_judge.specs.TableNet.{Flits};
ghost use Rattle.network_adaptive.specs.Choices.{HasEscapes};
ghost use Rattle.network_adaptive.specs.Choosing.{choosing_of, network, IsShaped};
ghost use Rattle.network_adaptive.specs.Edges.{pair_edge};
ghost use Rattle.network_adaptive.specs.Flags.{AreDown, ComesTo};
ghost use Rattle.network_adaptive.specs.Travel.{step_to, IsTravel};
ghost use Rattle.network_answer.specs.Reached.{AreEitherUp, is_between, is_hop_up, AreReached};
ghost use Rattle.network_answer.specs.Totals.{count_below, pair_count, HasChosenTotals};

use crate::totals::{Totals, hop_count, injection_count, marked_senders};
use network_adaptive::Travel;
use network_adaptive::comes::comes_by;
use network_adaptive::edges::pair_edges;
use network_adaptive::spread::base_of;
use network_adaptive::travel::travel_of;
use network_judge::columns::ends_of;
use network_judge::walk::{is_receiver, kind_at};
use network_judge::{Join, Kind};
use rising::chains::{Chains, chains_of};
use std::alloc::{AllocError, Allocator};

/// Flags that are up where they are in either list.
///
/// Errors: out of memory.
fn either_up<A: Allocator + Copy>(
    alloc: A,
    flags: &[bool],
    more: &[bool],
) -> Result<Vec<bool, A>, AllocError>
    requires { length more.now ≡ length flags.now }
    ensures { IfOk result (λ all. AreEitherUp flags.now more.now all.items) }
{
    let mut all = Vec::with_capacity(alloc, flags.len())?;
    for x in 0..flags.len() {
        all.push(flags[x] || more[x])?;
    }
    Ok(all)
}

/// Whether a channel of this kind, if any, is a hop.
fn is_between(kind: Option<Kind>) -> bool
    ensures { result ≡ is_between kind }
{
    match kind {
        None => false,
        Some(Kind::Injection) => false,
        Some(Kind::Hop) => true,
        Some(Kind::Ejection) => false,
    }
}

/// How many hops have their flags up.
fn hops_up(kinds: &[Kind], flags: &[bool]) -> usize
    requires { length flags.now ≡ length kinds.now }
    ensures { result ≡ count_below (is_hop_up kinds.now flags.now) (length kinds.now) }
{
    let mut count = 0;
    for x in 0..kinds.len() {
        if is_between(kind_at(kinds, x)) && flags[x] {
            count += 1;
        }
    }
    count
}

/// Where packets come.
#[derive(Drop)]
struct Reached<A: Allocator> {
    /// How many pairs they go between.
    pairs: usize,
    /// The flags of the channels that they come to.
    flags: Vec<bool, A>,
}

/// Finds where packets come, and between how many pairs, from the injection channels, to which no choice
/// leads.
///
/// Errors: out of memory.
fn reach_all<'a, A: Allocator + Copy>(
    alloc: A,
    kinds: &[Kind],
    joins: &[Join],
    pairs: &Chains<'a, A>,
    choices: &[u32],
    ways: usize,
    none: &[bool],
) -> Result<Reached<A>, AllocError>
    requires ways { 0 < ways }
    requires room { count_by ejects kinds.now * (length kinds.now * ways) ≤ length choices.now }
    requires none { length none.now ≡ length kinds.now }
    requires pairs { pairs.now.edges.now ≡ map pair_edge joins.now }
    requires nodes { pairs.now.nodes ≡ length kinds.now }
    requires senders { (i j : ℕ) → joins_of (table_of [] joins.now []) i j ≡ true
        → slice_get kinds.now i ≡ Some Injection }
    requires receivers { (i j : ℕ) → joins_of (table_of [] joins.now []) i j ≡ true
        → slice_get kinds.now j ≡ Some Ejection }
    requires outputs { (j x y : ℕ)
        → ComesTo joins.now (step_to kinds.now choices.now ways none.now j) j x
        → step_to kinds.now choices.now ways none.now j x y ≡ true
        → is_sender (slice_get kinds.now y) ≡ false }
    ensures pairs { IfOk result (λ r. r.pairs ≡ pair_count joins.now (length kinds.now)) }
    ensures flags { IfOk result (λ r. AreReached kinds.now joins.now
        (step_to kinds.now choices.now ways none.now) (length kinds.now) r.flags.items) }
{
    let mut count = 0;
    let mut flags = vec![in alloc; false; kinds.len()]?;
    for to in 0..kinds.len() {
        if !is_receiver(kind_at(kinds, to)) {
            continue;
        }
        let base = base_of(kinds, ways, to);
        let seen = comes_by(alloc, kinds, joins, pairs, choices, base, ways, none, to)?;
        count += marked_senders(kinds, &seen, 1, 0);
        flags = either_up(alloc, &flags, &seen)?;
    }
    Ok(Reached {
        pairs: count,
        flags,
    })
}

/// How far packets can go: as far as is known, or as a search finds.
///
/// Errors: out of memory.
fn travelled<'a, A: Allocator + Copy>(
    alloc: A,
    kinds: &[Kind],
    joins: &[Join],
    pairs: &Chains<'a, A>,
    choices: &[u32],
    ways: usize,
    marks: &[bool],
    none: &[bool],
    known: Option<Travel>,
) -> Result<Travel, AllocError>
    requires shaped { IsShaped (choosing_of kinds.now joins.now ways choices.now marks.now) }
    requires go_on { (depth : ℕ) (flits : Flits) → HasEscapes
        (network (choosing_of kinds.now joins.now ways choices.now marks.now) depth flits) }
    requires known { IfSome known (λ travel. (depth : ℕ) (flits : Flits) → IsTravel
        (network (choosing_of kinds.now joins.now ways choices.now marks.now) depth flits) travel) }
    requires none { length none.now ≡ length kinds.now }
    requires down { AreDown none.now }
    requires pairs { pairs.now.edges.now ≡ map pair_edge joins.now }
    requires nodes { pairs.now.nodes ≡ length kinds.now }
    ensures { IfOk result (λ travel. (depth : ℕ) (flits : Flits) → IsTravel
        (network (choosing_of kinds.now joins.now ways choices.now marks.now) depth flits) travel) }
{
    match known {
        Some(travel) => Ok(travel),
        None => travel_of(alloc, kinds, joins, pairs, choices, ways, none),
    }
}

/// How much of a network whose routers choose its packets go over, where they can go on by an escape wherever
/// they come, and how far may be known.
///
/// Errors: out of memory.
pub fn chosen_totals<A: Allocator + Copy>(
    alloc: A,
    kinds: &[Kind],
    joins: &[Join],
    ways: usize,
    choices: &[u32],
    marks: &[bool],
    known: Option<Travel>,
) -> Result<Totals, AllocError>
    requires ways { 0 < ways }
    requires shaped { IsShaped (choosing_of kinds.now joins.now ways choices.now marks.now) }
    requires go_on { (depth : ℕ) (flits : Flits) → HasEscapes
        (network (choosing_of kinds.now joins.now ways choices.now marks.now) depth flits) }
    requires known { IfSome known (λ travel. (depth : ℕ) (flits : Flits) → IsTravel
        (network (choosing_of kinds.now joins.now ways choices.now marks.now) depth flits) travel) }
    ensures { IfOk result (HasChosenTotals
        (choosing_of kinds.now joins.now ways choices.now marks.now)) }
{
    let none = vec![in alloc; false; kinds.len()]?;
    let turned = pair_edges(alloc, joins)?;
    let pairs = chains_of(alloc, kinds.len(), &turned)?;
    let longest = travelled(
        alloc, kinds, joins, &pairs, choices, ways, marks, &none, known,
    )?;
    let reached = reach_all(alloc, kinds, joins, &pairs, choices, ways, &none)?;
    Ok(Totals {
        pairs: reached.pairs,
        all_pairs: injection_count(kinds) * ends_of(alloc, kinds)?.len(),
        hops: hops_up(kinds, &reached.flags),
        all_hops: hop_count(kinds),
        longest,
    })
}
