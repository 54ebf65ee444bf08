//! How far packets can go: whether the choices for some destination lead around.

ghost use Rattle.std.specs.Prelude.{◌≡◌, ◌+◌, ◌*◌, ◌^◌, ◌<◌, ◌≤◌, ℕ, true, [], length, map, IfOk};
ghost use Rattle.std.specs.Prelude.{slice_get, Some};
ghost use Rattle.network_judge.specs.Table.{table_of, joins_of, ejects};
ghost use Rattle.std.specs.List.{count_by};
ghost use Rattle.network_judge.specs.declared.table.Kind.TheVariants.{Ejection};
ghost use Rattle.network_adaptive.specs.Flags.{AreDown};
ghost use Rattle.network_adaptive.specs.Travel.{IsTravelOf};
ghost use Rattle.network_adaptive.specs.Edges.{pair_edge};

use crate::choices::Choices;
use crate::comes::comes_by;
use crate::longest::{farthest, most_from};
use crate::spread::base_of;
use crate::verdict::{Round, Travel};
use network_judge::walk::{is_receiver, kind_at};
use network_judge::{Join, Kind};
use rising::chains::Chains;
use rising::{Searched, find};
use std::alloc::{AllocError, Allocator};

/// Finds the first destination whose packets can go round, and a channel that they can come back to:
/// or there is none, and finds how many channels packets go over at most.
///
/// Errors: out of memory.
pub fn travel_of<'a, A: Allocator + Copy>(
    alloc: A,
    kinds: &[Kind],
    joins: &[Join],
    pairs: &Chains<'a, A>,
    choices: &[u32],
    ways: usize,
    none: &[bool],
) -> Result<Travel, AllocError>
    requires room { count_by ejects kinds.now * (length kinds.now * ways) ≤ length choices.now }
    requires none { length none.now ≡ length kinds.now }
    requires down { AreDown none.now }
    requires pairs { pairs.now.edges.now ≡ map pair_edge joins.now }
    requires nodes { pairs.now.nodes ≡ length kinds.now }
    requires receivers { (i j : ℕ) → joins_of (table_of [] joins.now []) i j ≡ true
        → slice_get kinds.now j ≡ Some Ejection }
    ensures { IfOk result (IsTravelOf kinds.now joins.now choices.now ways none.now) }
{
    let mut most = 0;
    for to in 0..kinds.len() {
        if !is_receiver(kind_at(kinds, to)) {
            continue;
        }
        let base = base_of(kinds, ways, to);
        let seen = comes_by(alloc, kinds, joins, pairs, choices, base, ways, none, to)?;
        let graph = Choices {
            kinds,
            choices,
            base,
            ways,
            seen: &seen,
        };
        match find(alloc, &graph)? {
            Searched::Rising(numbers) => {
                let far = farthest(alloc, &graph, &numbers)?;
                most = most_from(joins, pairs, to, &far, most);
            }
            Searched::Circuit(looks) => return Ok(Travel::Round(Round {
                to,
                at: looks[0].node,
            })),
        }
    }
    Ok(Travel::Bounded(most))
}
