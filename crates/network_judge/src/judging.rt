//! The judgement of a table.

ghost use Rattle.std.specs.Prelude.{IfOk};
ghost use Rattle.network_judge.specs.Table.{table_of, IsFull};
ghost use Rattle.network_judge.specs.Replies.{AreReplies};
ghost use Rattle.network_judge.specs.Verdicts.{IsVerdict};

use crate::columns::{columns_of, ends_of};
use crate::dependencies::Dependencies;
use crate::links::links_of;
use crate::shorter::shortened;
use crate::table::{Join, Kind, Reply, Verdict};
use crate::walk::trace_all;
use rising::{Searched, find};
use std::alloc::{AllocError, Allocator};

/// Judges a network by its tables: the kind of each channel, the source-destination pairs that packets go
/// between, and the routers' choices. These have a row for each channel, and in it a column for each
/// ejection channel, both in channel order: the channel that comes next for packets which go there. A
/// number that is no channel's stands for no choice. The replies say on which injection channels packets
/// from an ejection channel are answered. A cycle is the shortest that searches in breadth find, which end
/// where they came to many channels.
///
/// Errors: out of memory, and no other.
pub fn judge<A: Allocator + Copy>(
    alloc: A,
    kinds: &[Kind],
    joins: &[Join],
    replies: &[Reply],
    choices: &[u32],
) -> Result<Verdict<A>, AllocError>
    requires full { IsFull (table_of kinds.now joins.now choices.now) }
    requires replies { AreReplies (table_of kinds.now joins.now choices.now) replies.now }
    ensures { IfOk result (IsVerdict (table_of kinds.now joins.now choices.now) replies.now) }
{
    let columns = columns_of(alloc, kinds)?;
    let ends = ends_of(alloc, kinds)?;
    let width = ends.len();
    let mut used = vec![in alloc; false; choices.len()]?;
    match trace_all(kinds, joins, choices, &columns, width, &mut used) {
        Ok(()) => {}
        Err(fault) => return Ok(Verdict::NoRoute(fault)),
    }
    let graph = Dependencies {
        count: kinds.len(),
        width,
        choices,
        used: &used,
        replies,
    };
    match find(alloc, &graph)? {
        Searched::Circuit(looks) => {
            let short = shortened(alloc, &graph, looks)?;
            Ok(Verdict::Cycle(links_of(alloc, &ends, &short)?))
        }
        Searched::Rising(numbers) => Ok(Verdict::Rising(numbers)),
    }
}
