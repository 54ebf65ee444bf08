//! The links of a cycle.

ghost use Rattle.std.specs.Prelude.{◌≡◌, length, slice_index, IfOk};
ghost use Rattle.network_judge.specs.Links.{by_of, AreLinks};

use crate::table::{By, Link};
use rising::Look;
use std::alloc::{AllocError, Allocator};

/// How a channel leads on in a column.
fn by_column(ends: &[usize], column: usize) -> By
    ensures { result ≡ by_of (length ends.now) (slice_index ends.now) column }
{
    if column < ends.len() {
        By::To(ends[column])
    } else {
        By::Replied
    }
}

/// Each channel of a path, and how it leads on: to the ejection channel of its column, or by a reply.
///
/// Errors: out of memory.
pub fn links_of<A: Allocator + Copy>(
    alloc: A,
    ends: &[usize],
    looks: &[Look],
) -> Result<Vec<Link, A>, AllocError>
    ensures { IfOk result (λ links.
        AreLinks (length ends.now) (slice_index ends.now) looks.now links.items) }
{
    let mut links = Vec::with_capacity(alloc, looks.len())?;
    for k in 0..looks.len() {
        let look = looks[k];
        links.push(Link {
            channel: look.node,
            by: by_column(ends, look.column),
        })?;
    }
    Ok(links)
}
