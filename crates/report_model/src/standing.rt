//! Where a processor stands in its script.

ghost use Rattle.std.specs.Prelude.{◌≡◌, ◌≢◌, ◌-◌, ◌≤◌, IfOk, OnOk, Some, true, false, drop};
ghost use Rattle.std.specs.Prelude.{length, if◌then◌else◌};
ghost use Rattle.one_order.specs.Following.{is_finished, next_operation_of};
ghost use Rattle.report_model.specs.Programs.{AreSpinsShort, handed, is_fence};

use one_order::Follower;
use packet::Operation;
use script::Line;
use std::alloc::{AllocError, Allocator};

/// How far a script is handed to its follower.
#[derive(Clone, Copy)]
pub(crate) struct Handed {
    /// How many lines.
    pub(crate) at: usize,
    /// Whether a fence was handed behind the last operation.
    pub(crate) fence: bool,
}

/// Whether a line is a fence.
fn is_fence(line: Line) -> bool
    ensures { result ≡ is_fence line }
{
    matches!(line, Line::Fence)
}

/// Hands the lines from a place on to a follower, as long as it has finished those before.
///
/// Errors: out of memory.
pub(crate) fn hand<A: Allocator>(
    follower: &mut Follower<A>,
    lines: &[Line],
    at: usize,
) -> Result<Handed, AllocError>
    requires within { at ≤ length lines.now }
    requires spins { AreSpinsShort lines.now }
    requires few { follower.old.issued ≤ 196609 }
    ensures standing { IfOk result (λ h. handed false follower.old (drop at lines.now)
        ≡ record { following = follower.new; ahead = drop h.at lines.now; fence = h.fence }) }
    ensures within { IfOk result (λ h. h.at ≤ length lines.now) }
    ensures issued { OnOk result (follower.new.issued ≡ follower.old.issued) }
{
    let mut at = at;
    let mut fence = false;
    while at < lines.len() && follower.finished() {
        let line = lines[at];
        follower.append(line)?;
        fence = fence || is_fence(line);
        at += 1;
    }
    Ok(Handed { at, fence })
}

/// Whether an operation is the one that a follower has ready.
pub(crate) fn is_next<A: Allocator>(follower: &Follower<A>, operation: Operation) -> bool
    ensures yes { result ≡ true → next_operation_of follower.now ≡ Some operation }
    ensures no { result ≡ false → next_operation_of follower.now ≢ Some operation }
{
    match follower.next_operation() {
        Some((address, op)) => address == operation.address && op == operation.op,
        None => false,
    }
}

/// How many lines stand before the one whose operation a follower has ready, or before the end.
pub(crate) fn lines_passed<A: Allocator>(follower: &Follower<A>, at: usize) -> usize
    ensures { result ≡ at - (if is_finished follower.now then 0 else 1) }
{
    if follower.finished() {
        at
    } else {
        at.saturating_sub(1)
    }
}
