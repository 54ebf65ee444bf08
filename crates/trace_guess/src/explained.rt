//! Whether an order explains a trace.

ghost use Rattle.std.specs.Prelude.{◌≡◌, ◌≤◌, ◌<◌, ℕ, true, Some, IfOk, MatchOption, length, slice_get};
ghost use Rattle.packet.specs.declared.kinds.Reply.{Reply};
ghost use Rattle.packet.specs.Memory.{memory_after_one, reply_of_one, replies};
ghost use Rattle.trace_laws.specs.declared.event.Event.TheVariants.{Answer};
ghost use Rattle.trace_laws.specs.Orders.{IsOrder, operations_of};
ghost use Rattle.trace_laws.specs.Traces.{IsTrace, TraceIssuesAt};
ghost use Rattle.trace_guess.specs.Explained.{AreIssued, IsPlacedAt, StandsBelow, AreHeights, AreAllBelow};
ghost use Rattle.trace_guess.specs.Explained.{IsBehindAnswered};

use packet::{Reply, apply};
use std::alloc::{AllocError, Allocator};
use trace_laws::{Call, Event};

/// The operation that event i issues, if it issues one.
fn issue_at(events: &[Event], i: usize) -> Option<Call>
    ensures { MatchOption result (Unit {0}) (λ c. TraceIssuesAt events.now i c) }
{
    if i >= events.len() {
        return None;
    }
    match events[i] {
        Event::Issue(call) => Some(call),
        Event::Answer(..) => None,
    }
}

/// The operations that these events issue, if each of them issues one.
fn calls_at<A: Allocator>(
    alloc: A,
    events: &[Event],
    issues: &[usize],
) -> Result<Option<Vec<Call, A>>, AllocError>
    ensures { IfOk result (λ found. MatchOption found (Unit {0})
        (λ v. AreIssued events.now issues.now v.items)) }
{
    let mut order = Vec::new(alloc);
    for x in 0..issues.len() {
        let Some(call) = issue_at(events, issues[x]) else {
            return Ok(None);
        };
        order.push(call)?;
    }
    Ok(Some(order))
}

/// The reply to an operation, which takes effect, if there is its word.
fn serve(words: &mut [u64], call: Call) -> Option<Reply>
    ensures { MatchOption result (Unit {0}) (λ reply.
        (reply ≡ reply_of_one call.operation words.old)
        × (words.new ≡ memory_after_one call.operation words.old)) }
{
    let address = call.operation.address as usize;
    if address >= words.len() {
        return None;
    }
    let (word, reply) = apply(call.operation.op, words[address]);
    words[address] = word;
    Some(reply)
}

/// The replies of one memory to the operations of an order, if these are all on its words.
fn told_by<A: Allocator>(
    alloc: A,
    words: &mut [u64],
    order: &[Call],
) -> Result<Option<Vec<Reply, A>>, AllocError>
    ensures { IfOk result (λ found. MatchOption found (Unit {0})
        (λ v. v.items ≡ replies (operations_of order.now) words.old)) }
{
    let mut told = Vec::new(alloc);
    for x in 0..order.len() {
        let Some(reply) = serve(words, order[x]) else {
            return Ok(None);
        };
        told.push(reply)?;
    }
    Ok(Some(told))
}

/// Whether the operation of this number stands at a place, and has this reply there.
fn stands_at(order: &[Call], told: &[Reply], x: usize, id: u64, reply: Reply) -> bool
    ensures { result ≡ true → IsPlacedAt order.now told.now id reply x }
{
    x < order.len() && x < told.len() && order[x].id == id && told[x] == reply
}

/// A place from this one on, before which the operation stands that an event answers; nothing, where it doesn't
/// stand at its place, or has another reply there.
fn height_after(
    order: &[Call],
    told: &[Reply],
    event: Event,
    place: usize,
    height: usize,
) -> Option<usize>
    ensures { MatchOption result (Unit {0}) (λ h. (height ≤ h)
        × ((id : ℕ) (reply : Reply) → event ≡ Answer id reply
        → StandsBelow order.now told.now id reply h)) }
{
    let Event::Answer(id, reply) = event else {
        return Some(height);
    };
    if place >= order.len() || !stands_at(order, told, place, id, reply) {
        return None;
    }
    Some(height.max(place + 1))
}

/// Of each event a place before which all stands that is answered before it; nothing, where an answered operation
/// doesn't stand at its place, or has another reply there.
fn heights_of<A: Allocator>(
    alloc: A,
    events: &[Event],
    order: &[Call],
    told: &[Reply],
    places: &[usize],
) -> Result<Option<Vec<usize, A>>, AllocError>
    ensures { IfOk result (λ found. MatchOption found (Unit {0})
        (λ v. AreHeights events.now order.now told.now v.items
        × AreAllBelow events.now order.now told.now)) }
{
    let mut heights = Vec::new(alloc);
    let mut height = 0usize;
    for k in 0..events.len() {
        heights.push(height)?;
        let place = places.get(k).copied().unwrap_or(usize::MAX);
        let Some(next) = height_after(order, told, events[k], place, height) else {
            return Ok(None);
        };
        height = next;
    }
    Ok(Some(heights))
}

/// Whether an event has this place, and what is answered before it stands before that.
fn is_behind(heights: &[usize], places: &[usize], x: usize, i: usize) -> bool
    ensures { result ≡ true → IsBehindAnswered heights.now places.now x i }
{
    i < heights.len() && i < places.len() && heights[i] <= x && places[i] == x
}

/// Whether the x-th of these events has place x, for each x, and whatever is answered before it stands at a
/// place before x.
fn are_behind(issues: &[usize], heights: &[usize], places: &[usize]) -> bool
    ensures { result ≡ true → (x i : ℕ) → slice_get issues.now x ≡ Some i
        → IsBehindAnswered heights.now places.now x i }
{
    for x in 0..issues.len() {
        if !is_behind(heights, places, x, issues[x]) {
            return false;
        }
    }
    true
}

/// Whether an order explains the trace over these words, on which its operations take effect. The place in it of the
/// operation of each event is to be right, else the answer is no.
fn is_order<A: Allocator + Copy>(
    alloc: A,
    words: &mut [u64],
    events: &[Event],
    issues: &[usize],
    places: &[usize],
    order: &[Call],
) -> Result<bool, AllocError>
    requires trace { IsTrace (length words.old) events.now }
    requires issued { AreIssued events.now issues.now order.now }
    ensures { IfOk result (λ b. b ≡ true → IsOrder words.old events.now order.now) }
{
    let Some(told) = told_by(alloc, words, order)? else {
        return Ok(false);
    };
    let Some(heights) = heights_of(alloc, events, order, &told, places)? else {
        return Ok(false);
    };
    Ok(are_behind(issues, &heights, places))
}

/// A copy of these words.
fn copy_of<A: Allocator>(alloc: A, opening: &[u64]) -> Result<Vec<u64, A>, AllocError>
    ensures { IfOk result (λ v. v.items ≡ opening.now) }
{
    let mut words = Vec::new(alloc);
    words.extend_from_slice(opening)?;
    Ok(words)
}

/// The order of the operations that these events issue, if it explains the trace. The place in it of the operation
/// of each event is to be right, else there is none.
pub fn explained<A: Allocator + Copy>(
    alloc: A,
    opening: &[u64],
    events: &[Event],
    issues: &[usize],
    places: &[usize],
) -> Result<Option<Vec<Call, A>>, AllocError>
    requires { IsTrace (length opening.now) events.now }
    ensures { IfOk result (λ found. MatchOption found (Unit {0})
        (λ order. IsOrder opening.now events.now order.items)) }
{
    let Some(order) = calls_at(alloc, events, issues)? else {
        return Ok(None);
    };
    let mut words = copy_of(alloc, opening)?;
    if !is_order(alloc, &mut words, events, issues, places, &order)? {
        return Ok(None);
    }
    Ok(Some(order))
}
