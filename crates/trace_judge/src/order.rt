//! The search for an order, as far as each word has a branch.

ghost use Rattle.std.specs.Prelude.{◌≡◌, ◌<◌, ◌+◌, ℕ, List, true, IfOk, IfErr, MatchOption, length};
ghost use Rattle.std.specs.Prelude.{Some, None};
ghost use Rattle.trace_laws.specs.Traces.{IsTrace};
ghost use Rattle.trace_laws.specs.Orders.{IsOrder, IsLinearizable};
ghost use Rattle.trace_laws.specs.Searches.{IsTrail, order_of};
ghost use Rattle.trace_judge.specs.Searched.{HasSearched};
ghost use Rattle.trace_judge.specs.Stops.{IsBeginning, IsUndecided, TellsMany};
ghost use Rattle.trace_judge.specs.Verdicts.{IsGoodUntil};
ghost use Rattle.trace_judge.specs.Marks.{AreNodes, IsBelow, AreMarked, ArePicked};
ghost use Rattle.trace_judge.specs.Sets.{lists_of};

use crate::nodes::no_marks;
use crate::search::{Search, start};
use crate::stuck::answer_from;
use crate::undecided::Undecided;
use std::alloc::{AllocError, Allocator};
use trace_laws::{Call, Event, Node};

/// The event at which a search ended, since a word had no branch left; a guess of the first event up
/// to which no order explains the trace; and whether zones in conflict showed it, with no search.
#[derive(Clone, Copy, Default)]
pub(crate) struct Ended {
    pub event: usize,
    pub guess: usize,
    pub zoned: bool,
}

/// Goes through the events, as long as each word has a branch, and notes the event that left none.
fn run<A: Allocator + Copy>(
    alloc: A,
    opening: &[u64],
    events: &[Event],
    whole: &[Event],
    bound: usize,
    ended: &mut Ended,
) -> Result<Option<Search<A>>, Undecided>
    requires trace { IsTrace (length opening.now) events.now }
    requires beginning { IsBeginning events.now whole.now }
    ensures undecided { IfErr result (IsUndecided whole.now) }
    ensures full { IfErr result (TellsMany opening.now whole.now bound) }
    ensures ended { IfOk result (λ found. found ≡ None
        → IsGoodUntil opening.now events.now ended.new.event) }
    ensures decided { IfOk result (λ found. MatchOption found
        (IsLinearizable opening.now events.now → ⊥)
        (λ search. HasSearched opening.now events.now whole.now (length events.now) search)) }
{
    let mut search = start(alloc, opening, events, whole)?;
    for k in 0..events.len() {
        if !search.step(alloc, opening, events, whole, k, bound)? {
            *ended = Ended {
                event: k,
                guess: answer_from(events, k, search.stuck),
                zoned: false,
            };
            return Ok(None);
        }
    }
    Ok(Some(search))
}

/// Marks the nodes on the way back from one.
fn mark(marks: &mut [bool], nodes: &[Node], last: Option<usize>)
    requires sized { length marks.old ≡ length nodes.now }
    requires back { AreNodes nodes.now }
    requires below { IsBelow nodes.now last }
    ensures { (trail : List ℕ) × IsTrail nodes.now last trail
        × AreMarked marks.old trail marks.new }
{
    let mut next = last;
    while let Some(i) = next {
        marks[i] = true;
        next = nodes[i].before;
    }
}

/// Marks the nodes on the way to the first branch of each word.
fn mark_all<A: Allocator + Copy>(
    alloc: A,
    search: &Search<A>,
    opening: &[u64],
    events: &[Event],
    whole: &[Event],
) -> Result<Vec<bool, A>, AllocError>
    requires { HasSearched opening.now events.now whole.now (length events.now) search.now }
    ensures { IfOk result (λ v. ArePicked (length opening.now) (lists_of search.now.words.items)
        search.now.nodes.items v.items) }
{
    let mut marks = no_marks(alloc, search.nodes.len())?;
    for word in 0..search.words.len() {
        let branches = &search.words[word];
        mark(&mut marks, &search.nodes, branches[0].trail);
    }
    Ok(marks)
}

/// The operations of the marked nodes.
fn collect<A: Allocator + Copy>(
    alloc: A,
    nodes: &[Node],
    marks: &[bool],
) -> Result<Vec<Call, A>, AllocError>
    requires { length marks.now ≡ length nodes.now }
    ensures { IfOk result (λ v. v.items ≡ order_of nodes.now marks.now) }
{
    let mut order = Vec::new(alloc);
    for i in 0..nodes.len() {
        if marks[i] {
            order.push(nodes[i].call)?;
        }
    }
    Ok(order)
}

/// The order on the ways to the first branch of each word, behind the last event.
///
/// Errors: out of memory.
pub(crate) fn order_found<A: Allocator + Copy>(
    alloc: A,
    search: &Search<A>,
    opening: &[u64],
    events: &[Event],
    whole: &[Event],
) -> Result<Vec<Call, A>, AllocError>
    requires { HasSearched opening.now events.now whole.now (length events.now) search.now }
    ensures { IfOk result (λ order. IsOrder opening.now events.now order.items) }
{
    let marks = mark_all(alloc, search, opening, events, whole)?;
    let order = collect(alloc, &search.nodes, &marks)?;
    Ok(order)
}

/// An order that explains the trace, if there is one; else the event at which the search ended is noted.
pub(crate) fn find_order<A: Allocator + Copy>(
    alloc: A,
    opening: &[u64],
    events: &[Event],
    whole: &[Event],
    bound: usize,
    ended: &mut Ended,
) -> Result<Option<Vec<Call, A>>, Undecided>
    requires trace { IsTrace (length opening.now) events.now }
    requires beginning { IsBeginning events.now whole.now }
    ensures undecided { IfErr result (IsUndecided whole.now) }
    ensures full { IfErr result (TellsMany opening.now whole.now bound) }
    ensures ended { IfOk result (λ found. found ≡ None
        → IsGoodUntil opening.now events.now ended.new.event) }
    ensures decided { IfOk result (λ found. MatchOption found
        (IsLinearizable opening.now events.now → ⊥)
        (λ order. IsOrder opening.now events.now order.items)) }
{
    let Some(search) = run(alloc, opening, events, whole, bound, ended)? else {
        return Ok(None);
    };
    let order = order_found(alloc, &search, opening, events, whole)?;
    Ok(Some(order))
}
