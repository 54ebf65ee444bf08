//! Parts of routes.

ghost use Rattle.std.specs.Prelude.{◌≡◌, ◌<◌, ℕ, None, length, IfNone, IfSome};
ghost use Rattle.network_judge.specs.Table.{table_of, columns_of, IsFull};
ghost use Rattle.network_judge.specs.Columns.{AreColumns};
ghost use Rattle.network_judge.specs.Verdicts.{AllArrive, join_at};
ghost use Rattle.network_judge.specs.Spans.{ComesAt, ComesNever, IsPoint, IsMissed};

use crate::check::next_of;
use crate::{Join, Kind};

/// A part of a route: its steps from one on to before another.
#[derive(Clone, Copy)]
pub struct Span {
    /// The injection channel of the route.
    pub from: usize,
    /// Its ejection channel.
    pub to: usize,
    /// The first step.
    pub start: usize,
    /// The step behind the last one.
    pub end: usize,
}

/// The step at which a walk is at channel x, if it comes there.
pub fn step_of(
    kinds: &[Kind],
    joins: &[Join],
    choices: &[u32],
    columns: &[usize],
    width: usize,
    from: usize,
    to: usize,
    x: usize,
) -> Option<usize>
    requires full { IsFull (table_of kinds.now joins.now choices.now) }
    requires columns { AreColumns kinds.now columns.now }
    requires width { width ≡ columns_of (table_of kinds.now joins.now choices.now) }
    ensures some { IfSome result
        (ComesAt (table_of kinds.now joins.now choices.now) from to x) }
    ensures low { IfSome result (λ step. step < length kinds.now) }
    ensures none { IfNone result
        (ComesNever (table_of kinds.now joins.now choices.now) from to x) }
{
    let mut at = from;
    for step in 0..kinds.len() {
        if at == x {
            return Some(step);
        }
        if at == to {
            return None;
        }
        match next_of(kinds, joins, choices, columns, width, at, to) {
            None => return None,
            Some(next) => at = next,
        }
    }
    None
}

/// A part at channel x, or the part there of the route of a pair, if that comes to x sooner.
fn sooner_part(
    kinds: &[Kind],
    joins: &[Join],
    choices: &[u32],
    columns: &[usize],
    width: usize,
    place: usize,
    best: Option<Span>,
    to: usize,
    x: usize,
) -> Option<Span>
    requires full { IsFull (table_of kinds.now joins.now choices.now) }
    requires columns { AreColumns kinds.now columns.now }
    requires width { width ≡ columns_of (table_of kinds.now joins.now choices.now) }
    requires arrive { AllArrive (table_of kinds.now joins.now choices.now) }
    requires place { place < length joins.now }
    requires best { IfSome best (IsPoint (table_of kinds.now joins.now choices.now) to x) }
    ensures some { IfSome result (IsPoint (table_of kinds.now joins.now choices.now) to x) }
    ensures none { IfNone result (best ≡ None
        × IsMissed (table_of kinds.now joins.now choices.now) place to x) }
{
    let pair = joins[place];
    if pair.to != to {
        return best;
    }
    match step_of(kinds, joins, choices, columns, width, pair.from, to, x) {
        None => best,
        Some(step) => {
            if let Some(span) = best {
                if span.start <= step {
                    return best;
                }
            }
            Some(Span {
                from: pair.from,
                to,
                start: step,
                end: step + 1,
            })
        }
    }
}

/// The part at channel x of a route to an ejection channel: of the route that comes to x soonest.
pub fn span_at(
    kinds: &[Kind],
    joins: &[Join],
    choices: &[u32],
    columns: &[usize],
    width: usize,
    to: usize,
    x: usize,
) -> Option<Span>
    requires full { IsFull (table_of kinds.now joins.now choices.now) }
    requires columns { AreColumns kinds.now columns.now }
    requires width { width ≡ columns_of (table_of kinds.now joins.now choices.now) }
    requires arrive { AllArrive (table_of kinds.now joins.now choices.now) }
    ensures some { IfSome result (IsPoint (table_of kinds.now joins.now choices.now) to x) }
    ensures none { IfNone result ((place : ℕ) → place < length joins.now
        → IsMissed (table_of kinds.now joins.now choices.now) place to x) }
{
    let mut best = None;
    for place in 0..joins.len() {
        best = sooner_part(kinds, joins, choices, columns, width, place, best, to, x);
    }
    best
}
