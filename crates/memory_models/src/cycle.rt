//! Whether steps go around.

ghost use Rattle.std.specs.Prelude.{◌≡◌, ◌<◌, ◌+◌, ◌-◌, true, length, IfSome};
ghost use Rattle.memory_models.specs.Arcs.{IsWhy, IsArc, IsOverwritten};
ghost use Rattle.memory_models.specs.Order.{KeepsOrder};
ghost use Rattle.memory_models.specs.Verdict.{AreAround};

use crate::kinds::{Operation, Rule, Step, Why, uses_word};
use crate::reasons::{is_stale_write, keeps, reads_from};

/// Whether the second is the write that follows in the word's order on the place of the first.
fn is_overwritten(operations: &[Operation], writes: &[usize], x: usize, y: usize) -> bool
    requires x { x < length operations.now }
    requires y { y < length operations.now }
    ensures { result ≡ true → IsOverwritten operations.now writes.now x y }
{
    let operation = operations[x];
    if !uses_word(operation.kind) || operation.place >= writes.len() {
        return false;
    }
    let next = operation.place + 1;
    if next >= writes.len() {
        return false;
    }
    writes[next] == y && operations[y].word == operation.word
}

/// Why one operation comes before another, if it does.
pub fn reason_of(
    rules: &[Rule],
    operations: &[Operation],
    writes: &[usize],
    x: usize,
    y: usize,
) -> Option<Why>
    requires x { x < length operations.now }
    requires y { y < length operations.now }
    ensures { IfSome result (IsWhy rules.now operations.now writes.now x y) }
{
    if keeps(rules, operations, x, y) {
        return Some(Why::Program);
    }
    if reads_from(operations, writes, x, y) {
        return Some(Why::Read);
    }
    if is_stale_write(operations, x, y) {
        return Some(Why::Stale);
    }
    if is_overwritten(operations, writes, x, y) {
        return Some(Why::Overwritten);
    }
    None
}

/// Whether a step has a reason.
fn has_reason(rules: &[Rule], operations: &[Operation], writes: &[usize], step: Step) -> bool
    ensures { result ≡ true → IsArc rules.now operations.now writes.now step.from step.to }
{
    if step.from >= operations.len() || step.to >= operations.len() {
        return false;
    }
    reason_of(rules, operations, writes, step.from, step.to).is_some()
}

/// Whether steps have reasons, each leads to the next, and the last one to the first.
pub fn is_cycle(rules: &[Rule], operations: &[Operation], writes: &[usize], steps: &[Step]) -> bool
    ensures { result ≡ true → AreAround rules.now operations.now writes.now steps.now }
{
    if steps.is_empty() {
        return false;
    }
    for k in 0..steps.len() {
        if !has_reason(rules, operations, writes, steps[k]) {
            return false;
        }
    }
    for k in 1..steps.len() {
        if steps[k - 1].to != steps[k].from {
            return false;
        }
    }
    steps[steps.len() - 1].to == steps[0].from
}
