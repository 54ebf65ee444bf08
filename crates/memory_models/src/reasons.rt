//! Why one operation of a cycle comes before another.

ghost use Rattle.std.specs.Prelude.{◌≡◌, ◌<◌, ℕ, true, false, length};
ghost use Rattle.memory_models.specs.Order.{KeepsOrder};
ghost use Rattle.memory_models.specs.Arcs.{IsWhy, IsArc};
ghost use Rattle.memory_models.specs.Reasons.{applies_at, reads_from_at, is_stale_write_at};

use crate::kinds::{Operation, Rule, Why, has, is_load, is_write, rule_key};
use crate::program::writes_rule;

/// Whether a rule keeps two operations in their order.
fn applies(rule: Rule, operations: &[Operation], x: usize, y: usize) -> bool
    requires x { x < length operations.now }
    requires y { y < length operations.now }
    ensures { result ≡ applies_at rule operations.now x y }
{
    operations[x].processor == operations[y].processor
        && (x < y
            && (has(rule.from, operations[x].kind)
                && (has(rule.to, operations[y].kind)
                    && rule_key(rule, operations[x]) == rule_key(rule, operations[y]))))
}

/// Whether the rules of a model keep two operations, by their places in the program, in their order.
pub fn keeps(rules: &[Rule], operations: &[Operation], x: usize, y: usize) -> bool
    requires x { x < length operations.now }
    requires y { y < length operations.now }
    ensures kept { result ≡ true → KeepsOrder rules.now operations.now x y }
    ensures other { result ≡ false → KeepsOrder rules.now operations.now x y → ⊥ }
{
    for k in 0..rules.len() {
        if applies(rules[k], operations, x, y) {
            return true;
        }
    }
    applies(writes_rule(), operations, x, y)
}

/// Whether a load read what an operation wrote that isn't of its processor before it.
pub(crate) fn reads_from(operations: &[Operation], writes: &[usize], x: usize, y: usize) -> bool
    requires x { x < length operations.now }
    requires y { y < length operations.now }
    ensures { result ≡ reads_from_at operations.now writes.now x y }
{
    let place = operations[y].place;
    let source = if place < writes.len() {
        writes[place]
    } else {
        0
    };
    source == x
        && (is_load(operations[y].kind)
            && !(operations[x].processor == operations[y].processor && x < y))
}

/// Whether a load read an older write than one that its processor made before it on its word.
pub(crate) fn is_stale_write(operations: &[Operation], x: usize, y: usize) -> bool
    requires x { x < length operations.now }
    requires y { y < length operations.now }
    ensures { result ≡ is_stale_write_at operations.now x y }
{
    is_load(operations[y].kind)
        && (is_write(operations[x].kind)
            && (operations[x].processor == operations[y].processor
                && (x < y
                    && (operations[x].word == operations[y].word
                        && operations[y].place < operations[x].place))))
}

/// Why one operation comes before another, where there is a reason.
pub fn why_of(rules: &[Rule], operations: &[Operation], writes: &[usize], x: usize, y: usize) -> Why
    requires { IsArc rules.now operations.now writes.now x y }
    ensures { IsWhy rules.now operations.now writes.now x y result }
{
    if keeps(rules, operations, x, y) {
        return Why::Program;
    }
    if reads_from(operations, writes, x, y) {
        return Why::Read;
    }
    if is_stale_write(operations, x, y) {
        return Why::Stale;
    }
    Why::Overwritten
}
