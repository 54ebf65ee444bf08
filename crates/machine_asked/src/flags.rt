//! What is kept of scripts: whether each has a spin, and how many operations it makes at most.

ghost use Rattle.std.specs.Prelude.{◌≡◌, ◌+◌, ◌<◌, ◌≤◌, IfOk, map, length, slice_index, slice_set};
ghost use Rattle.script_lines.specs.Lines.{operation_count, operations_of};
ghost use Rattle.machine_asked.specs.Asked.{has_spin, is_operation, is_spin, spins_with};

use order_book::operation_count;
use script::{Line, Scripts};
use std::alloc::{AllocError, Allocator};

/// Whether a line is a spin.
pub(crate) fn is_spin(line: Line) -> bool
    ensures { result ≡ is_spin line }
{
    match line {
        Line::Spin(_, _, _) => true,
        Line::Fence => false,
        Line::Load(_) => false,
        Line::Store(_, _) => false,
        Line::Swap(_, _) => false,
        Line::Cas(_, _, _) => false,
        Line::Add(_, _) => false,
        Line::And(_, _) => false,
        Line::Or(_, _) => false,
        Line::Xor(_, _) => false,
        Line::Max(_, _) => false,
        Line::Min(_, _) => false,
    }
}

/// Whether a line is one operation, and so neither a fence nor a spin.
pub(crate) fn is_operation(line: Line) -> bool
    ensures { result ≡ is_operation line }
{
    match line {
        Line::Spin(_, _, _) => false,
        Line::Fence => false,
        Line::Load(_) => true,
        Line::Store(_, _) => true,
        Line::Swap(_, _) => true,
        Line::Cas(_, _, _) => true,
        Line::Add(_, _) => true,
        Line::And(_, _) => true,
        Line::Or(_, _) => true,
        Line::Xor(_, _) => true,
        Line::Max(_, _) => true,
        Line::Min(_, _) => true,
    }
}

/// Whether a script has a spin.
fn has_spin(lines: &[Line]) -> bool
    ensures { result ≡ has_spin lines.now }
{
    for line in lines {
        if is_spin(*line) {
            return true;
        }
    }
    false
}

/// Of each of so many scripts whether it has a spin.
pub(crate) fn spins_of<A: Allocator + Copy>(
    alloc: A,
    scripts: &Scripts<A>,
    tiles: u32,
) -> Result<Vec<bool, A>, AllocError>
    requires { length scripts.now.lists ≡ tiles }
    ensures { IfOk result (λ spins. spins.items ≡ map has_spin scripts.now.lists) }
{
    let mut spins = Vec::new(alloc);
    for processor in 0..tiles {
        if let Some(lines) = scripts.lines(processor) {
            spins.push(has_spin(lines))?;
        }
    }
    Ok(spins)
}

/// The most operations that each of so many scripts makes.
pub(crate) fn counts_of<A: Allocator + Copy>(
    alloc: A,
    scripts: &Scripts<A>,
    tiles: u32,
) -> Result<Vec<u32, A>, AllocError>
    requires tiles { length scripts.now.lists ≡ tiles }
    ensures { IfOk result (λ counts. counts.items ≡ map operation_count scripts.now.lists) }
{
    let mut counts = Vec::new(alloc);
    for processor in 0..tiles {
        if let Some(lines) = scripts.lines(processor) {
            counts.push(operation_count(lines) as u32)?;
        }
    }
    Ok(counts)
}

/// Counts the operations of a line that a script has more.
pub(crate) fn count_more<A: Allocator>(counts: &mut Vec<u32, A>, own: usize, line: Line)
    requires there { own < length counts.old.items }
    requires few { slice_index counts.old.items own + operations_of line ≤ 4096 }
    ensures { counts.new.items
        ≡ slice_set counts.old.items own (slice_index counts.old.items own + operations_of line) }
{
    counts[own] += line.operations();
}

/// Notes of a script whether it has a spin with a line more.
pub(crate) fn mark_spin<A: Allocator>(spins: &mut Vec<bool, A>, own: usize, line: Line)
    requires { own < length spins.old.items }
    ensures { spins.new.items ≡ spins_with spins.old.items own line }
{
    let had = spins[own];
    spins[own] = had | is_spin(line);
}
