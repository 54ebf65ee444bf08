//! Values that a word may have: a set that grows.

ghost use Rattle.std.specs.Prelude.{◌≡◌, ◌<◌, ◌⊎◌, ℕ, true, Some, OnOk, IfErr, Contains, length};
ghost use Rattle.std.specs.Prelude.{slice_get};
ghost use Rattle.packet.specs.Memory.{new_word};
ghost use Rattle.trace_why.specs.declared.calls.CallAt.{CallAt};
ghost use Rattle.trace_why.specs.Values.{AreApart, AreApartAnd, AreClosed, IsLeftOf};
ghost use Rattle.trace_why.specs.Values.{IsOverfullWord, IsReachedIn};

use crate::calls::CallAt;
use crate::untold::Untold;
use packet::apply;
use std::alloc::Allocator;

/// Adds a value, unless it is there.
pub(crate) fn add<A: Allocator>(
    values: &mut Vec<u64, A>,
    value: u64,
    bound: usize,
) -> Result<(), Untold>
    requires { AreApart values.old.items }
    ensures there { OnOk result (Contains values.new.items value) }
    ensures kept { OnOk result
        ((v : ℕ) → Contains values.old.items v → Contains values.new.items v) }
    ensures only { OnOk result (AreApartAnd
        (λ v. Contains values.old.items v ⊎ (v ≡ value)) values.new.items) }
    ensures untold { IfErr result (IsOverfullWord
        (λ v. Contains values.old.items v ⊎ (v ≡ value)) bound) }
{
    if values.contains(&value) {
        return Ok(());
    }
    if values.len() >= bound {
        return Err(Untold::Values);
    }
    if values.push(value).is_err() {
        return Err(Untold::Memory);
    }
    Ok(())
}

/// Adds what each of some operations leaves that finds a value.
fn grow_one<A: Allocator>(
    values: &mut Vec<u64, A>,
    calls: &[CallAt],
    value: u64,
    bound: usize,
) -> Result<(), Untold>
    requires { AreApart values.old.items }
    ensures kept { OnOk result
        ((v : ℕ) → Contains values.old.items v → Contains values.new.items v) }
    ensures grown { OnOk result ((c : CallAt) → Contains calls.now c
        → Contains values.new.items (new_word c.call.operation.op value)) }
    ensures only { OnOk result (AreApartAnd (IsLeftOf values.old.items calls.now value)
        values.new.items) }
    ensures untold { IfErr result (IsOverfullWord
        (IsLeftOf values.old.items calls.now value) bound) }
{
    for found in calls {
        add(values, apply(found.call.operation.op, value).0, bound)?;
    }
    Ok(())
}

/// Adds what each of some operations leaves that finds one of the values.
fn grow<A: Allocator + Copy>(
    alloc: A,
    values: &mut Vec<u64, A>,
    calls: &[CallAt],
    bound: usize,
) -> Result<(), Untold>
    requires { AreApart values.old.items }
    ensures kept { OnOk result
        ((v : ℕ) → Contains values.old.items v → Contains values.new.items v) }
    ensures grown { OnOk result ((v : ℕ) (c : CallAt) → Contains values.old.items v
        → Contains calls.now c → Contains values.new.items (new_word c.call.operation.op v)) }
    ensures only { OnOk result (AreApartAnd (IsReachedIn values.old.items calls.now 1)
        values.new.items) }
    ensures untold { IfErr result (IsOverfullWord
        (IsReachedIn values.old.items calls.now 1) bound) }
{
    let old = Vec::from_slice(alloc, values)?;
    for value in &old {
        grow_one(values, calls, *value, bound)?;
    }
    Ok(())
}

/// Whether all is among some values that one of these operations leaves which finds this one.
fn has_left(values: &[u64], calls: &[CallAt], value: u64) -> bool
    ensures { result ≡ true → (j : ℕ) (c : CallAt) → slice_get calls.now j ≡ Some c
        → Contains values.now (new_word c.call.operation.op value) }
{
    for j in 0..calls.len() {
        if !values.contains(&apply(calls[j].call.operation.op, value).0) {
            return false;
        }
    }
    true
}

/// Whether all is among some values that one of these operations leaves which finds one of them.
fn are_closed(values: &[u64], calls: &[CallAt]) -> bool
    ensures { result ≡ true → AreClosed values.now calls.now }
{
    for x in 0..values.len() {
        if !has_left(values, calls, values[x]) {
            return false;
        }
    }
    true
}

/// Adds what some operations leave, each of them once at most, one after the other.
pub(crate) fn reach<A: Allocator + Copy>(
    alloc: A,
    values: &mut Vec<u64, A>,
    calls: &[CallAt],
    bound: usize,
) -> Result<(), Untold>
    requires { AreApart values.old.items }
    ensures all { OnOk result ((v : ℕ) → IsReachedIn values.old.items calls.now (length calls.now) v
        → Contains values.new.items v) }
    ensures only { OnOk result (AreApartAnd
        (IsReachedIn values.old.items calls.now (length calls.now)) values.new.items) }
    ensures untold { IfErr result (IsOverfullWord
        (IsReachedIn values.old.items calls.now (length calls.now)) bound) }
{
    for _ in 0..calls.len() {
        if are_closed(values, calls) {
            return Ok(());
        }
        grow(alloc, values, calls, bound)?;
    }
    Ok(())
}
