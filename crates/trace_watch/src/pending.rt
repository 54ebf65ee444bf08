//! The open operations.

ghost use Rattle.std.specs.Prelude.{◌≡◌, ◌↔◌, ◌++◌, ◌∷◌, [], ℕ, Some, IfOk, MatchOption, slice_get};
ghost use Rattle.trace_laws.specs.Configs.{IsIn};

use std::alloc::{AllocError, Allocator};
use trace_laws::Call;

/// The operation of this number, if it is one of these.
pub(crate) fn call_of(calls: &[Call], id: u64) -> Option<Call>
    ensures { MatchOption result
        ((k : ℕ) (c : Call) → slice_get calls.now k ≡ Some c → c.id ≡ id → ⊥)
        (λ c. IsIn calls.now c × (c.id ≡ id)) }
{
    for i in 0..calls.len() {
        if calls[i].id == id {
            return Some(calls[i]);
        }
    }
    None
}

/// A copy of these operations, with one more at the end.
pub(crate) fn with_call<A: Allocator>(
    alloc: A,
    calls: &[Call],
    call: Call,
) -> Result<Vec<Call, A>, AllocError>
    ensures { IfOk result (λ v. v.items ≡ calls.now ++ call ∷ []) }
{
    let mut more = Vec::with_capacity(alloc, calls.len() + 1)?;
    more.extend_from_slice(calls)?;
    more.push(call)?;
    Ok(more)
}

/// These operations without the one of this number.
pub(crate) fn without_call<A: Allocator>(
    alloc: A,
    calls: &[Call],
    id: u64,
) -> Result<Vec<Call, A>, AllocError>
    ensures { IfOk result (λ v. (c : Call) → IsIn v.items c
        ↔ (IsIn calls.now c × (c.id ≡ id → ⊥))) }
{
    let mut kept = Vec::new(alloc);
    for i in 0..calls.len() {
        let call = calls[i];
        if call.id != id {
            kept.push(call)?;
        }
    }
    Ok(kept)
}

/// Those of these operations that are on a word.
pub(crate) fn calls_on<A: Allocator>(
    alloc: A,
    calls: &[Call],
    address: u32,
) -> Result<Vec<Call, A>, AllocError>
    ensures { IfOk result (λ v. (c : Call) → IsIn v.items c
        ↔ (IsIn calls.now c × (c.operation.address ≡ address))) }
{
    let mut here = Vec::new(alloc);
    for i in 0..calls.len() {
        let call = calls[i];
        if call.operation.address == address {
            here.push(call)?;
        }
    }
    Ok(here)
}
