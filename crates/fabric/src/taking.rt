// Values are taken out of the slots of a list, into slots of their own.
ghost use Rattle.std.specs.Prelude.{◌≡◌, ◌≢◌, ◌↔◌, true, false, ℕ, ◌<◌, ◌≤◌, IfOk, length, map};
ghost use Rattle.std.specs.Prelude.{Some, None, slice_get};

use std::alloc::{AllocError, Allocator};

// Every value in a slot.
pub(crate) fn filled<T: Drop, A: Allocator + Copy>(
    alloc: A,
    values: Vec<T, A>,
) -> Result<Vec<Option<T>, A>, AllocError>
    ensures { IfOk result (λ v. v.items ≡ map (λ x. Some x) values.items) }
{
    let mut all = Vec::new(alloc);
    for value in values {
        all.push(Some(value))?;
    }
    Ok(all)
}

// What the slot t holds, where it is wanted.
fn take_if<T: Drop, A: Allocator>(all: &mut Vec<Option<T>, A>, t: usize, wanted: bool) -> Option<T>
    requires { t < length all.old.items }
    ensures wanted { wanted ≡ true → slice_get all.old.items t ≡ Some result }
    ensures not_wanted { wanted ≡ false → (result ≡ None) × (all.new.items ≡ all.old.items) }
    ensures same { length all.new.items ≡ length all.old.items }
    ensures others { (k : ℕ) → k ≢ t → slice_get all.new.items k ≡ slice_get all.old.items k }
{
    if wanted { all[t].take() } else { None }
}

fn is_between(t: usize, from: usize, to: usize) -> bool
    ensures { (result ≡ true) ↔ ((from ≤ t) × (t < to)) }
{
    from <= t && t < to
}

// The values from `from` on, below `to`, in as many slots as there are.
pub(crate) fn taken<T: Drop, A: Allocator + Copy>(
    alloc: A,
    all: &mut Vec<Option<T>, A>,
    from: usize,
    to: usize,
) -> Result<Vec<Option<T>, A>, AllocError>
    ensures len { IfOk result (λ v. length v.items ≡ length all.old.items) }
    ensures inside { IfOk result
        (λ v. (t : ℕ) → from ≤ t → t < to → slice_get v.items t ≡ slice_get all.old.items t) }
    ensures outside { IfOk result
        (λ v. (t : ℕ) (x : T) → slice_get v.items t ≡ Some (Some x) → (from ≤ t) × (t < to)) }
    ensures same { length all.new.items ≡ length all.old.items }
    ensures rest { (t : ℕ) → to ≤ t → slice_get all.new.items t ≡ slice_get all.old.items t }
{
    let mut slots = Vec::new(alloc);
    for t in 0..all.len() {
        let wanted = is_between(t, from, to);
        let slot = take_if(all, t, wanted);
        slots.push(slot)?;
    }
    Ok(slots)
}
