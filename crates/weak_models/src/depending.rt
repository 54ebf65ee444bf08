//! Dependencies of operations.

ghost use Rattle.std.specs.Prelude.{◌≡◌, true, false};
ghost use Rattle.weak_models.specs.Notes.{DependsWithin};

use crate::notes::{Dependency, DependencyKind};

/// Whether an operation of a range depends on another in some way.
pub fn depends_within(
    dependencies: &[Dependency],
    kind: DependencyKind,
    on: usize,
    low: usize,
    high: usize,
) -> bool
    ensures yes { result ≡ true → DependsWithin dependencies.now kind on low high }
    ensures no { result ≡ false → DependsWithin dependencies.now kind on low high → ⊥ }
{
    for k in 0..dependencies.len() {
        let dependency = dependencies[k];
        if dependency.kind == kind
            && dependency.on == on
            && low <= dependency.operation
            && dependency.operation < high
        {
            return true;
        }
    }
    false
}
