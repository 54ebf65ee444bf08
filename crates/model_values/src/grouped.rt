//! Whether the operations of each processor stand together.

ghost use Rattle.std.specs.Prelude.{◌≡◌, ℕ, ◌+◌, ◌<◌, ◌≤◌, true, false, length};
ghost use Rattle.memory_models.specs.Trace.{operation_at};
ghost use Rattle.model_values.specs.Replies.{AreGrouped};

use crate::valued::Valued;

/// Whether no operation before one is of a processor with a greater number, as far as the one just before
/// it shows.
fn is_behind(valued: &Valued, y: usize) -> bool
    requires y { y < length valued.now.operations.now }
    ensures yes { result ≡ true → (x : ℕ) → x + 1 ≡ y
        → (operation_at valued.now.operations.now x).processor
        ≤ (operation_at valued.now.operations.now y).processor }
    ensures no { result ≡ false → ((x : ℕ) → x + 1 ≡ y
        → (operation_at valued.now.operations.now x).processor
        ≤ (operation_at valued.now.operations.now y).processor) → ⊥ }
{
    y == 0 || valued.operations[y - 1].processor <= valued.operations[y].processor
}

/// Whether the operations of each processor stand together, and their words are below the number of words.
pub fn are_grouped(valued: &Valued) -> bool
    ensures yes { result ≡ true → AreGrouped valued.now }
    ensures no { result ≡ false → AreGrouped valued.now → ⊥ }
{
    for y in 0..valued.operations.len() {
        if valued.operations[y].word >= valued.words {
            return false;
        }
        if !is_behind(valued, y) {
            return false;
        }
    }
    true
}
