//! Whether each word's writes begin with its opening store.

ghost use Rattle.std.specs.Prelude.{◌≡◌, ◌<◌, true, length};
ghost use Rattle.model_text.specs.Traces.{AreOpened, IsOpenedAt};

use memory_models::Operation;

/// Whether the write at a place is an opening store, or stands behind a write of its word.
fn is_opened_at(operations: &[Operation], writes: &[usize], openings: usize, p: usize) -> bool
    requires { p < length writes.now }
    ensures { result ≡ true → IsOpenedAt openings operations.now writes.now p }
{
    let x = writes[p];
    if x < openings {
        return true;
    }
    if p == 0 || x >= operations.len() {
        return false;
    }
    let before = writes[p - 1];
    before < operations.len() && operations[before].word == operations[x].word
}

/// Whether each word's writes begin with an opening store.
pub(crate) fn are_opened(operations: &[Operation], writes: &[usize], openings: usize) -> bool
    ensures { result ≡ true → AreOpened openings operations.now writes.now }
{
    for p in 0..writes.len() {
        if !is_opened_at(operations, writes, openings, p) {
            return false;
        }
    }
    true
}
