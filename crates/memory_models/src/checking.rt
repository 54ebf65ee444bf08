//! Whether operations and writes are a trace.

ghost use Rattle.std.specs.Prelude.{◌≡◌, ◌<◌, true, false, length};
ghost use Rattle.memory_models.specs.Trace.{IsMemoryTrace};
ghost use Rattle.memory_models.specs.Checks.{IsGoodOperation, IsGoodWrite};

use crate::kinds::{Operation, is_write, uses_word};

/// Whether an operation stands behind those of lower processors, on a word, at a place of its word
/// that is its own if it writes.
fn is_good_operation(operations: &[Operation], writes: &[usize], words: usize, x: usize) -> bool
    requires { x < length operations.now }
    ensures yes { result ≡ true → IsGoodOperation words operations.now writes.now x }
    ensures no { result ≡ false → IsGoodOperation words operations.now writes.now x → ⊥ }
{
    let operation = operations[x];
    if x > 0 && operations[x - 1].processor > operation.processor {
        return false;
    }
    if operation.word >= words {
        return false;
    }
    if !uses_word(operation.kind) {
        return true;
    }
    if operation.place >= writes.len() {
        return false;
    }
    let source = writes[operation.place];
    if source >= operations.len() || operations[source].word != operation.word {
        return false;
    }
    !is_write(operation.kind) || source == x
}

/// Whether a write has its place, behind those of lower words.
fn is_good_write(operations: &[Operation], writes: &[usize], p: usize) -> bool
    requires { p < length writes.now }
    ensures yes { result ≡ true → IsGoodWrite operations.now writes.now p }
    ensures no { result ≡ false → IsGoodWrite operations.now writes.now p → ⊥ }
{
    let x = writes[p];
    if x >= operations.len() || !is_write(operations[x].kind) || operations[x].place != p {
        return false;
    }
    if p == 0 {
        return true;
    }
    let before = writes[p - 1];
    before < operations.len() && operations[before].word <= operations[x].word
}

/// Whether operations and the places of writes are a trace.
pub fn is_trace(operations: &[Operation], writes: &[usize], words: usize) -> bool
    ensures yes { result ≡ true → IsMemoryTrace words operations.now writes.now }
    ensures no { result ≡ false → IsMemoryTrace words operations.now writes.now → ⊥ }
{
    for x in 0..operations.len() {
        if !is_good_operation(operations, writes, words, x) {
            return false;
        }
    }
    for p in 0..writes.len() {
        if !is_good_write(operations, writes, p) {
            return false;
        }
    }
    true
}
