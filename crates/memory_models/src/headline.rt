//! The judgements in the words of a machine.

ghost use Rattle.std.specs.Prelude.{IfOk};
ghost use Rattle.memory_models.specs.Trace.{IsMemoryTrace};
ghost use Rattle.memory_models.specs.Headline.{IsSequentialVerdict, IsBufferVerdict};
ghost use Rattle.memory_models.specs.Headline.{IsWordBufferVerdict, IsWordVerdict};

use crate::judging::judge;
use crate::kinds::{Kinds, Operation, Rule, Verdict};
use std::alloc::{AllocError, Allocator};

/// All kinds of operations.
const ALL: Kinds = Kinds {
    load: true,
    store: true,
    atomic: true,
    fence: true,
};

/// All but stores.
const BUT_STORES: Kinds = Kinds {
    load: true,
    store: false,
    atomic: true,
    fence: true,
};

/// All but loads.
const BUT_LOADS: Kinds = Kinds {
    load: false,
    store: true,
    atomic: true,
    fence: true,
};

/// All that have a word.
const BUT_FENCES: Kinds = Kinds {
    load: true,
    store: true,
    atomic: true,
    fence: false,
};

/// Fences alone.
const FENCES: Kinds = Kinds {
    load: false,
    store: false,
    atomic: false,
    fence: true,
};

/// Judges whether a trace is one of a single memory, each processor's operations in its program's
/// order: the order, or steps around, and then there is none.
///
/// Errors: out of memory, and no other.
pub fn judge_sequential<A: Allocator + Copy>(
    alloc: A,
    operations: &[Operation],
    writes: &[usize],
    words: usize,
) -> Result<Verdict<A>, AllocError>
    requires { IsMemoryTrace words operations.now writes.now }
    ensures { IfOk result (IsSequentialVerdict operations.now writes.now) }
{
    let rules = [Rule {
        from: ALL,
        to: ALL,
        same_word: false,
    }];
    Ok(judge(alloc, &rules, operations, writes, words)?)
}

/// Judges whether a trace is one of a memory with a buffer of stores for each processor: the order
/// in which its operations took effect, or steps around, and then there is no run of that machine.
///
/// Errors: out of memory, and no other.
pub fn judge_total_store_order<A: Allocator + Copy>(
    alloc: A,
    operations: &[Operation],
    writes: &[usize],
    words: usize,
) -> Result<Verdict<A>, AllocError>
    requires { IsMemoryTrace words operations.now writes.now }
    ensures { IfOk result (IsBufferVerdict operations.now writes.now) }
{
    let rules = [
        Rule {
            from: BUT_STORES,
            to: ALL,
            same_word: false,
        },
        Rule {
            from: BUT_LOADS,
            to: BUT_LOADS,
            same_word: false,
        },
    ];
    Ok(judge(alloc, &rules, operations, writes, words)?)
}

/// Judges whether a trace is one of a memory with a buffer of stores for each processor and each
/// word: the order in which its operations took effect, or steps around, and then there is no run of
/// that machine.
///
/// Errors: out of memory, and no other.
pub fn judge_partial_store_order<A: Allocator + Copy>(
    alloc: A,
    operations: &[Operation],
    writes: &[usize],
    words: usize,
) -> Result<Verdict<A>, AllocError>
    requires { IsMemoryTrace words operations.now writes.now }
    ensures { IfOk result (IsWordBufferVerdict operations.now writes.now) }
{
    let rules = [
        Rule {
            from: BUT_STORES,
            to: ALL,
            same_word: false,
        },
        Rule {
            from: BUT_LOADS,
            to: FENCES,
            same_word: false,
        },
    ];
    Ok(judge(alloc, &rules, operations, writes, words)?)
}

/// Judges whether a trace is, word by word, one of a single memory: one order that is so for each word
/// alone, or steps around, and then some word has no such order.
///
/// Errors: out of memory, and no other.
pub fn judge_coherent<A: Allocator + Copy>(
    alloc: A,
    operations: &[Operation],
    writes: &[usize],
    words: usize,
) -> Result<Verdict<A>, AllocError>
    requires { IsMemoryTrace words operations.now writes.now }
    ensures { IfOk result (IsWordVerdict operations.now writes.now) }
{
    let rules = [Rule {
        from: BUT_FENCES,
        to: BUT_FENCES,
        same_word: true,
    }];
    Ok(judge(alloc, &rules, operations, writes, words)?)
}
