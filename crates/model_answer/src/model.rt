//! The memory models that are asked of a log.

ghost use Rattle.std.specs.Prelude.{◌≡◌, IfOk, false};
ghost use Rattle.model_answer.specs.Model.{model_word, model_named, rules_of_model, asked_named};

use memory_models::{Kinds, Rule};
use std::alloc::{AllocError, Allocator};

/// A memory model, weakest first.
#[derive(Clone, Copy, Debug, PartialEq, Eq)]
pub enum MemoryModel {
    /// Operations on one word stay in their order.
    Coherent,
    /// And all before and behind a fence.
    Fenced,
    /// Partial store order.
    Pso,
    /// Total store order.
    Tso,
    /// Sequential consistency.
    Sc,
}

/// A model that is asked of a log: one by rules of kinds of operations, or RISC-V's, RVWMO, which has
/// rules of annotations and dependencies, too.
#[derive(Clone, Copy, Debug, PartialEq, Eq)]
pub enum AskedModel {
    Rules(MemoryModel),
    Rvwmo,
}

impl AskedModel {
    /// The model that a word names.
    pub fn named(word: &str) -> Option<AskedModel>
        ensures { result ≡ asked_named word.now }
    {
        if word == "rvwmo" {
            return Some(AskedModel::Rvwmo);
        }
        match MemoryModel::named(word) {
            Some(model) => Some(AskedModel::Rules(model)),
            None => None,
        }
    }
}

/// All kinds of operations.
const ALL: Kinds = Kinds {
    load: true,
    store: true,
    atomic: true,
    fence: true,
};

/// All but stores.
const BUT_STORES: Kinds = Kinds {
    load: true,
    store: false,
    atomic: true,
    fence: true,
};

/// All but loads.
const BUT_LOADS: Kinds = Kinds {
    load: false,
    store: true,
    atomic: true,
    fence: true,
};

/// All that have a word.
const BUT_FENCES: Kinds = Kinds {
    load: true,
    store: true,
    atomic: true,
    fence: false,
};

/// Fences alone.
const FENCES: Kinds = Kinds {
    load: false,
    store: false,
    atomic: false,
    fence: true,
};

/// A rule of all words.
const fn rule(from: Kinds, to: Kinds) -> Rule
    ensures { result ≡ record { from = from; to = to; same_word = false } }
{
    Rule {
        from,
        to,
        same_word: false,
    }
}

impl MemoryModel {
    /// The word that names the model on the command line and in the answer.
    pub fn word(self) -> &'static str
        ensures { result.now ≡ model_word self }
    {
        match self {
            MemoryModel::Coherent => "coherent",
            MemoryModel::Fenced => "fenced",
            MemoryModel::Pso => "pso",
            MemoryModel::Tso => "tso",
            MemoryModel::Sc => "sc",
        }
    }

    /// The model that a word names.
    pub fn named(word: &str) -> Option<MemoryModel>
        ensures { result ≡ model_named word.now }
    {
        match word {
            "coherent" => Some(MemoryModel::Coherent),
            "fenced" => Some(MemoryModel::Fenced),
            "pso" => Some(MemoryModel::Pso),
            "tso" => Some(MemoryModel::Tso),
            "sc" => Some(MemoryModel::Sc),
            _ => None,
        }
    }

    /// The rules of the model.
    ///
    /// Errors: out of memory.
    pub fn rules<A: Allocator>(self, alloc: A) -> Result<Vec<Rule, A>, AllocError>
        ensures { IfOk result (λ rules. rules.items ≡ rules_of_model self) }
    {
        let on_one_word = Rule {
            from: BUT_FENCES,
            to: BUT_FENCES,
            same_word: true,
        };
        match self {
            MemoryModel::Coherent => Vec::from_slice(alloc, &[on_one_word]),
            MemoryModel::Fenced => Vec::from_slice(
                alloc,
                &[on_one_word, rule(FENCES, ALL), rule(ALL, FENCES)],
            ),
            MemoryModel::Pso => {
                Vec::from_slice(alloc, &[rule(BUT_STORES, ALL), rule(BUT_LOADS, FENCES)])
            }
            MemoryModel::Tso => {
                Vec::from_slice(alloc, &[rule(BUT_STORES, ALL), rule(BUT_LOADS, BUT_LOADS)])
            }
            MemoryModel::Sc => Vec::from_slice(alloc, &[rule(ALL, ALL)]),
        }
    }
}
