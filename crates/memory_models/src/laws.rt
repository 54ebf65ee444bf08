//! Laws of memory models, each the contract of a function that does nothing.

ghost use Rattle.std.specs.Prelude.{◌≡◌, ◌⊎◌, ◌+◌, ◌<◌, ℕ, true, List, length, slice_index};
ghost use Rattle.memory_models.specs.declared.kinds.Operation.{Operation};
ghost use Rattle.memory_models.specs.Trace.{IsMemoryTrace, is_load, is_write, operation_at};
ghost use Rattle.memory_models.specs.Trace.{rule_at};
ghost use Rattle.memory_models.specs.Trace.{AreOnOne};
ghost use Rattle.memory_models.specs.Arcs.{IsChained};
ghost use Rattle.memory_models.specs.Following.{IsChainedOn};
ghost use Rattle.memory_models.specs.Models.{coherent, fenced, partial_store_order};
ghost use Rattle.memory_models.specs.Order.{IsMemoryOrder};
ghost use Rattle.memory_models.specs.Models.{sequential, total_store_order};
ghost use Rattle.memory_models.specs.Machines.{IsSequential, IsBufferRun, IsBuffered, effect_at};
ghost use Rattle.memory_models.specs.WordBuffers.{IsWordBufferRun};
ghost use Rattle.memory_models.specs.WordOrders.{IsSequentialOn};
ghost use Rattle.memory_models.specs.Values.{AreInTurns, IsValued, FindsWrite, word_in_turn};

/// An order in which all program order is kept is one of a single memory, where each load reads the
/// last write before it; and the other way round.
pub fn sequential_is_one_memory()
    ensures one_memory { (words : ℕ) (ops : List Operation) (writes : List ℕ)
        → IsMemoryTrace words ops writes
        → (turn : ℕ → ℕ) → IsMemoryOrder sequential ops writes turn → IsSequential ops writes turn }
    ensures order { (words : ℕ) (ops : List Operation) (writes : List ℕ)
        → IsMemoryTrace words ops writes
        → (turn : ℕ → ℕ) → IsSequential ops writes turn → IsMemoryOrder sequential ops writes turn }
{}

/// Each run of the machine with a buffer of stores for each processor is an order of total store
/// order, by when operations take effect; and each order is that of such a run.
pub fn total_store_order_is_buffers()
    ensures order { (words : ℕ) (ops : List Operation) (writes : List ℕ)
        → IsMemoryTrace words ops writes
        → (made left : ℕ → ℕ) → IsBufferRun ops writes made left
        → IsMemoryOrder total_store_order ops writes (effect_at ops made left) }
    ensures run { (words : ℕ) (ops : List Operation) (writes : List ℕ)
        → IsMemoryTrace words ops writes
        → (turn : ℕ → ℕ) → IsMemoryOrder total_store_order ops writes turn
        → (made : ℕ → ℕ) × (left : ℕ → ℕ) × IsBufferRun ops writes made left }
{}

/// Each run of the machine with a buffer of stores for each processor and each word is an order of
/// partial store order, by when operations take effect; and each order is that of such a run.
pub fn partial_store_order_is_buffers()
    ensures order { (words : ℕ) (ops : List Operation) (writes : List ℕ)
        → IsMemoryTrace words ops writes
        → (made left : ℕ → ℕ) → IsWordBufferRun ops writes made left
        → IsMemoryOrder partial_store_order ops writes (effect_at ops made left) }
    ensures run { (words : ℕ) (ops : List Operation) (writes : List ℕ)
        → IsMemoryTrace words ops writes
        → (turn : ℕ → ℕ) → IsMemoryOrder partial_store_order ops writes turn
        → (made : ℕ → ℕ) × (left : ℕ → ℕ) × IsWordBufferRun ops writes made left }
{}

/// A coherent order is one of a single memory for each word alone; and such orders of all words make
/// one coherent order.
pub fn coherent_is_one_memory_by_word()
    ensures words { (words : ℕ) (ops : List Operation) (writes : List ℕ)
        → IsMemoryTrace words ops writes
        → (turn : ℕ → ℕ) → IsMemoryOrder coherent ops writes turn
        → (word : ℕ) → IsSequentialOn word ops writes turn }
    ensures order { (words : ℕ) (ops : List Operation) (writes : List ℕ)
        → IsMemoryTrace words ops writes
        → (turns : ℕ → ℕ → ℕ) → ((word : ℕ) → IsSequentialOn word ops writes (turns word))
        → (turn : ℕ → ℕ) × IsMemoryOrder coherent ops writes turn }
{}

/// In one memory's order the last write before a write is the one before it in the word's order: so
/// an atomic reads what that one wrote.
pub fn writes_follow_the_last_write()
    ensures { (words : ℕ) (ops : List Operation) (writes : List ℕ) → IsMemoryTrace words ops writes
        → (turn : ℕ → ℕ) → IsSequential ops writes turn
        → (x p : ℕ) → x < length ops → is_write (operation_at ops x).kind ≡ true
        → p + 1 ≡ (operation_at ops x).place
        → (operation_at ops (slice_index writes p)).word ≡ (operation_at ops x).word
        → (turn (slice_index writes p) < turn x)
        × ((w : ℕ) → w < length ops → is_write (operation_at ops w).kind ≡ true
        → AreOnOne ops x w → turn w < turn x
        → (w ≡ slice_index writes p) ⊎ (turn w < turn (slice_index writes p))) }
{}

/// Operations whose turns differ stand in a list, each in its turn.
pub fn turns_make_a_list()
    ensures { (ops : List Operation) (turn : ℕ → ℕ)
        → ((x y : ℕ) → x < length ops → y < length ops → turn x ≡ turn y → x ≡ y)
        → (order : List ℕ) × AreInTurns ops turn order }
{}

/// The values follow the order. On one memory, whatever it held before, each operation finds in its
/// turn the word that it finds by its word's order of writes. In a run with buffers of stores, by
/// when operations take effect, so does each that doesn't read its processor's buffer; and a load
/// that does finds what the last store of its word in there leaves. The same holds with a buffer for
/// each word.
pub fn values_follow()
    ensures one_memory { (words : ℕ) (ops : List Operation) (writes : List ℕ)
        → IsMemoryTrace words ops writes
        → (turn : ℕ → ℕ) → IsSequential ops writes turn
        → (order : List ℕ) → AreInTurns ops turn order
        → (makes : ℕ → ℕ → ℕ) (found opening : ℕ → ℕ) → IsValued ops writes makes found
        → (k : ℕ) → k < length order → FindsWrite ops writes (slice_index order k)
        → word_in_turn ops makes opening order k ≡ found (slice_index order k) }
    ensures memory { (words : ℕ) (ops : List Operation) (writes : List ℕ)
        → IsMemoryTrace words ops writes
        → (made left : ℕ → ℕ) → IsBufferRun ops writes made left
        → (order : List ℕ) → AreInTurns ops (effect_at ops made left) order
        → (makes : ℕ → ℕ → ℕ) (found opening : ℕ → ℕ) → IsValued ops writes makes found
        → (k : ℕ) → k < length order → FindsWrite ops writes (slice_index order k)
        → ((s : ℕ) → is_load (operation_at ops (slice_index order k)).kind ≡ true
        → IsBuffered ops made left s (slice_index order k) → ⊥)
        → word_in_turn ops makes opening order k ≡ found (slice_index order k) }
    ensures buffer { (words : ℕ) (ops : List Operation) (writes : List ℕ)
        → IsMemoryTrace words ops writes
        → (made left : ℕ → ℕ) → IsBufferRun ops writes made left
        → (makes : ℕ → ℕ → ℕ) (found : ℕ → ℕ) → IsValued ops writes makes found
        → (x s : ℕ) → x < length ops → is_load (operation_at ops x).kind ≡ true
        → IsBuffered ops made left s x → found x ≡ makes s (found s) }
    ensures word_memory { (words : ℕ) (ops : List Operation) (writes : List ℕ)
        → IsMemoryTrace words ops writes
        → (made left : ℕ → ℕ) → IsWordBufferRun ops writes made left
        → (order : List ℕ) → AreInTurns ops (effect_at ops made left) order
        → (makes : ℕ → ℕ → ℕ) (found opening : ℕ → ℕ) → IsValued ops writes makes found
        → (k : ℕ) → k < length order → FindsWrite ops writes (slice_index order k)
        → ((s : ℕ) → is_load (operation_at ops (slice_index order k)).kind ≡ true
        → IsBuffered ops made left s (slice_index order k) → ⊥)
        → word_in_turn ops makes opening order k ≡ found (slice_index order k) }
    ensures word_buffer { (words : ℕ) (ops : List Operation) (writes : List ℕ)
        → IsMemoryTrace words ops writes
        → (made left : ℕ → ℕ) → IsWordBufferRun ops writes made left
        → (makes : ℕ → ℕ → ℕ) (found : ℕ → ℕ) → IsValued ops writes makes found
        → (x s : ℕ) → x < length ops → is_load (operation_at ops x).kind ≡ true
        → IsBuffered ops made left s x → found x ≡ makes s (found s) }
{}

/// The rules of the models are of the shapes that the judge asks for.
pub fn models_can_be_judged()
    ensures coherent { (k : ℕ) → k < length coherent
        → IsChained (rule_at coherent k) ⊎ IsChainedOn (rule_at coherent k) }
    ensures fenced { (k : ℕ) → k < length fenced
        → IsChained (rule_at fenced k) ⊎ IsChainedOn (rule_at fenced k) }
    ensures partial_store_order { (k : ℕ) → k < length partial_store_order
        → IsChained (rule_at partial_store_order k) ⊎ IsChainedOn (rule_at partial_store_order k) }
{}
