//! Laws of the replies of logs, each the contract of a function that does nothing.

ghost use Rattle.std.specs.Prelude.{◌≡◌, ℕ, List, length};
ghost use Rattle.memory_models.specs.Machines.{IsSequential, IsBufferRun};
ghost use Rattle.memory_models.specs.Trace.{IsMemoryTrace};
ghost use Rattle.memory_models.specs.Values.{AreInTurns};
ghost use Rattle.memory_models.specs.WordBuffers.{IsWordBufferRun};
ghost use Rattle.model_text.specs.Made.{LogLines};
ghost use Rattle.model_text.specs.OneMemory.{AreRepliesInTurn, AreRepliesOfBuffers};
ghost use Rattle.model_text.specs.Traces.{AreOpened, operations_of_log, steps_of_log};
ghost use Rattle.model_text.specs.Values.{AreDueReplies};

/// Where each reply of a log is due, the replies are those of the machine whose order or run explains
/// its trace: of one memory, or of one with buffers of stores, for each processor, or for each
/// processor and each word.
pub fn replies_follow()
    ensures one_memory { (log : LogLines) (words : ℕ) (writes : List ℕ)
        → IsMemoryTrace words (operations_of_log log) writes
        → AreOpened (length log.addresses) (operations_of_log log) writes
        → AreDueReplies (steps_of_log log) (operations_of_log log) writes
        → (turn : ℕ → ℕ) → IsSequential (operations_of_log log) writes turn
        → (order : List ℕ) → AreInTurns (operations_of_log log) turn order
        → AreRepliesInTurn (steps_of_log log) (operations_of_log log) order }
    ensures buffers { (log : LogLines) (words : ℕ) (writes : List ℕ)
        → IsMemoryTrace words (operations_of_log log) writes
        → AreOpened (length log.addresses) (operations_of_log log) writes
        → AreDueReplies (steps_of_log log) (operations_of_log log) writes
        → (made left : ℕ → ℕ) → IsBufferRun (operations_of_log log) writes made left
        → AreRepliesOfBuffers (steps_of_log log) (operations_of_log log) made left }
    ensures word_buffers { (log : LogLines) (words : ℕ) (writes : List ℕ)
        → IsMemoryTrace words (operations_of_log log) writes
        → AreOpened (length log.addresses) (operations_of_log log) writes
        → AreDueReplies (steps_of_log log) (operations_of_log log) writes
        → (made left : ℕ → ℕ) → IsWordBufferRun (operations_of_log log) writes made left
        → AreRepliesOfBuffers (steps_of_log log) (operations_of_log log) made left }
{}
