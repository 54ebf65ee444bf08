//! Laws of the one sequential memory, and of the operations' words and numbers, each the contract of
//! a function that does nothing.

ghost use Rattle.std.specs.Prelude.{◌≡◌, ◌≢◌, ◌<◌, ◌^◌, ℕ, List, ◌++◌, length, slice_index, All};
ghost use Rattle.std.specs.Prelude.{Some};
ghost use Rattle.packet.specs.Names.{code_word, code_named};
ghost use Rattle.packet.specs.Numbers.{code_number, code_of_number};
ghost use Rattle.packet.specs.Memory.{new_word, reply_to, memory_after_one, memory_after, replies};
ghost use Rattle.packet.specs.Spelling.{values_of_op, values_of_reply};
ghost use Rattle.packet.specs.declared.kinds.Code.{Code};
ghost use Rattle.packet.specs.declared.kinds.Op.{Op};
ghost use Rattle.packet.specs.declared.kinds.Op.TheVariants.{Load};
ghost use Rattle.packet.specs.declared.kinds.Operation.{Operation};

/// Two lists of operations, one after the other, have the replies of the first and then those of
/// the second on the memory that the first leaves, and leave what the second leaves there.
pub fn folds_append()
    ensures memory { (xs ys : List Operation) (m : List ℕ)
        → memory_after (xs ++ ys) m ≡ memory_after ys (memory_after xs m) }
    ensures replies { (xs ys : List Operation) (m : List ℕ)
        → replies (xs ++ ys) m ≡ replies xs m ++ replies ys (memory_after xs m) }
{}

/// An operation leaves every word but the one at its address.
pub fn other_words_stay()
    ensures { (o : Operation) (m : List ℕ) (a : ℕ) → a ≢ o.address
        → slice_index (memory_after_one o m) a ≡ slice_index m a }
{}

/// A load changes nothing.
pub fn load_changes_nothing()
    ensures { (a : ℕ) (m : List ℕ) → memory_after_one (record { address = a; op = Load }) m ≡ m }
{}

/// Operations leave as many words as there were, and each has one reply.
pub fn lengths_stay()
    ensures words { (os : List Operation) (m : List ℕ) → length (memory_after os m) ≡ length m }
    ensures replies { (os : List Operation) (m : List ℕ) → length (replies os m) ≡ length os }
{}

/// An operation of 64-bit values leaves a 64-bit word, and replies one.
pub fn operations_leave_words()
    ensures word { (op : Op) (w : ℕ) → w < 2 ^ 64 → All (λ v. v < 2 ^ 64) (values_of_op op)
        → new_word op w < 2 ^ 64 }
    ensures reply { (op : Op) (w : ℕ) → w < 2 ^ 64
        → All (λ v. v < 2 ^ 64) (values_of_reply (reply_to op w)) }
{}

/// The word of an operation names it, and so no two operations have the same word.
pub fn words_name_operations()
    ensures { (code : Code) → code_named (code_word code) ≡ Some code }
{}

/// The number of an operation names it, and so no two operations have the same number.
pub fn numbers_name_operations()
    ensures { (code : Code) → code_of_number (code_number code) ≡ Some code }
{}
