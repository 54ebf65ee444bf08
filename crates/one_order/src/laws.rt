//! Laws of runs and their orders, each the contract of a function that does nothing.

ghost use Rattle.std.specs.Prelude.{◌≡◌, ◌<◌, ◌≤◌, ℕ, List, Some, length, slice_get};
ghost use Rattle.home_bank.specs.declared.entry.Entry.{Entry};
ghost use Rattle.one_order.specs.declared.ordered.Ordered.{Ordered};
ghost use Rattle.one_order.specs.Observed.{Run, event_count, list_at};
ghost use Rattle.one_order.specs.Order.{LinearizationPoint, IsLegalOrder, StandsBefore};
ghost use Rattle.one_order.specs.Growth.{OnlyGrows};
ghost use Rattle.one_order.specs.Rows.{AreRowsOf, BeginRows};
ghost use Rattle.one_order.specs.OneOrder.{HasOneOrder};
ghost use Rattle.one_order.specs.Events.{Event, IsHistory, order_after};
ghost use Rattle.one_order.specs.Consequences.{Precedes, AreEventNumbers, NameEntries};
ghost use Rattle.one_order.specs.Consequences.{AnswersNameEntries};
ghost use Rattle.one_order.specs.Consequences.{AnswersAreNumbered, EntryStands, ReplaysByBank};
ghost use Rattle.one_order.specs.Consequences.{ServesInTurn};
ghost use Rattle.one_order.specs.Consequences.{AnswersInTurn};

/// A run whose steps are issues, services and answers, each where it may happen, has one legal
/// order, that of its services; and rows that tell it with the numbers of the events.
pub fn history_has_one_order()
    ensures every { (tiles tags : ℕ) (opening : List ℕ) (run : Run) (event : ℕ → Event) (n : ℕ)
        (rows : List Ordered)
        → IsHistory tiles tags opening run event n
        → AreRowsOf tiles run n (order_after event n) rows
        → HasOneOrder tiles tags opening run n rows }
    ensures some { (tiles tags : ℕ) (opening : List ℕ) (run : Run) (event : ℕ → Event) (n : ℕ)
        → IsHistory tiles tags opening run event n
        → (rows : List Ordered) × HasOneOrder tiles tags opening run n rows }
{}

/// A run has one order only: what is shown determines the rows.
pub fn order_is_unique()
    ensures { (tiles tags : ℕ) (opening : List ℕ) (run : Run) (n : ℕ) (rows others : List Ordered)
        → HasOneOrder tiles tags opening run n rows → HasOneOrder tiles tags opening run n others
        → rows ≡ others }
{}

/// An operation that is answered before another is issued comes before it in a legal order.
pub fn order_respects_real_time()
    ensures order { (opening : List ℕ) (run : Run) (n : ℕ) (order : List LinearizationPoint)
        → IsLegalOrder opening run n order → OnlyGrows opening run n
        → (p i k : ℕ) (y : LinearizationPoint) → slice_get order k ≡ Some y
        → Precedes run p i y.source y.index
        → StandsBefore order k p i }
    ensures rows { (tiles tags : ℕ) (opening : List ℕ) (run : Run) (n : ℕ) (rows : List Ordered)
        → HasOneOrder tiles tags opening run n rows
        → (j k m : ℕ) (x y : Ordered) → slice_get rows j ≡ Some x → slice_get rows k ≡ Some y
        → x.answered ≡ Some m → m < y.issued → j < k }
{}

/// The rows' numbers are those of distinct events, from 1 to the number of the run's events: each
/// operation is issued, then served, then answered.
pub fn events_are_numbered()
    ensures { (tiles tags : ℕ) (opening : List ℕ) (run : Run) (n : ℕ) (rows : List Ordered)
        → HasOneOrder tiles tags opening run n rows → AreEventNumbers (event_count (run n)) rows }
{}

/// The rows are those of the entries, one for each; and a row has an answer's number exactly where
/// its entry has an answer.
pub fn rows_name_entries()
    ensures entries { (tiles tags : ℕ) (opening : List ℕ) (run : Run) (n : ℕ) (rows : List Ordered)
        → HasOneOrder tiles tags opening run n rows → NameEntries (run n) rows }
    ensures answers { (tiles tags : ℕ) (opening : List ℕ) (run : Run) (n : ℕ) (rows : List Ordered)
        → HasOneOrder tiles tags opening run n rows → AnswersAreNumbered (run n) rows }
{}

/// Each answer names an entry of its operation, with its reply, and no two name one entry.
pub fn answers_name_entries()
    ensures { (tiles tags : ℕ) (opening : List ℕ) (run : Run) (n : ℕ) (rows : List Ordered)
        → HasOneOrder tiles tags opening run n rows → AnswersNameEntries (run n) }
{}

/// Each entry stands in the home bank of its address; and the entries, taken bank by bank, replay
/// on one sequential memory.
pub fn banks_replay()
    ensures stands { (tiles tags : ℕ) (opening : List ℕ) (run : Run) (n : ℕ) (rows : List Ordered)
        → HasOneOrder tiles tags opening run n rows
        → (b place : ℕ) (e : Entry) → slice_get (list_at (run n).entries b) place ≡ Some e
        → EntryStands tiles tags (length opening) b e }
    ensures replay { (tiles tags : ℕ) (opening : List ℕ) (run : Run) (n : ℕ) (rows : List Ordered)
        → HasOneOrder tiles tags opening run n rows → ReplaysByBank opening (run n) }
{}

/// Each bank serves each processor's operations in the order of their issue: none is overtaken,
/// doubled or invented.
pub fn banks_serve_in_turn()
    ensures { (tiles tags : ℕ) (opening : List ℕ) (run : Run) (n : ℕ) (rows : List Ordered)
        → HasOneOrder tiles tags opening run n rows → (b p : ℕ) → ServesInTurn tiles (run n) b p }
{}

/// Each bank answers each processor in the order of its services: no reply overtakes an earlier one
/// of the same bank to the same processor.
pub fn answers_come_in_turn()
    ensures { (tiles tags : ℕ) (opening : List ℕ) (run : Run) (n : ℕ) (rows : List Ordered)
        → HasOneOrder tiles tags opening run n rows → (b p : ℕ) → AnswersInTurn (run n) b p }
{}

/// The order of a beginning of a run is a beginning of its order: the rows stand where they stood,
/// with the numbers that they had, and with answers' numbers that have come since.
pub fn orders_go_on()
    ensures { (tiles tags : ℕ) (opening : List ℕ) (run : Run) (event : ℕ → Event) (k n : ℕ)
        (rows later : List Ordered)
        → k ≤ n → IsHistory tiles tags opening run event n
        → HasOneOrder tiles tags opening run k rows → HasOneOrder tiles tags opening run n later
        → BeginRows rows later }
{}
