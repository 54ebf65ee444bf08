//! Laws of what a machine notes of its steps, each the contract of a function that does nothing.

ghost use Rattle.std.specs.Prelude.{◌≡◌, ◌<◌, ◌≤◌, ℕ, List, Some, None, length, slice_get};
ghost use Rattle.torus.specs.declared.step.Step.{Step};
ghost use Rattle.torus.specs.Shape.{tiles_of};
ghost use Rattle.home_bank.specs.declared.entry.Entry.{Entry};
ghost use Rattle.one_order.specs.declared.answer.Answer.{Answer};
ghost use Rattle.one_order.specs.EventBook.{EventBook, noted_event};
ghost use Rattle.core_laws.specs.Tile.{TileState};
ghost use Rattle.core_laws.specs.Agents.{agent_tile};
ghost use Rattle.core_laws.specs.Core.{Load, State, design_of, step, after, records_of};
ghost use Rattle.core_laws.specs.Runs.{IsAcceptedLoad};
ghost use Rattle.core_laws.specs.Machine.{book_after, event_in};
ghost use Rattle.core_laws.specs.Notes.{FitsLoad, RoomToNoteIssue, RoomToNoteService};
ghost use Rattle.core_laws.specs.Notes.{RoomToNoteAnswer, book_noted};
ghost use Rattle.core_laws.specs.Notes.{index_served, IsLevel, RisesByOne};

/// What is noted of an enabled attempt by the counts of its tile is its event: of any book.
pub fn notes_tell_the_book()
    ensures { (l : Load) → IsAcceptedLoad l → (steps : List Step) (attempt : Step) (next : State)
        → step (design_of l) (after l steps) attempt ≡ Some next
        → (before left : TileState)
        → slice_get (after l steps).tiles (agent_tile attempt.agent) ≡ Some before
        → slice_get next.tiles (agent_tile attempt.agent) ≡ Some left
        → (g : EventBook) → book_noted (agent_tile attempt.agent) (records_of next)
        (length before.processor.operations.issued) (length before.processor.operations.answers)
        (length before.bank.entries) left g
        ≡ noted_event (tiles_of l.shape) g (event_in (design_of l) (after l steps) attempt) }
{}

/// The book of a run fits its load, and has room for what an enabled attempt is: an issue where its
/// tile has more operations, a service where it has one entry more, an answer where it has one more.
pub fn books_have_room()
    ensures book { (l : Load) → IsAcceptedLoad l → (steps : List Step)
        → FitsLoad l (book_after l steps) }
    ensures issue { (l : Load) → IsAcceptedLoad l →
        (steps : List Step) (attempt : Step) (next : State)
        → step (design_of l) (after l steps) attempt ≡ Some next
        → (before left : TileState)
        → slice_get (after l steps).tiles (agent_tile attempt.agent) ≡ Some before
        → slice_get next.tiles (agent_tile attempt.agent) ≡ Some left
        → length before.processor.operations.issued < length left.processor.operations.issued
        → RoomToNoteIssue l (book_after l steps) (agent_tile attempt.agent) }
    ensures service { (l : Load) → IsAcceptedLoad l
        → (steps : List Step) (attempt : Step) (next : State)
        → step (design_of l) (after l steps) attempt ≡ Some next
        → (before left : TileState)
        → slice_get (after l steps).tiles (agent_tile attempt.agent) ≡ Some before
        → slice_get next.tiles (agent_tile attempt.agent) ≡ Some left
        → (e : Entry) → slice_get left.bank.entries (length before.bank.entries) ≡ Some e
        → RoomToNoteService l (book_after l steps) (agent_tile attempt.agent) e.source
        (index_served (records_of next) e) }
    ensures answer { (l : Load) → IsAcceptedLoad l →
        (steps : List Step) (attempt : Step) (next : State)
        → step (design_of l) (after l steps) attempt ≡ Some next
        → (before left : TileState)
        → slice_get (after l steps).tiles (agent_tile attempt.agent) ≡ Some before
        → slice_get next.tiles (agent_tile attempt.agent) ≡ Some left
        → (a : Answer) → slice_get left.processor.operations.answers
        (length before.processor.operations.answers) ≡ Some a
        → RoomToNoteAnswer (book_after l steps) a.bank a.place }
{}

/// A step that makes an entry leaves the processors' records as they are.
pub fn services_leave_records()
    ensures { (l : Load) → IsAcceptedLoad l → (steps : List Step) (attempt : Step) (next : State)
        → step (design_of l) (after l steps) attempt ≡ Some next
        → (before left : TileState)
        → slice_get (after l steps).tiles (agent_tile attempt.agent) ≡ Some before
        → slice_get next.tiles (agent_tile attempt.agent) ≡ Some left
        → (e : Entry) → slice_get left.bank.entries (length before.bank.entries) ≡ Some e
        → records_of next ≡ records_of (after l steps) }
{}

/// An enabled attempt leaves at its tile as many operations, answers and entries as there were, or
/// one more of one of them.
pub fn counts_rise_by_one()
    ensures rise { (l : Load) → IsAcceptedLoad l →
        (steps : List Step) (attempt : Step) (next : State)
        → step (design_of l) (after l steps) attempt ≡ Some next
        → (before left : TileState)
        → slice_get (after l steps).tiles (agent_tile attempt.agent) ≡ Some before
        → slice_get next.tiles (agent_tile attempt.agent) ≡ Some left
        → RisesByOne before left }
    ensures nothing { (l : Load) → IsAcceptedLoad l
        → (steps : List Step) (attempt : Step) (next : State)
        → step (design_of l) (after l steps) attempt ≡ Some next
        → (before left : TileState)
        → slice_get (after l steps).tiles (agent_tile attempt.agent) ≡ Some before
        → slice_get next.tiles (agent_tile attempt.agent) ≡ Some left
        → length left.processor.operations.issued ≤ length before.processor.operations.issued
        → slice_get left.processor.operations.answers (length before.processor.operations.answers)
        ≡ None
        → slice_get left.bank.entries (length before.bank.entries) ≡ None → IsLevel before left }
{}
