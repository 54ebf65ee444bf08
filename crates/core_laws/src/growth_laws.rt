//! Laws of scripts that grow, each the contract of a function that does nothing.

ghost use Rattle.std.specs.Prelude.{◌≡◌, ◌≢◌, false, option_map, ◌+◌, ◌*◌, ◌<◌, ◌++◌, ◌∷◌, [], ℕ};
ghost use Rattle.std.specs.Prelude.{List, Some, Ok};
ghost use Rattle.std.specs.Prelude.{slice_get, slice_set, length};
ghost use Rattle.torus.specs.declared.step.Step.{Step};
ghost use Rattle.packet.specs.declared.kinds.Reply.{Reply};
ghost use Rattle.packet.specs.declared.kinds.Operation.{Operation};
ghost use Rattle.script_lines.specs.declared.line.Line.{Line};
ghost use Rattle.script_lines.specs.Lines.{IsAcceptedLine, operations_of};
ghost use Rattle.script.specs.Scripts.{add_line};
ghost use Rattle.one_order.specs.Following.{Following, first_of, next_operation_of};
ghost use Rattle.one_order.specs.Following.{after_issue, after_answer, is_finished};
ghost use Rattle.one_order.specs.Following.{follower_with};
ghost use Rattle.core_laws.specs.Agent.TheVariants.{Processor};
ghost use Rattle.core_laws.specs.Tile.{Design, TileState};
ghost use Rattle.core_laws.specs.Agents.{agent_number};
ghost use Rattle.core_laws.specs.Core.{Load, State, first_state, step, after};
ghost use Rattle.core_laws.specs.Runs.{IsAcceptedLoad};
ghost use Rattle.core_laws.specs.ProgressMoves.{most_moves};
ghost use Rattle.core_laws.specs.Machine.{Core, IsAfter, event_in, core_after_load, shown};
ghost use Rattle.core_laws.specs.MachineMoves.{moves_of};
ghost use Rattle.core_laws.specs.Appended.{tile_with, state_with, appended, load_with};
ghost use Rattle.core_laws.specs.Appended.{IsUnreported, IsNoReport, MayFollow};
ghost use Rattle.core_laws.specs.Doings.{Doing, core_done, load_grown, moves_done, MayBeDone};

/// A follower that is handed a line is the follower of the script with that line at its end: so at
/// the start, and after each issue of an operation that was ready without the line, which is still
/// the one that is ready, and after each answer.
pub fn followers_take_lines()
    ensures first { (lines : List Line) (line : Line)
        → follower_with line (first_of lines) ≡ first_of (lines ++ line ∷ []) }
    ensures ready { (f : Following) (line : Line) (o : Operation)
        → next_operation_of f ≡ Some o → next_operation_of (follower_with line f) ≡ Some o }
    ensures issue { (f : Following) (line : Line) (o : Operation)
        → next_operation_of f ≡ Some o
        → after_issue (follower_with line f) ≡ follower_with line (after_issue f) }
    ensures answer { (f : Following) (line : Line) (index : ℕ) (reply : Reply)
        → after_answer (follower_with line f) index reply
        ≡ follower_with line (after_answer f index reply) }
{}

/// A state that is handed a line: one tile has changed; at first it is that of the load with the line;
/// a step that is enabled without the line, and leaves the processor unreported, is enabled with it,
/// leads to the same but for the line, and is the same event; and who was unreported still is.
pub fn states_take_lines()
    ensures tile { (s : State) (p : ℕ) (line : Line) (tile : TileState)
        → slice_get s.tiles p ≡ Some tile
        → state_with s p line
        ≡ record { tiles = slice_set s.tiles p (tile_with line tile); around = s.around } }
    ensures first { (l : Load) (p : ℕ) (line : Line)
        → first_state (load_with l p line) ≡ state_with (first_state l) p line }
    ensures step { (d : Design) (s t : State) (p : ℕ) (line : Line) (attempt : Step)
        → step d s attempt ≡ Some t → IsUnreported t p
        → step d (state_with s p line) attempt ≡ Some (state_with t p line) }
    ensures event { (d : Design) (s t : State) (p : ℕ) (line : Line) (attempt : Step)
        → step d s attempt ≡ Some t → IsUnreported t p
        → event_in d (state_with s p line) attempt ≡ event_in d s attempt }
    ensures before { (d : Design) (s t : State) (p : ℕ) (attempt : Step)
        → step d s attempt ≡ Some t → IsUnreported t p → IsUnreported s p }
    ensures unreported { (s : State) (p q : ℕ) (line : Line)
        → IsUnreported s q → IsUnreported (state_with s p line) q }
{}

/// Who can be handed a line. At first nobody has reported; only its own `Done` marks a processor; and
/// where steps led, a processor that isn't finished hasn't reported.
pub fn processors_are_unreported()
    ensures first { (l : Load) (p : ℕ) → p < length l.scripts → IsUnreported (first_state l) p }
    ensures step { (d : Design) (s t : State) (p : ℕ) (attempt : Step)
        → step d s attempt ≡ Some t → IsNoReport p attempt → IsUnreported s p → IsUnreported t p }
    ensures steps { (l : Load) (steps : List Step) (p : ℕ) → p < length l.scripts
        → ((k : ℕ) (attempt : Step) → slice_get steps k ≡ Some attempt → IsNoReport p attempt)
        → IsUnreported (after l steps) p }
    ensures unfinished { (l : Load) (c : Core) (steps : List Step) (p : ℕ) (tile : TileState)
        → IsAfter l c steps → slice_get c.state.tiles p ≡ Some tile
        → is_finished tile.processor.operations.following ≡ false → IsUnreported c.state p }
{}

/// All agents but the processor itself step as without the line: each attempt of theirs is enabled in
/// both states or in neither, and leaves the same but for the line. So who is asleep stays asleep.
pub fn other_agents_see_no_line()
    ensures { (d : Design) (s : State) (p : ℕ) (line : Line) (attempt : Step)
        → attempt.agent ≢ agent_number p Processor
        → step d (state_with s p line) attempt
        ≡ option_map (λ t. state_with t p line) (step d s attempt) }
{}

/// A line changes nothing that a machine shows: what is issued and answered, what the banks have
/// served, and the words are as they were; and so is its book.
pub fn lines_leave_what_is_shown()
    ensures shown { (c : Core) (p : ℕ) (line : Line) → shown (appended c p line) ≡ shown c }
    ensures book { (c : Core) (p : ℕ) (line : Line) → (appended c p line).book ≡ c.book }
{}

/// An accepted load with a line that may follow is accepted; and the line that the reader of scripts
/// adds is one that may follow, and gives the same scripts.
pub fn loads_take_lines()
    ensures accepted { (l : Load) (p : ℕ) (line : Line)
        → IsAcceptedLoad l → MayFollow l p line → IsAcceptedLoad (load_with l p line) }
    ensures read { (l : Load) (p : ℕ) (line : Line) (lists : List (List Line))
        → p < length l.scripts → IsAcceptedLine (length l.opening) line
        → add_line l.scripts p line ≡ Ok lists
        → MayFollow l p line × (lists ≡ (load_with l p line).scripts) }
    ensures most { (l : Load) (p : ℕ) (line : Line)
        → MayFollow l p line
        → most_moves (load_with l p line) ≡ most_moves l + 241 * operations_of line }
{}

/// Where steps lead from a load to a machine whose processor p hasn't reported that its script is
/// finished, the machine that is handed a line for p stands where the moves of these steps lead from
/// the load with that line at the end of p's script. The moves are moves there too.
pub fn scripts_grow()
    ensures stands { (l : Load) (c : Core) (steps : List Step) (p : ℕ) (line : Line)
        → IsAfter l c steps → IsUnreported c.state p → IsAcceptedLoad (load_with l p line)
        → IsAfter (load_with l p line) (appended c p line) (moves_of l steps) }
    ensures within { (l : Load) (c : Core) (steps : List Step) (p : ℕ) (line : Line)
        → IsAfter l c steps → IsUnreported c.state p → MayFollow l p line
        → IsAfter (load_with l p line) (appended c p line) (moves_of l steps) }
    ensures moves { (l : Load) (steps : List Step) (p : ℕ) (line : Line)
        → IsUnreported (after l steps) p
        → moves_of (load_with l p line) (moves_of l steps) ≡ moves_of l steps }
    ensures state { (l : Load) (steps : List Step) (p : ℕ) (line : Line)
        → IsUnreported (after l steps) p
        → after (load_with l p line) (moves_of l steps) ≡ state_with (after l steps) p line }
{}

/// Attempts and further lines in any order, each line where it may follow: the machine stands where
/// its moves lead from the load with all the lines at the ends of their scripts.
pub fn machines_grow()
    ensures from_load { (l : Load) (doings : List Doing)
        → IsAcceptedLoad l → MayBeDone l (core_after_load l []) doings
        → IsAfter (load_grown l doings) (core_done (core_after_load l []) doings)
        (moves_done (core_after_load l []) doings) }
    ensures from_machine { (l : Load) (c : Core) (steps : List Step) (doings : List Doing)
        → IsAfter l c steps → MayBeDone l c doings
        → IsAfter (load_grown l doings) (core_done c doings)
        (moves_of l steps ++ moves_done c doings) }
    ensures moves { (l : Load) (c : Core) (steps : List Step) (doings : List Doing)
        → IsAfter l c steps → MayBeDone l c doings
        → moves_of (load_grown l doings) (moves_of l steps ++ moves_done c doings)
        ≡ moves_of l steps ++ moves_done c doings }
{}
