//! Laws of following a script, each the contract of a function that does nothing.

ghost use Rattle.std.specs.Prelude.{◌≡◌, ℕ, ◌+◌, ◌^◌, ◌<◌, ◌≤◌, true, false, All, List, [], ◌∷◌};
ghost use Rattle.std.specs.Prelude.{◌++◌, length};
ghost use Rattle.std.specs.Prelude.{slice_get, slice_set, Some, None, IsSome};
ghost use Rattle.packet.specs.declared.kinds.Operation.{Operation};
ghost use Rattle.packet.specs.declared.kinds.Reply.{Reply};
ghost use Rattle.packet.specs.Spelling.{values_of_op};
ghost use Rattle.script_lines.specs.declared.line.Line.{Line};
ghost use Rattle.script_lines.specs.Lines.{operation_count, operations_of, mentions_last};
ghost use Rattle.script_lines.specs.Lines.{IsAcceptedScript, IsAcceptedLine};
ghost use Rattle.one_order.specs.Scripts.{Invocation, FollowsScript, HasFinished, IsFollowable};
ghost use Rattle.one_order.specs.Scripts.{IsAddressIn};
ghost use Rattle.one_order.specs.Scripts.{AreAnswered, AreAnswersBefore, last_reply, reply_number};
ghost use Rattle.one_order.specs.Scripts.{unanswered};
ghost use Rattle.one_order.specs.Homes.{script_home_count, issued_home_count};
ghost use Rattle.one_order.specs.Following.{Following, ShowsPast, first_of, next_operation_of};
ghost use Rattle.one_order.specs.Following.{after_issue};
ghost use Rattle.one_order.specs.Following.{after_answer, is_finished, left_of, operation_asked};
ghost use Rattle.one_order.specs.Following.{follower_with};

/// A script that the reader accepts, for a memory of any number of words, can be followed.
pub fn accepted_scripts_can_be_followed()
    ensures { (words : ℕ) (lines : List Line) → IsAcceptedScript words lines → IsFollowable lines }
{}

/// A new follower shows no operation.
pub fn start_shows_nothing()
    ensures { (lines : List Line) → ShowsPast lines [] (first_of lines) }
{}

/// An issue shows one operation more: the one that was ready, issued at any step later than every
/// answer before.
pub fn issue_shows_one_more()
    ensures { (lines : List Line) (past : List Invocation) (f : Following) (o : Operation) (t : ℕ) →
        ShowsPast lines past f → next_operation_of f ≡ Some o → AreAnswersBefore past t →
        ShowsPast lines (past ++ record { operation = o; issue = t; answer = None } ∷ [])
        (after_issue f) }
{}

/// An answer, of any operation that has none, shows the same operations, that one answered.
pub fn answer_shows_it()
    ensures { (lines : List Line) (past : List Invocation) (f : Following) (i : ℕ) (o : Invocation)
        (t : ℕ) (reply : Reply) →
        ShowsPast lines past f → slice_get past i ≡ Some o → o.answer ≡ None →
        ShowsPast lines (slice_set past i (record o { answer = Some (t, reply) }))
        (after_answer f i reply) }
{}

/// What a follower keeps is that of the operations that it shows: how many are issued, how many
/// of these await an answer, and the reply to the last one.
pub fn shown_operations_are_kept()
    ensures issued { (lines : List Line) (past : List Invocation) (f : Following)
        → IsFollowable lines → ShowsPast lines past f → f.issued ≡ length past }
    ensures waiting { (lines : List Line) (past : List Invocation) (f : Following)
        → IsFollowable lines → ShowsPast lines past f → f.waiting ≡ unanswered past }
    ensures last { (lines : List Line) (past : List Invocation) (f : Following) → IsFollowable lines
        → ShowsPast lines past f → f.last ≡ last_reply past }
{}

/// Whatever calls were made, the operations follow the script.
pub fn script_is_followed()
    ensures { (lines : List Line) (past : List Invocation) (f : Following) → IsFollowable lines
        → ShowsPast lines past f → FollowsScript lines past }
{}

/// An operation is ready exactly when the script allows it next, at a step later than every answer
/// before.
pub fn ready_is_what_is_allowed()
    ensures allowed { (lines : List Line) (past : List Invocation) (f : Following) (o : Invocation)
        → IsFollowable lines → ShowsPast lines past f →
        AreAnswersBefore past o.issue → next_operation_of f ≡ Some o.operation
        → FollowsScript lines (past ++ o ∷ []) }
    ensures ready { (lines : List Line) (past : List Invocation) (f : Following) (o : Invocation)
        → IsFollowable lines → ShowsPast lines past f →
        FollowsScript lines (past ++ o ∷ []) → next_operation_of f ≡ Some o.operation }
{}

/// A script is finished exactly when nothing more is allowed and all is answered.
pub fn finished_is_complete()
    ensures finished { (lines : List Line) (past : List Invocation) (f : Following)
        → IsFollowable lines → ShowsPast lines past f →
        is_finished f ≡ true → HasFinished lines past }
    ensures complete { (lines : List Line) (past : List Invocation) (f : Following)
        → IsFollowable lines → ShowsPast lines past f →
        HasFinished lines past → is_finished f ≡ true }
{}

/// When all is answered and the script isn't finished, an operation is ready.
pub fn answered_makes_ready()
    ensures { (lines : List Line) (past : List Invocation) (f : Following) → IsFollowable lines
        → ShowsPast lines past f →
        AreAnswered past → is_finished f ≡ false → IsSome (next_operation_of f) }
{}

/// The operation that is ready has an address that a line of the script names.
pub fn addresses_are_named()
    ensures named { (lines : List Line) (past : List Invocation) (f : Following) (o : Operation)
        → IsFollowable lines → ShowsPast lines past f →
        next_operation_of f ≡ Some o → IsAddressIn lines o.address }
    ensures below { (lines : List Line) (past : List Invocation) (f : Following) (o : Operation)
        (words : ℕ) → IsFollowable lines → ShowsPast lines past f →
        next_operation_of f ≡ Some o → ((a : ℕ) → IsAddressIn lines a → a < words)
        → o.address < words }
{}

/// How many operations a script still allows falls by each issue and never rises; with those that
/// are issued it is within the script's count.
pub fn operations_left_fall()
    ensures issue { (lines : List Line) (past : List Invocation) (f : Following) (o : Operation)
        → IsFollowable lines → ShowsPast lines past f →
        next_operation_of f ≡ Some o → left_of (after_issue f) < left_of f }
    ensures answer { (f : Following) (i : ℕ) (reply : Reply)
        → left_of (after_answer f i reply) ≤ left_of f }
    ensures total { (lines : List Line) (past : List Invocation) (f : Following)
        → IsFollowable lines → ShowsPast lines past f →
        length past + left_of f ≤ operation_count lines }
{}

/// A finished script has no operation that is ready.
pub fn finished_wants_nothing()
    ensures { (f : Following) → is_finished f ≡ true → next_operation_of f ≡ None }
{}

/// Where the values of the lines and the numbers replied so far are of 64 bits, so are the values of
/// the operation that is ready.
pub fn operations_bring_words()
    ensures { (words : ℕ) (lines : List Line) (past : List Invocation) (f : Following)
        (o : Operation) → IsFollowable lines → ShowsPast lines past f →
        ((i : ℕ) (first : Line) → slice_get lines i ≡ Some first → IsAcceptedLine words first) →
        ((i : ℕ) (x : Invocation) (a : ℕ) (reply : Reply) → slice_get past i ≡ Some x
        → x.answer ≡ Some (a, reply) → reply_number reply < 2 ^ 64) →
        next_operation_of f ≡ Some o → All (λ v. v < 2 ^ 64) (values_of_op o.op) }
{}

/// Of the operations that a script allows, and so of those that a follower issued, at most as many
/// are at home in a bank as the script counts for that bank.
pub fn homes_are_counted()
    ensures allowed { (tiles b : ℕ) (lines : List Line) (ops : List Invocation)
        → FollowsScript lines ops →
        issued_home_count tiles b ops ≤ script_home_count tiles b lines }
    ensures issued { (tiles b : ℕ) (lines : List Line) (past : List Invocation) (f : Following)
        → IsFollowable lines → ShowsPast lines past f →
        issued_home_count tiles b past ≤ script_home_count tiles b lines }
{}

/// A line at the end of a script, at any time: the follower with the line shows, of the longer script,
/// what it showed; that script can be followed where a spin has loads and a `last` has an operation
/// before it, which is issued or left; it allows the line's operations more; and of a script that was
/// finished the line's operation is ready, or none where it is a fence.
pub fn lines_come_at_the_end()
    ensures shows { (lines : List Line) (line : Line) (past : List Invocation) (f : Following)
        → ShowsPast lines past f → ShowsPast (lines ++ line ∷ []) past (follower_with line f) }
    ensures followable { (lines : List Line) (line : Line) → IsFollowable lines
        → ((a v m : ℕ) → line ≡ Line.Spin a v m → 0 < m)
        → (mentions_last line ≡ true → 0 < operation_count lines)
        → IsFollowable (lines ++ line ∷ []) }
    ensures some { (lines : List Line) (past : List Invocation) (f : Following)
        → ShowsPast lines past f → 0 < operation_count lines → 0 < length past + left_of f }
    ensures left { (f : Following) (line : Line)
        → left_of (follower_with line f) ≡ left_of f + operations_of line }
    ensures ended { (f : Following) (line : Line) → is_finished f ≡ true
        → next_operation_of (follower_with line f) ≡ operation_asked line f.last }
{}
