//! Laws of flights, each the contract of a function that does nothing.

ghost use Rattle.std.specs.Prelude.{◌≡◌, ◌<◌, ◌↔◌, ℕ, true, List, Option, length};
ghost use Rattle.script_lines.specs.declared.line.Line.{Line};
ghost use Rattle.script_lines.specs.Lines.{AreAcceptedScripts};
ghost use Rattle.one_order.specs.Scripts.{IsFollowable};
ghost use Rattle.one_order.specs.declared.ordered.Ordered.{Ordered};
ghost use Rattle.one_order.specs.Observed.{Run, list_at};
ghost use Rattle.one_order.specs.Events.{Event, IsHistory, order_after};
ghost use Rattle.one_order.specs.Rows.{AreRowsOf};
ghost use Rattle.one_order.specs.OneOrder.{HasOneOrder};
ghost use Rattle.one_order.specs.Flight.{Flight, Move, IsFound, show, processors_finished};
ghost use Rattle.one_order.specs.Courses.{IsCourse, course_run, events_of};
ghost use Rattle.one_order.specs.AbstractScripts.{FollowScripts, AreFinished};
ghost use Rattle.one_order.specs.EventBook.{book_of};
ghost use Rattle.one_order.specs.Room.{IsWithin, IsBookWithin, HasRoomForMove};
ghost use Rattle.one_order.specs.Reported.{ShowsWell};
ghost use Rattle.one_order.specs.Consequences.{AnswersInTurn};

/// Any sequence of found moves and nothings goes from where nothing has happened by issues, services
/// and answers, each of which may happen where it does.
pub fn courses_are_histories()
    ensures { (tiles tags : ℕ) (opening : List ℕ) (scripts : List (List Line)) (flight : ℕ → Flight)
        (move : ℕ → Option Move)
        → (n : ℕ) → IsCourse tiles tags opening scripts flight move n
        → IsHistory tiles tags opening (course_run flight) (events_of flight move) n }
{}

/// It has one legal order, that of its services, and rows that tell it with the numbers of the
/// events.
pub fn courses_have_one_order()
    ensures every { (tiles tags : ℕ) (opening : List ℕ) (scripts : List (List Line))
        (flight : ℕ → Flight) (move : ℕ → Option Move)
        → (n : ℕ) (rows : List Ordered) → IsCourse tiles tags opening scripts flight move n
        → AreRowsOf tiles (course_run flight) n (order_after (events_of flight move) n) rows
        → HasOneOrder tiles tags opening (course_run flight) n rows }
    ensures some { (tiles tags : ℕ) (opening : List ℕ) (scripts : List (List Line))
        (flight : ℕ → Flight) (move : ℕ → Option Move)
        → (n : ℕ) → IsCourse tiles tags opening scripts flight move n
        → (rows : List Ordered) × HasOneOrder tiles tags opening (course_run flight) n rows }
{}

/// In it every processor follows its script, if that can be followed.
pub fn courses_follow_scripts()
    ensures { (tiles tags : ℕ) (opening : List ℕ) (scripts : List (List Line)) (flight : ℕ → Flight)
        (move : ℕ → Option Move)
        → (n : ℕ) → IsCourse tiles tags opening scripts flight move n
        → ((p : ℕ) → p < length scripts → IsFollowable (list_at scripts p))
        → FollowScripts (course_run flight) n scripts }
{}

/// Of each processor and bank, the answers in the order of answering are of a beginning of the
/// bank's entries of the processor.
pub fn answers_come_in_turn()
    ensures { (tiles tags : ℕ) (opening : List ℕ) (scripts : List (List Line)) (flight : ℕ → Flight)
        (move : ℕ → Option Move)
        → (n : ℕ) → IsCourse tiles tags opening scripts flight move n
        → (b p : ℕ) → AnswersInTurn (course_run flight n) b p }
{}

/// Of any history the book of its events tells the one legal order, and so it does of a course.
pub fn books_tell_the_one_order()
    ensures histories { (tiles tags : ℕ) (opening : List ℕ) (run : Run) (event : ℕ → Event) (n : ℕ)
        → IsHistory tiles tags opening run event n
        → HasOneOrder tiles tags opening run n (book_of tiles event n).rows }
    ensures courses { (tiles tags : ℕ) (opening : List ℕ) (scripts : List (List Line))
        (flight : ℕ → Flight) (move : ℕ → Option Move)
        → (n : ℕ) → IsCourse tiles tags opening scripts flight move n
        → HasOneOrder tiles tags opening (course_run flight) n
        (book_of tiles (events_of flight move) n).rows }
{}

/// A course stays within the room of its scripts, if they can be followed: of each bank's
/// operations, and of all together. Its book goes with it, and every move that is found has room.
pub fn courses_have_room()
    ensures flight { (tiles tags : ℕ) (opening : List ℕ) (scripts : List (List Line))
        (flight : ℕ → Flight) (move : ℕ → Option Move)
        → (n : ℕ) → IsCourse tiles tags opening scripts flight move n
        → ((p : ℕ) → p < length scripts → IsFollowable (list_at scripts p))
        → IsWithin tiles scripts (flight n) }
    ensures book { (tiles tags : ℕ) (opening : List ℕ) (scripts : List (List Line))
        (flight : ℕ → Flight) (move : ℕ → Option Move)
        → (n : ℕ) → IsCourse tiles tags opening scripts flight move n
        → ((p : ℕ) → p < length scripts → IsFollowable (list_at scripts p))
        → IsBookWithin scripts (flight n) (book_of tiles (events_of flight move) n) }
    ensures moves { (tiles tags : ℕ) (opening : List ℕ) (scripts : List (List Line))
        (flight : ℕ → Flight) (move : ℕ → Option Move)
        → (n : ℕ) → IsCourse tiles tags opening scripts flight move n
        → ((p : ℕ) → p < length scripts → IsFollowable (list_at scripts p))
        → (m : Move) → IsFound (length opening) (flight n) m
        → HasRoomForMove tiles (length opening) scripts (flight n) m }
{}

/// Every follower of a course has come to its end exactly where every script is finished.
pub fn ended_followers_finish_scripts()
    ensures { (tiles tags : ℕ) (opening : List ℕ) (scripts : List (List Line)) (flight : ℕ → Flight)
        (move : ℕ → Option Move)
        → (n : ℕ) → IsCourse tiles tags opening scripts flight move n
        → ((p : ℕ) → p < length scripts → IsFollowable (list_at scripts p))
        → (processors_finished (flight n) ≡ true) ↔ AreFinished (course_run flight) n scripts }
{}

/// What a course shows goes with the rows of its book, if its scripts are accepted: its report is a
/// good one.
pub fn courses_show_well()
    ensures { (tiles tags : ℕ) (opening : List ℕ) (scripts : List (List Line)) (flight : ℕ → Flight)
        (move : ℕ → Option Move)
        → (n : ℕ) → IsCourse tiles tags opening scripts flight move n
        → AreAcceptedScripts (record { words = length opening; lists = scripts })
        → ShowsWell tiles tags opening (show (flight n)) (processors_finished (flight n))
        (book_of tiles (events_of flight move) n).rows }
{}
