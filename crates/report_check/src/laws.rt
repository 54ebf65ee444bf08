//! Laws of good reports, each the contract of a function that does nothing.

ghost use Rattle.std.specs.Prelude.{◌≡◌, ◌≢◌, ◌↔◌, ℕ, List, []};
ghost use Rattle.report_lines.specs.declared.line.ReportLine.{ReportLine};
ghost use Rattle.report_check.specs.Seen.{nothing_seen, seen_of};
ghost use Rattle.report_check.specs.Good.{AllStand, Allowed, AreGood, FirstBad, GoodReport};
ghost use Rattle.report_check.specs.Broken.{line_broken};
ghost use Rattle.report_check.specs.Meaning.{EntriesReplay, OrdersEntries, AnswersEntries};

/// A text has at most one first bad line, and none if it is a good report.
pub fn one_verdict()
    ensures one { (text : List ℕ) (m n : ℕ) → FirstBad text m → FirstBad text n → m ≡ n }
    ensures apart { (text : List ℕ) (n : ℕ) → GoodReport text → FirstBad text n → ⊥ }
{}

/// The entries of a good report replay on one memory, and its last words are that memory's.
pub fn entries_replay()
    ensures { (lines : List ReportLine) → AreGood lines → EntriesReplay lines }
{}

/// The order lines of a good report, where it has any, give one order of its entries.
pub fn orders_are_whole()
    ensures { (lines : List ReportLine) → AreGood lines → (seen_of lines).orders ≢ []
        → OrdersEntries (seen_of lines) }
{}

/// Each answer of a good report names an entry of its processor, and has its reply; no two name one
/// entry; and where the report says that all is complete, each entry has its answer.
pub fn answers_name_entries()
    ensures { (lines : List ReportLine) → AreGood lines → AnswersEntries lines }
{}

/// A line breaks no rule behind lines that stand exactly where it is allowed there: no rule of good
/// reports is left out, and none is added.
pub fn rules_are_all()
    ensures { (lines : List ReportLine) (line : ReportLine) → AllStand nothing_seen lines
        → (line_broken (seen_of lines) line ≡ None) ↔ Allowed (seen_of lines) line }
{}
