//! The law of good contents, the contract of a function that does nothing.

ghost use Rattle.std.specs.Prelude.{ℕ, All, Bool, List};
ghost use Rattle.torus.specs.Shape.{Shape};
ghost use Rattle.report_lines.specs.declared.line.OrderLine.{OrderLine};
ghost use Rattle.report_lines.specs.declared.parts.EntryRow.{EntryRow};
ghost use Rattle.report_lines.specs.declared.parts.AnswerRow.{AnswerRow};
ghost use Rattle.report_lines.specs.Contents.{report_lines_of};
ghost use Rattle.report_lines.specs.Fits.{FitsLine};
ghost use Rattle.report_check.specs.Good.{AreGood};
ghost use Rattle.report_check.specs.Facts.{AreContents};

/// The lines of the report of such contents are those of a good report, where their numbers fit
/// the types that they are kept in.
pub fn contents_are_good()
    ensures { (shape : Shape) (opening : List ℕ) (entries : List (List EntryRow))
        (answers : List (List AnswerRow))
        (last : List ℕ) (order : List OrderLine) (finished : Bool)
        → AreContents shape opening entries answers last order finished
        → All FitsLine (report_lines_of shape opening entries answers last order finished)
        → AreGood (report_lines_of shape opening entries answers last order finished) }
{}
