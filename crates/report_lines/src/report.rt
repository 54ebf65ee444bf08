ghost use Rattle.std.specs.Prelude.{◌≡◌, IfOk, OnOk, OnErr};
ghost use Rattle.report_lines.specs.Parts.{FitReport, lines_of_contents};
ghost use Rattle.std.specs.Io.KnownBytes.{Appends};
ghost use Rattle.report_lines.specs.Line.{text_of};
ghost use Rattle.report_lines.specs.Taken.{Rose, AppendsFront};

use crate::answers::push_all_answers;
use crate::line::{Radices, ReportLine};
use crate::output::{Out, OutputFailed, put_all};
use crate::sections::{push_entries, push_inits, push_order, push_words, version_of};
use crate::shows::Shows;
use crate::tail::Tail;
use crate::text::put_line;
use std::alloc::{AllocError, Allocator, Global};
use std::marker::Model;

/// What a report says: its lines.
#[derive(Drop)]
pub struct Report<A: Allocator = Global> {
    lines: Vec<ReportLine, A>,
}

impl<A: Allocator> Model for Report<A> {
    ghost use Rattle.std.specs.Prelude.{List};
    ghost use Rattle.report_lines.specs.declared.line.ReportLine.{ReportLine};

    ghost Value = { List ReportLine };

    ghost view = { λ r. r.lines.items };
}

impl<A: Allocator + Copy> Report<A> {
    /// The report of these lines.
    pub fn of_lines(lines: Vec<ReportLine, A>) -> Self
        ensures { result ≡ lines.items }
    {
        Report { lines }
    }

    /// The report of what is shown: its lines are made of the rows that are lent, one by one.
    pub fn of_shown<S: Shows>(alloc: A, shown: &S) -> Result<Self, AllocError>
        requires { FitReport (S.contents shown.now) }
        ensures { IfOk result (λ report. report ≡ lines_of_contents (S.contents shown.now)) }
    {
        let mut lines = Vec::new(alloc);
        lines.push(ReportLine::Header(version_of(shown)))?;
        lines.push(ReportLine::Shape(Radices::of_torus(shown.torus()), shown.words() as u32))?;
        push_inits(&mut lines, shown)?;
        push_entries(&mut lines, shown)?;
        push_all_answers(alloc, &mut lines, shown)?;
        push_words(&mut lines, shown)?;
        push_order(&mut lines, shown)?;
        lines.push(ReportLine::End(shown.finished()))?;
        Ok(Report { lines })
    }

    /// The lines.
    pub fn lines(&self) -> &[ReportLine]
        ensures { result.now ≡ self.now }
    {
        &self.lines
    }
}

/// Writes the text of the report, and takes no memory. It fails only where the output took none of
/// some bytes that it was given; then a beginning of the text was taken.
pub fn write_report<W: Out, A: Allocator>(
    out: &mut W,
    report: &Report<A>,
) -> Result<(), OutputFailed>
    ensures ok { OnOk result (Appends (W.taken out.old) (W.taken out.new) (text_of report.now)) }
    ensures err { OnErr result
        (AppendsFront (W.taken out.old) (W.taken out.new) (text_of report.now)) }
    ensures quiet { OnOk result (W.failures out.new ≡ W.failures out.old) }
    ensures failed { OnErr result (Rose (W.failures out.old) (W.failures out.new)) }
{
    for line in &report.lines {
        let mut text = Tail::of_line_feed();
        put_line(&mut text, line);
        put_all(out, text.bytes())?;
    }
    Ok(())
}
