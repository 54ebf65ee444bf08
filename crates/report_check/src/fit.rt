//! The numbers of lines fit the types that they are kept in.

ghost use Rattle.std.specs.Prelude.{All};
ghost use Rattle.report_lines.specs.Fits.{FitsLine};

use report_lines::ReportLine;

/// Reads each line: its numbers fit their types.
pub fn numbers_fit(lines: &[ReportLine])
    ensures { All FitsLine lines.now }
{
    for line in lines {
        line_fits(*line);
    }
}

/// Reads the numbers of a line.
fn line_fits(line: ReportLine)
    ensures { FitsLine line }
{
    match line {
        ReportLine::Header(_version) => {}
        ReportLine::Shape(_radices, _words) => {}
        ReportLine::Init(_address, _value) => {}
        ReportLine::Entry(_entry) => {}
        ReportLine::Answer(_answer) => {}
        ReportLine::Word(_address, _value) => {}
        ReportLine::Order(_order) => {}
        ReportLine::End(_complete) => {}
    }
}
