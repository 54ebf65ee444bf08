//! Reading a line at the beginning of a text.

ghost use Rattle.std.specs.Prelude.{◌≡◌, ◌≢◌, ◌++◌, ℕ, List, IfNone, IfSome};
ghost use Rattle.report_lines.specs.Fits.{FitsLine};
ghost use Rattle.report_lines.specs.Line.{line_text};
ghost use Rattle.report_lines.specs.declared.line.ReportLine.{ReportLine};
ghost use Rattle.report_lines.specs.Reading.{GivesRead, entry_at, answer_at, order_at, shape_at};
ghost use Rattle.report_lines.specs.Reading.{header_at};
ghost use Rattle.report_lines.specs.Reading.{end_at, word_at, report_line_at};

use crate::numbers::{behind, read_four, read_index, read_valued};
use crate::operation::{read_event, read_op, read_reply};
use crate::shape::read_radices;
use crate::{AnswerLine, EntryLine, OrderLine, ReportLine};

#[tactic(auto, unfolding(crate::specs::Reading::entry_at))]
fn read_entry(text: &[u8]) -> Option<(ReportLine, &[u8])>
    ensures { GivesRead (λ x. (x.0, x.1.now)) result (entry_at text.now) }
{
    let (bank, place, source, tag, rest) = read_four(text, "entry ")?;
    let (op, address, rest) = read_op(rest)?;
    let (reply, rest) = read_reply(rest)?;
    let line = ReportLine::Entry(EntryLine {
        bank,
        place,
        source,
        tag,
        address,
        op,
        reply,
    });
    Some((line, rest))
}

#[tactic(auto, unfolding(crate::specs::Reading::answer_at))]
fn read_answer(text: &[u8]) -> Option<(ReportLine, &[u8])>
    ensures { GivesRead (λ x. (x.0, x.1.now)) result (answer_at text.now) }
{
    let (processor, index, bank, place, rest) = read_four(text, "answer ")?;
    let (reply, rest) = read_reply(rest)?;
    let line = ReportLine::Answer(AnswerLine {
        processor,
        index,
        bank,
        place,
        reply,
    });
    Some((line, rest))
}

#[tactic(auto, unfolding(crate::specs::Reading::order_at))]
fn read_order(text: &[u8]) -> Option<(ReportLine, &[u8])>
    ensures { GivesRead (λ x. (x.0, x.1.now)) result (order_at text.now) }
{
    let (bank, place, issued, served, rest) = read_four(text, "order ")?;
    let (answered, rest) = read_event(rest)?;
    let line = ReportLine::Order(OrderLine {
        bank,
        place,
        issued,
        served,
        answered,
    });
    Some((line, rest))
}

#[tactic(auto, unfolding(crate::specs::Reading::shape_at))]
fn read_shape(text: &[u8]) -> Option<(ReportLine, &[u8])>
    ensures { GivesRead (λ x. (x.0, x.1.now)) result (shape_at text.now) }
{
    let rest = behind(text, "shape ")?;
    let (radices, rest) = read_radices(rest)?;
    let (words, rest) = read_index(rest, b'\n')?;
    Some((ReportLine::Shape(radices, words), rest))
}

#[tactic(auto, unfolding(crate::specs::Reading::header_at))]
fn read_header(text: &[u8]) -> Option<(ReportLine, &[u8])>
    ensures { GivesRead (λ x. (x.0, x.1.now)) result (header_at text.now) }
{
    let rest = behind(text, "torusmem ")?;
    let (version, rest) = read_index(rest, b'\n')?;
    Some((ReportLine::Header(version), rest))
}

#[tactic(auto, unfolding(crate::specs::Reading::end_at))]
fn read_end(text: &[u8]) -> Option<(ReportLine, &[u8])>
    ensures { GivesRead (λ x. (x.0, x.1.now)) result (end_at text.now) }
{
    if let Some(rest) = behind(text, "end complete\n") {
        return Some((ReportLine::End(true), rest));
    }
    let rest = behind(text, "end incomplete\n")?;
    Some((ReportLine::End(false), rest))
}

/// A line that gives a word of the memory.
#[tactic(auto, unfolding(crate::specs::Reading::word_at))]
fn read_word(text: &[u8]) -> Option<(ReportLine, &[u8])>
    ensures { GivesRead (λ x. (x.0, x.1.now)) result (word_at text.now) }
{
    if let Some((address, value, rest)) = read_valued(text, "word ", b'\n') {
        return Some((ReportLine::Word(address, value), rest));
    }
    let (address, value, rest) = read_valued(text, "init ", b'\n')?;
    Some((ReportLine::Init(address, value), rest))
}

/// A line of any kind.
#[tactic(auto, unfolding(crate::specs::Reading::report_line_at))]
fn read_any(text: &[u8]) -> Option<(ReportLine, &[u8])>
    ensures { GivesRead (λ x. (x.0, x.1.now)) result (report_line_at text.now) }
{
    if let Some(read) = read_entry(text) {
        return Some(read);
    }
    if let Some(read) = read_answer(text) {
        return Some(read);
    }
    if let Some(read) = read_order(text) {
        return Some(read);
    }
    if let Some(read) = read_word(text) {
        return Some(read);
    }
    if let Some(read) = read_end(text) {
        return Some(read);
    }
    if let Some(read) = read_shape(text) {
        return Some(read);
    }
    read_header(text)
}

/// The line that the text begins with, and what stands behind its line feed; `None` where the text
/// begins with no line of a report.
pub fn read_line(text: &[u8]) -> Option<(ReportLine, &[u8])>
    // What is read is what `report_line_at` reads.
    ensures reads { GivesRead (λ x. (x.0, x.1.now)) result (report_line_at text.now) }
    // It is a line whose numbers fit, printed at the beginning of the text.
    ensures found { IfSome result
        (λ x. FitsLine x.0 × (text.now ≡ line_text x.0 ++ x.1.now)) }
    // Nothing is read only where the text begins with no such line.
    ensures none { IfNone result ((line : ReportLine) (rest : List ℕ) → FitsLine line
        → text.now ≢ line_text line ++ rest) }
{
    read_any(text)
}
