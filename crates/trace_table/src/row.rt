//! A row of a table: an operation.

ghost use Rattle.std.specs.Prelude.{◌≡◌, ◌∷◌, [], map, slice_get};
ghost use Rattle.trace_lines.specs.Form.{spelled_form};
ghost use Rattle.trace_table.specs.Row.{answer_in_cell, operation_in_cells, operation_with};
ghost use Rattle.trace_table.specs.Row.{processor_in};
ghost use Rattle.trace_table.specs.Row.{processor_in_cell};
ghost use Rattle.trace_table.specs.Row.{reply_expected, reply_in_cell, reply_of_word, row_of_cells};
ghost use Rattle.trace_table.specs.Row.{row_time};
ghost use Rattle.trace_table.specs.Row.{says_another, says_found, time_in_cell, word_expected};

use crate::cells::cell_in;
use crate::column::{Column, Columns};
use crate::literal::{literal, plain_word};
use crate::reason::TableReason;
use itoa::Buffer;
use lexer::first_words;
use packet::{Code, Op, Operation, Reply};
use trace_lines::{Form, LineReason, reply_read, spelled_form, told_of, unwanted_reply};

/// The reply to an operation, and the time of it.
#[derive(Clone, Copy)]
pub struct TimedReply {
    pub reply: Reply,
    pub time: u64,
}

/// An operation of a table.
#[derive(Clone, Copy)]
pub struct TableRow {
    /// The number of its line, from 1.
    pub line: u64,
    /// The processor, below 4096.
    pub processor: u32,
    pub operation: Operation,
    /// The time of the issue.
    pub issued: u64,
    /// `None` where it isn't answered.
    pub answer: Option<TimedReply>,
}

/// The processor of a cell.
fn processor_in_cell(cell: &[u8]) -> Result<u32, TableReason>
    ensures { result ≡ processor_in_cell cell.now }
{
    let (words, count) = first_words(cell);
    match &words[..count] {
        [word] => match literal(word) {
            Some(number) => {
                if number < 4096 {
                    Ok(number as u32)
                } else {
                    Err(TableReason::Cell(Column::Processor))
                }
            }
            None => Err(TableReason::Cell(Column::Processor)),
        },
        _ => Err(TableReason::Cell(Column::Processor)),
    }
}

/// The time of a cell of a column; none where the cell is empty.
fn time_in_cell(column: Column, cell: &[u8]) -> Result<Option<u64>, TableReason>
    ensures { result ≡ time_in_cell column cell.now }
{
    let (words, count) = first_words(cell);
    match &words[..count] {
        [] => Ok(None),
        [word] => row_time(column, literal(word)),
        _ => Err(TableReason::Cell(column)),
    }
}

/// A time that a word of a column spells, where it spells a number.
fn row_time(column: Column, spelled: Option<u128>) -> Result<Option<u64>, TableReason>
    ensures { result ≡ row_time column spelled }
{
    match spelled {
        Some(time) => {
            if time < 1 << 64 {
                Ok(Some(time as u64))
            } else {
                Err(TableReason::Cell(column))
            }
        }
        None => Err(TableReason::Cell(column)),
    }
}

/// The form of a word, an address and a value.
fn form_of_one<'a>(word: &[u8], address: &'a [u8], one: &'a [u8]) -> Result<Form, LineReason>
    ensures { result ≡ spelled_form word.now (address.now ∷ one.now ∷ []) }
{
    spelled_form(word, &[address, one])
}

/// The form of a word, an address and two values.
fn form_of_two<'a>(
    word: &[u8],
    address: &'a [u8],
    one: &'a [u8],
    two: &'a [u8],
) -> Result<Form, LineReason>
    ensures { result ≡ spelled_form word.now (address.now ∷ one.now ∷ two.now ∷ []) }
{
    spelled_form(word, &[address, one, two])
}

/// The form of a word, an address and three values, which no operation takes.
fn form_of_three<'a>(
    word: &[u8],
    address: &'a [u8],
    one: &'a [u8],
    two: &'a [u8],
    three: &'a [u8],
) -> Result<Form, LineReason>
    ensures { result
        ≡ spelled_form word.now (address.now ∷ one.now ∷ two.now ∷ three.now ∷ []) }
{
    spelled_form(word, &[address, one, two, three])
}

/// The operation of a word, an address and values.
fn operation_with(word: &[u8], address: &[u8], values: &[&[u8]]) -> Result<Operation, TableReason>
    ensures { result ≡ operation_with word.now address.now (map (λ value. value.now) values.now) }
{
    let (mut of_address, mut of_first) = (Buffer::new(), Buffer::new());
    let (mut of_second, mut of_third) = (Buffer::new(), Buffer::new());
    let address = plain_word(&mut of_address, address);
    let form = match values {
        [] => spelled_form(word, &[address])?,
        [one] => form_of_one(word, address, plain_word(&mut of_first, one))?,
        [one, two] => {
            let one = plain_word(&mut of_first, one);
            form_of_two(word, address, one, plain_word(&mut of_second, two))?
        }
        [one, two, three, ..] => {
            let one = plain_word(&mut of_first, one);
            let two = plain_word(&mut of_second, two);
            form_of_three(word, address, one, two, plain_word(&mut of_third, three))?
        }
    };
    let operation = form.operation(1 << 32)?;
    Ok(operation)
}

/// The operation of the cells of its word, its address and its values.
fn operation_in_cells(word: &[u8], address: &[u8], values: &[u8]) -> Result<Operation, TableReason>
    ensures { result ≡ operation_in_cells word.now address.now values.now }
{
    let (words, count) = first_words(word);
    let [word] = &words[..count] else {
        return Err(TableReason::Cell(Column::Operation));
    };
    let (addresses, count) = first_words(address);
    let [address] = &addresses[..count] else {
        return Err(TableReason::Cell(Column::Address));
    };
    let (values, count) = first_words(values);
    operation_with(word, address, &values[..count])
}

/// The reply that a word is to an operation of a code.
fn reply_of_word(code: Code, word: &[u8]) -> Result<Reply, TableReason>
    ensures { result ≡ reply_of_word code word.now }
{
    let mut buffer = Buffer::new();
    let told = told_of(plain_word(&mut buffer, word))?;
    if let Some(reason) = unwanted_reply(code, told) {
        return Err(TableReason::Line(reason));
    }
    let reply = reply_read(told)?;
    Ok(reply)
}

/// The word that a cas expects; no other operation expects one.
fn word_expected(op: Op) -> Option<u64>
    ensures { result ≡ word_expected op }
{
    match op {
        Op::Cas(expected, _) => Some(expected),
        _ => None,
    }
}

/// Whether this is a word by which a cas says that it found the word that it expected.
fn says_found(word: &[u8]) -> bool
    ensures { result ≡ says_found word.now }
{
    word.eq_ignore_ascii_case(b"true".as_slice()) || word.eq_ignore_ascii_case(b"ok".as_slice())
}

/// Whether this is a word by which a cas says that it found another word, but not which.
fn says_another(word: &[u8]) -> bool
    ensures { result ≡ says_another word.now }
{
    word.eq_ignore_ascii_case(b"false".as_slice()) || word.eq_ignore_ascii_case(b"fail".as_slice())
}

/// The reply that a word is to an operation of a code, which may expect a word.
fn reply_expected(code: Code, expected: Option<u64>, word: &[u8]) -> Result<Reply, TableReason>
    ensures { result ≡ reply_expected code expected word.now }
{
    let Some(found) = expected else {
        return reply_of_word(code, word);
    };
    if says_found(word) {
        Ok(Reply::Old(found))
    } else if says_another(word) {
        Err(TableReason::FoundUnnamed)
    } else {
        reply_of_word(code, word)
    }
}

/// The reply of a cell to an operation.
fn reply_in_cell(op: Op, cell: &[u8]) -> Result<Reply, TableReason>
    ensures { result ≡ reply_in_cell op cell.now }
{
    let (words, count) = first_words(cell);
    match &words[..count] {
        [word] => reply_expected(op.code(), word_expected(op), word),
        _ => Err(TableReason::Cell(Column::Reply)),
    }
}

/// The answer to an operation that was issued at a time.
fn answer_in_cell(
    op: Op,
    issued: u64,
    answered: Option<u64>,
    cell: &[u8],
) -> Result<Option<TimedReply>, TableReason>
    ensures { result ≡ answer_in_cell op issued answered cell.now }
{
    let Some(time) = answered else {
        return Ok(None);
    };
    if time < issued {
        return Err(TableReason::Backwards);
    }
    let reply = reply_in_cell(op, cell)?;
    Ok(Some(TimedReply { reply, time }))
}

/// The row of the cells of a line.
///
/// Errors: the first cell that is refused.
pub(crate) fn row_of_cells(
    line: u64,
    columns: Columns,
    cells: &[&[u8]],
) -> Result<TableRow, TableReason>
    ensures { result ≡ row_of_cells line columns (map (λ cell. cell.now) cells.now) }
{
    let processor = processor_in_cell(cell_in(cells, columns.processor))?;
    let operation = operation_in_cells(
        cell_in(cells, columns.operation),
        cell_in(cells, columns.address),
        cell_in(cells, columns.values),
    )?;
    let Some(issued) = time_in_cell(Column::Issued, cell_in(cells, columns.issued))? else {
        return Err(TableReason::Cell(Column::Issued));
    };
    let answered = time_in_cell(Column::Answered, cell_in(cells, columns.answered))?;
    let reply = cell_in(cells, columns.reply);
    let answer = answer_in_cell(operation.op, issued, answered, reply)?;
    Ok(TableRow {
        line,
        processor,
        operation,
        issued,
        answer,
    })
}

/// The row of a number, from 0.
pub(crate) fn row_at(rows: &[TableRow], number: usize) -> Option<TableRow>
    ensures { result ≡ slice_get rows.now number }
{
    rows.get(number).copied()
}

/// The processor of the row of a number, from 0; 0 where there is none.
pub(crate) fn processor_at(rows: &[TableRow], number: usize) -> u32
    ensures { result ≡ processor_in (slice_get rows.now number) }
{
    match row_at(rows, number) {
        Some(row) => row.processor,
        None => 0,
    }
}
