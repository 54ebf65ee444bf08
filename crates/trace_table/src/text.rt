//! The trace text of rows that stand in the order of their issues.

ghost use Rattle.std.specs.Prelude.{◌≡◌, ◌≤◌, ◌+◌, ◌^◌, ◌∷◌, ◌++◌, [], IfOk, OnOk};
ghost use Rattle.std.specs.Prelude.{decimal, map, max};
ghost use Rattle.lexer.specs.Joined.{joined_on};
ghost use Rattle.packet.specs.Names.{values_listed};
ghost use Rattle.report_lines.specs.Line.{op_words, reply_word};
ghost use Rattle.trace_table.specs.Text.{AreOwnIndexes, answer_text, issue_text, moment_text};
ghost use Rattle.trace_table.specs.Text.{moments_text, table_text, words_needed};

use crate::counting::counted;
use crate::moment::Moment;
use crate::row::{TableRow, processor_at};
use itoa::Buffer;
use packet::{Op, Operation, Reply, Values};
use std::alloc::{AllocError, Allocator};
use std::collections::BTreeMap;

/// Adds a space and a word.
fn put_word<A: Allocator>(text: &mut Vec<u8, A>, word: &[u8]) -> Result<(), AllocError>
    ensures { OnOk result (text.new.items ≡ text.old.items ++ (32 ∷ word.now)) }
{
    text.push(b' ')?;
    text.extend_from_slice(word)
}

/// Adds a space and a number.
fn put_number<A: Allocator>(text: &mut Vec<u8, A>, number: u64) -> Result<(), AllocError>
    ensures { OnOk result (text.new.items ≡ text.old.items ++ (32 ∷ decimal number)) }
{
    let mut buffer = Buffer::new();
    put_word(text, buffer.format(number).as_bytes())
}

/// Adds the values of an operation.
fn put_values<A: Allocator>(text: &mut Vec<u8, A>, values: Values) -> Result<(), AllocError>
    ensures { OnOk result (text.new.items
        ≡ text.old.items ++ joined_on (map decimal (values_listed values))) }
{
    match values {
        Values::None => Ok(()),
        Values::One(value) => put_number(text, value),
        Values::Two(first, second) => {
            put_number(text, first)?;
            put_number(text, second)
        }
    }
}

/// Adds the operation with its address and its values.
fn put_op<A: Allocator>(text: &mut Vec<u8, A>, op: Op, address: u32) -> Result<(), AllocError>
    ensures { OnOk result
        (text.new.items ≡ text.old.items ++ joined_on (op_words op address [])) }
{
    put_word(text, op.code().word().as_bytes())?;
    put_number(text, u64::from(address))?;
    put_values(text, op.values())
}

/// Adds a space and a reply.
fn put_reply<A: Allocator>(text: &mut Vec<u8, A>, reply: Reply) -> Result<(), AllocError>
    ensures { OnOk result (text.new.items ≡ text.old.items ++ (32 ∷ reply_word reply)) }
{
    match reply {
        Reply::Ok => put_word(text, b"ok".as_slice()),
        Reply::Old(word) => put_number(text, word),
    }
}

/// Adds the line of an issue.
fn put_issue<A: Allocator>(text: &mut Vec<u8, A>, row: &TableRow) -> Result<(), AllocError>
    ensures { OnOk result (text.new.items ≡ text.old.items ++ issue_text row.now) }
{
    text.extend_from_slice(b"issue".as_slice())?;
    put_number(text, u64::from(row.processor))?;
    put_op(text, row.operation.op, row.operation.address)?;
    text.push(b'\n')?;
    Ok(())
}

/// Adds the line of an answer to the operation of a processor that has this index.
fn put_answer<A: Allocator>(
    text: &mut Vec<u8, A>,
    processor: u32,
    index: u64,
    reply: Reply,
) -> Result<(), AllocError>
    ensures { OnOk result
        (text.new.items ≡ text.old.items ++ answer_text processor index reply) }
{
    text.extend_from_slice(b"answer".as_slice())?;
    put_number(text, u64::from(processor))?;
    put_number(text, index)?;
    put_reply(text, reply)?;
    text.push(b'\n')?;
    Ok(())
}

/// The indexes of rows among those of their processors.
fn own_indexes<A: Allocator + Copy>(alloc: A, rows: &[TableRow]) -> Result<Vec<u64, A>, AllocError>
    ensures { IfOk result (λ indexes. AreOwnIndexes rows.now indexes.items) }
{
    let mut counts = BTreeMap::new(alloc);
    let mut indexes = Vec::new(alloc);
    for i in 0..rows.len() {
        let processor = processor_at(rows, i);
        let index = counted(&mut counts, processor)?;
        indexes.push(index)?;
    }
    Ok(indexes)
}

/// So many words, or as many as an operation needs.
fn wider(words: u64, operation: Operation) -> u64
    ensures value { result ≡ max words (operation.address + 1) }
    ensures low { words ≤ 2 ^ 32 → result ≤ 2 ^ 32 }
{
    words.max(u64::from(operation.address) + 1)
}

/// The words of the memory that rows need.
fn words_needed(rows: &[TableRow]) -> u64
    ensures value { result ≡ words_needed rows.now }
    ensures low { result ≤ 2 ^ 32 }
{
    let mut words = 1u64;
    let mut left = rows;
    while let [row, rest @ ..] = left {
        words = wider(words, row.operation);
        left = rest;
    }
    words
}

/// Adds the line of a moment.
fn put_moment<A: Allocator>(
    text: &mut Vec<u8, A>,
    rows: &[TableRow],
    indexes: &[u64],
    moment: Moment,
) -> Result<(), AllocError>
    requires { AreOwnIndexes rows.now indexes.now }
    ensures { OnOk result (text.new.items ≡ text.old.items ++ moment_text rows.now moment) }
{
    let Some(row) = rows.get(moment.row) else {
        return Ok(());
    };
    if !moment.is_answer {
        return put_issue(text, row);
    }
    let Some(index) = indexes.get(moment.row) else {
        return Ok(());
    };
    match row.answer {
        Some(answer) => put_answer(text, row.processor, *index, answer.reply),
        None => Ok(()),
    }
}

/// Adds the lines of moments.
fn put_moments<A: Allocator>(
    text: &mut Vec<u8, A>,
    rows: &[TableRow],
    indexes: &[u64],
    moments: &[Moment],
) -> Result<(), AllocError>
    requires { AreOwnIndexes rows.now indexes.now }
    ensures { OnOk result
        (text.new.items ≡ text.old.items ++ moments_text rows.now moments.now) }
{
    let mut left = moments;
    while let [moment, rest @ ..] = left {
        put_moment(text, rows, indexes, *moment)?;
        left = rest;
    }
    Ok(())
}

/// The trace text of rows, which stand in the order of their issues, and of moments.
pub(crate) fn table_text<A: Allocator + Copy>(
    alloc: A,
    rows: &[TableRow],
    moments: &[Moment],
) -> Result<Vec<u8, A>, AllocError>
    ensures { IfOk result (λ text. text.items ≡ table_text rows.now moments.now) }
{
    let indexes = own_indexes(alloc, rows)?;
    let mut text = Vec::new(alloc);
    text.extend_from_slice(b"trace 1\nwords".as_slice())?;
    put_number(&mut text, words_needed(rows))?;
    text.push(b'\n')?;
    put_moments(&mut text, rows, &indexes, moments)?;
    Ok(text)
}
