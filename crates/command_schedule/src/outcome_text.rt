//! The line of an outcome.

ghost use Rattle.std.specs.Prelude.{◌≡◌, ◌∷◌, ◌++◌, [], IfOk, OnOk, Option, codes, decimal, flat_map, map};
ghost use Rattle.lexer.specs.Joined.{joined_on};
ghost use Rattle.command_schedule.specs.Answers.{answer_text, replies_behind, replies_of, told};
ghost use Rattle.command_schedule.specs.OutcomeTexts.{held_words, memory_words, outcome_line};

use crate::answer_word::AnswerWord;
use itoa::Buffer;
use packet::Reply;
use std::alloc::{AllocError, Allocator};

/// Adds bytes.
pub(crate) fn put<A: Allocator>(text: &mut Vec<u8, A>, bytes: &[u8]) -> Result<(), AllocError>
    ensures { OnOk result (text.new.items ≡ text.old.items ++ bytes.now) }
{
    text.extend_from_slice(bytes)?;
    Ok(())
}

/// Adds a number.
pub(crate) fn put_number<A: Allocator>(text: &mut Vec<u8, A>, number: u64) -> Result<(), AllocError>
    ensures { OnOk result (text.new.items ≡ text.old.items ++ decimal number) }
{
    let mut digits = Buffer::new();
    put(text, digits.format(number).as_bytes())
}

/// Adds a space and a word.
fn put_word<A: Allocator>(text: &mut Vec<u8, A>, word: &[u8]) -> Result<(), AllocError>
    ensures { OnOk result (text.new.items ≡ text.old.items ++ joined_on (word.now ∷ [])) }
{
    put(text, b" ")?;
    put(text, word)
}

/// Adds a space and a number.
fn put_value<A: Allocator>(text: &mut Vec<u8, A>, number: u64) -> Result<(), AllocError>
    ensures { OnOk result (text.new.items ≡ text.old.items ++ joined_on (decimal number ∷ [])) }
{
    let mut digits = Buffer::new();
    put_word(text, digits.format(number).as_bytes())
}

/// The word for a reply; `*` where there is none.
fn told(reply: Option<Reply>) -> AnswerWord
    ensures { result ≡ told reply }
{
    match reply {
        Some(reply) => AnswerWord::Given(reply),
        None => AnswerWord::Any,
    }
}

/// Adds the words for the replies of one processor.
fn push_told<A: Allocator>(
    words: &mut Vec<AnswerWord, A>,
    replies: &[Option<Reply>],
) -> Result<(), AllocError>
    ensures { OnOk result (words.new.items ≡ words.old.items ++ map told replies.now) }
{
    for reply in replies {
        words.push(told(*reply))?;
    }
    Ok(())
}

/// Adds the replies of a processor behind what parts them from others; nothing where it has none.
fn push_behind<A: Allocator>(
    words: &mut Vec<AnswerWord, A>,
    replies: &[Option<Reply>],
) -> Result<(), AllocError>
    ensures { OnOk result (words.new.items ≡ words.old.items ++ replies_behind replies.now) }
{
    if replies.is_empty() {
        return Ok(());
    }
    words.push(AnswerWord::Parting)?;
    push_told(words, replies)
}

/// The replies of all processors, each processor's behind what parts them.
fn all_behind<A: Allocator + Copy>(
    alloc: A,
    shown: &[Vec<Option<Reply>, A>],
) -> Result<Vec<AnswerWord, A>, AllocError>
    ensures { IfOk result (λ words. words.items
        ≡ flat_map replies_behind (map (λ replies. replies.items) shown.now)) }
{
    let mut words = Vec::new(alloc);
    for replies in shown {
        push_behind(&mut words, replies.as_slice())?;
    }
    Ok(words)
}

/// The words for the replies of processors: of each that has any, one behind the other.
///
/// Errors: memory.
pub(crate) fn replies_of<A: Allocator + Copy>(
    alloc: A,
    shown: &[Vec<Option<Reply>, A>],
) -> Result<Vec<AnswerWord, A>, AllocError>
    ensures { IfOk result (λ words. words.items
        ≡ replies_of (map (λ replies. replies.items) shown.now)) }
{
    let words = all_behind(alloc, shown)?;
    match words.as_slice() {
        [] => Ok(Vec::new(alloc)),
        [_, rest @ ..] => Vec::from_slice(alloc, rest),
    }
}

/// Adds a space and a word of an answer.
fn put_answer_word<A: Allocator>(text: &mut Vec<u8, A>, word: AnswerWord) -> Result<(), AllocError>
    ensures { OnOk result (text.new.items ≡ text.old.items ++ joined_on (answer_text word ∷ [])) }
{
    match word {
        AnswerWord::Parting => put_word(text, b"/"),
        AnswerWord::Any => put_word(text, b"*"),
        AnswerWord::Given(Reply::Ok) => put_word(text, b"ok"),
        AnswerWord::Given(Reply::Old(value)) => put_value(text, value),
    }
}

/// Adds the words of an answer.
fn put_answer<A: Allocator>(text: &mut Vec<u8, A>, words: &[AnswerWord]) -> Result<(), AllocError>
    ensures { OnOk result (text.new.items ≡ text.old.items
        ++ joined_on (map answer_text words.now)) }
{
    for word in words {
        put_answer_word(text, *word)?;
    }
    Ok(())
}

/// Adds an address and its word, if that isn't 0.
fn put_held<A: Allocator>(
    text: &mut Vec<u8, A>,
    address: usize,
    value: u64,
) -> Result<(), AllocError>
    ensures { OnOk result (text.new.items ≡ text.old.items
        ++ joined_on (held_words address value)) }
{
    if value == 0 {
        return Ok(());
    }
    put_value(text, address as u64)?;
    put_value(text, value)
}

/// Adds the words of the memory that aren't 0, each behind its address.
fn put_memory<A: Allocator>(text: &mut Vec<u8, A>, words: &[u64]) -> Result<(), AllocError>
    ensures { OnOk result (text.new.items ≡ text.old.items ++ joined_on (memory_words words.now)) }
{
    for at in 0..words.len() {
        put_held(text, at, words[at])?;
    }
    Ok(())
}

/// Adds the line of the outcome of a number.
///
/// Errors: memory.
pub(crate) fn put_outcome<A: Allocator + Copy>(
    alloc: A,
    text: &mut Vec<u8, A>,
    number: usize,
    shown: &[Vec<Option<Reply>, A>],
    words: &[u64],
) -> Result<(), AllocError>
    ensures { OnOk result (text.new.items ≡ text.old.items
        ++ outcome_line number (map (λ replies. replies.items) shown.now) words.now) }
{
    let replies = replies_of(alloc, shown)?;
    put(text, b"outcome")?;
    put_value(text, number as u64)?;
    put_word(text, b":")?;
    put_answer(text, replies.as_slice())?;
    put_word(text, b";")?;
    put_memory(text, words)?;
    put(text, b"\n")
}
