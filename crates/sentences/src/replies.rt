//! What the operations of a processor were replied, by its answers.

ghost use Rattle.std.specs.Prelude.{◌≡◌, ◌∷◌, ◌++◌, [], ℕ, List, map, IfOk, None, replicate};
ghost use Rattle.std.specs.Prelude.{slice_get};
ghost use Rattle.std.specs.List.{range_with_len};
ghost use Rattle.one_order.specs.declared.answer.Answer.{Answer};
ghost use Rattle.one_order.specs.Scripts.{reply_number};
ghost use Rattle.sentences.specs.Replies.{replies_in, reply_in};

use one_order::Answer;
use packet::Reply;
use std::alloc::{AllocError, Allocator};

/// The number that a reply brings; `Ok` counts as 0.
fn reply_number(reply: Reply) -> u64
    ensures { result ≡ reply_number reply }
{
    match reply {
        Reply::Ok => 0,
        Reply::Old(word) => word,
    }
}

/// What is noted of an operation; `None` where it is none of the first.
fn noted_at(replies: &[Option<u64>], index: u32) -> Option<Option<u64>>
    ensures { result ≡ slice_get replies.now index }
{
    replies.get(index as usize).copied()
}

/// Notes an answer behind these, unless its operation has one or is none of the first.
fn note(replies: &mut [Option<u64>], answer: Answer)
    ensures { (before : List Answer) (count : ℕ)
        → replies.old ≡ map (reply_in before) (range_with_len 0 count)
        → replies.new ≡ map (reply_in (before ++ answer ∷ [])) (range_with_len 0 count) }
{
    match noted_at(replies, answer.index) {
        Some(None) => replies[answer.index as usize] = Some(reply_number(answer.reply)),
        Some(Some(_reply)) => {}
        None => {}
    }
}

/// No replies to so many operations.
fn no_replies<A: Allocator>(alloc: A, count: usize) -> Result<Vec<Option<u64>, A>, AllocError>
    ensures { IfOk result (λ replies. replies.items ≡ replicate count None) }
{
    let mut replies = Vec::new(alloc);
    for _ in 0..count {
        replies.push(None)?;
    }
    Ok(replies)
}

/// What the first operations were replied, as many as there are answers.
pub(crate) fn replies_in<A: Allocator + Copy>(
    alloc: A,
    answers: &[Answer],
) -> Result<Vec<Option<u64>, A>, AllocError>
    ensures { IfOk result (λ replies. replies.items ≡ replies_in answers.now) }
{
    let mut replies = no_replies(alloc, answers.len())?;
    for answer in answers {
        note(&mut replies, *answer);
    }
    Ok(replies)
}
