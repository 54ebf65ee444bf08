//! The line on replies that seem to be what operations leave, in place of what they find.

ghost use Rattle.std.specs.Prelude.{◌≡◌, ◌==◌, position};
ghost use Rattle.packet.specs.Memory.{new_word};

use packet::{Op, Reply, apply};
use program_fault::told;
use std::alloc::Global;
use trace_why::{NoOrderSentence, WhyNot};

/// What an operation leaves is its reply, where it finds this word.
#[derive(Clone, Copy)]
struct LeftWord {
    found: u64,
    left: u64,
}

/// The place of the first word where an operation leaves another one.
fn place_before(op: Op, left: u64, words: &[u64]) -> Option<usize>
    ensures { result ≡ position (λ word. new_word op word == left) words.now }
{
    words.iter().position(|word| apply(op, *word).0 == left)
}

/// Of the words that the answered operation may find one where it leaves its reply.
fn left_word(why: &WhyNot<Global>) -> Option<LeftWord> {
    let Reply::Old(left) = why.reply else {
        return None;
    };
    for issue in &why.pending {
        if issue.call.id == why.id {
            let place = place_before(issue.call.operation.op, left, &why.values)?;
            let found = why.values.get(place).copied()?;
            return Some(LeftWord { found, left });
        }
    }
    None
}

/// Says why no order explains a trace, where that is found; and whether the trace seems to have new words as
/// replies.
pub(crate) fn tell_no_order<R: Eprint>(
    rt: &R,
    name: &str,
    sentence: Option<NoOrderSentence<'_, Global>>,
) {
    let left = match &sentence {
        Some(sentence) => left_word(&sentence.why),
        None => None,
    };
    let _ = told(rt, sentence);
    if let Some(LeftWord { found, left }) = left {
        let _ = eprintln!(rt;
            "{name}: where it finds {found} it leaves {left}, and a reply is the word before: \
            does the log have the new word?"
        );
    }
}
