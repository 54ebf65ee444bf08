//! What the lines of a trace text before one of them give.

ghost use Rattle.std.specs.Prelude.{◌≡◌, map};
ghost use Rattle.std.specs.Str.Lines.{lines};
ghost use Rattle.trace_why.specs.Before.{first_word_gives, sought_by, sought_in_line};
ghost use Rattle.trace_why.specs.Before.{line_giving, earlier_words, earlier_line};

use lexer::{Before, Refusal, Sought, first_value, first_words, line_at, second_value};
use trace_lines::LineReason;
use trace_text::TraceReason;

/// What a line is looked for: that it gives this.
#[derive(Clone, Copy)]
pub(crate) enum Wanted {
    /// The number of words.
    Words,
    /// The opening word of an address.
    Init(u128),
    /// An issue.
    Issue,
    /// An issue of a processor.
    IssueOf(u128),
    /// The answer to the operation of a processor and an index.
    Answer(u128, u128),
}

impl Sought for Wanted {
    ghost use Rattle.trace_why.specs.Before.{gives_line};

    ghost gives = { gives_line };

    fn is_in(self, words: &[&[u8]]) -> bool {
        match words {
            [] => false,
            [word, values @ ..] => {
                self.first_word_gives(word, first_value(values), second_value(values))
            }
        }
    }
}

impl Wanted {
    /// Whether a line of a first word and of these numbers behind it gives it.
    fn first_word_gives(self, word: &[u8], a: u128, b: u128) -> bool
        ensures { result ≡ first_word_gives self word.now a b }
    {
        match self {
            Wanted::Words => word == b"words".as_slice(),
            Wanted::Init(address) => word == b"init".as_slice() && a == address,
            Wanted::Issue => word == b"issue".as_slice(),
            Wanted::IssueOf(p) => word == b"issue".as_slice() && a == p,
            Wanted::Answer(p, index) => word == b"answer".as_slice() && a == p && b == index,
        }
    }
}

/// What a line before a refused one gives, by the reason and the words behind the keyword, and how many
/// other lines before that give it come first; `None` where the reason is about no line before.
fn sought_by(reason: TraceReason, values: &[&[u8]]) -> Option<(Wanted, u128)>
    ensures { result ≡ sought_by reason (map (λ value. value.now) values.now) }
{
    match reason {
        TraceReason::Line(why) => sought_in_line(why, values),
        TraceReason::AnsweredTwice => Some((
            Wanted::Answer(first_value(values), second_value(values)),
            0,
        )),
        _ => None,
    }
}

/// What a line before a refused one gives, by a reason that a trace and a log have in common and the words
/// behind the keyword, and how many other lines before that give it come first; `None` where the reason is
/// about no line before.
fn sought_in_line(reason: LineReason, values: &[&[u8]]) -> Option<(Wanted, u128)>
    ensures { result ≡ sought_in_line reason (map (λ value. value.now) values.now) }
{
    let a = first_value(values);
    let b = second_value(values);
    match reason {
        LineReason::WordsTwice => Some((Wanted::Words, 0)),
        LineReason::InitLate => Some((Wanted::Issue, 0)),
        LineReason::InitTwice => Some((Wanted::Init(a), 0)),
        LineReason::OkUnwanted => Some((Wanted::IssueOf(a), b)),
        LineReason::NumberUnwanted => Some((Wanted::IssueOf(a), b)),
        _ => None,
    }
}

/// The number of the line before that gives what is sought; 0 where none does.
fn line_giving(before: Before<'_>, sought: Option<(Wanted, u128)>) -> u64
    ensures { result ≡ line_giving sought before.entry.stop (lines before.entry.text.now) }
{
    let Some((wanted, behind)) = sought else {
        return 0;
    };
    match before.given(wanted, behind) {
        Some((at, _)) => at,
        None => 0,
    }
}

/// The line before that the reason is about for which these words are refused; 0 where there is none.
fn earlier_words(before: Before<'_>, reason: TraceReason, words: &[&[u8]]) -> u64
    ensures { result ≡ earlier_words reason before.entry.stop (lines before.entry.text.now)
        (map (λ word. word.now) words.now) }
{
    match words {
        [] => 0,
        [_, values @ ..] => line_giving(before, sought_by(reason, values)),
    }
}

/// The line before a refused one that the reason is about: that gave the same already, the first issue,
/// or the issue of the operation that is answered. 0 where the reason is about no line before.
pub fn earlier_line(text: &[u8], refusal: Refusal<TraceReason>) -> u64
    ensures { result ≡ earlier_line refusal (lines text.now) }
{
    let before = Before {
        text,
        stop: refusal.line,
    };
    match line_at(text, refusal.line) {
        Some(found) => {
            let (words, count) = first_words(found);
            earlier_words(before, refusal.reason, &words[..count])
        }
        None => 0,
    }
}
