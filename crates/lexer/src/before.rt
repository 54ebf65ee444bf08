//! The lines of a text before one of them, and what they give.

ghost use Rattle.std.specs.Prelude.{◌≡◌, map, option_map};
ghost use Rattle.std.specs.Str.Lines.{lines};
ghost use Rattle.lexer.specs.Before.{given, line_that_gives};

use crate::lines::next_line;
use crate::words::first_words;

/// What a line is looked for.
pub trait Sought: Copy {
    ghost use Rattle.std.specs.Prelude.{ℕ, Bool, List};

    // Which words give it.
    ghost gives: { Self → List (List ℕ) → Bool };

    /// Whether words give it.
    fn is_in(self, words: &[&[u8]]) -> bool
        ensures { result ≡ gives self (map (λ word. word.now) words.now) };
}

/// The lines of a text before the line of a number, which counts from 1.
#[derive(Clone, Copy)]
pub struct Before<'a> {
    pub text: &'a [u8],
    pub stop: u64,
}

impl<'a> Before<'a> {
    /// The first line behind so many others that gives what is sought, and its number.
    pub fn given<S: Sought>(self, sought: S, behind: u128) -> Option<(u64, &'a [u8])>
        ensures { option_map (λ p. (p.0, p.1.now)) result
            ≡ given (S.gives sought) self.entry.stop behind 1 (lines self.entry.text.now) }
    {
        let mut at = 1u64;
        let mut left = behind;
        let mut rest = self.text;
        while let Some((line, after)) = next_line(rest) {
            if at >= self.stop {
                return None;
            }
            let (words, count) = first_words(line);
            if sought.is_in(&words[..count]) {
                if left == 0 {
                    return Some((at, line));
                }
                left -= 1;
            }
            at += 1;
            rest = after;
        }
        None
    }

    /// The number of the first line that gives what is sought.
    pub fn line_that_gives<S: Sought>(self, sought: S) -> Option<u64>
        ensures { result
            ≡ line_that_gives (S.gives sought) self.entry.stop (lines self.entry.text.now) }
    {
        match self.given(sought, 0) {
            Some((at, _)) => Some(at),
            None => None,
        }
    }
}
