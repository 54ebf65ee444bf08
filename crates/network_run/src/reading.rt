//! The moves of a run text.

ghost use Rattle.std.specs.Prelude.{◌≡◌, map, IfOk, OnOk};
ghost use Rattle.std.specs.Str.Lines.{lines};
ghost use Rattle.lexer.specs.Outcome.{Gives, Makes};
ghost use Rattle.network_run.specs.Moved.{HasLines, after_move_words, after_move_word, run_or_why};
ghost use Rattle.network_run.specs.Moved.{run_spec, with_run_move, no_moves};

use crate::reason::{MoveKeyword, RunReason};
use crate::spelling::spelled_move;
use lexer::{Refusal, first_words, next_line};
use network_machine::Move;
use std::alloc::{AllocError, Allocator, Global};

/// The moves of a run text, and the number of the line of each.
#[derive(Drop)]
pub struct RunMoves<A: Allocator = Global> {
    pub moves: Vec<Move, A>,
    pub lines: Vec<u64, A>,
}

impl<A: Allocator + Copy> RunMoves<A> {
    /// No move.
    fn none(alloc: A) -> RunMoves<A>
        ensures { run_spec result ≡ no_moves }
    {
        RunMoves {
            moves: Vec::new(alloc),
            lines: Vec::new(alloc),
        }
    }

    /// Adds the move of a line.
    ///
    /// Errors: out of memory.
    fn push(&mut self, number: u64, of: Move) -> Result<(), AllocError>
        requires { HasLines (run_spec self.old) }
        ensures value { OnOk result
            (run_spec self.new ≡ with_run_move (run_spec self.old) number of) }
        ensures lines { OnOk result (HasLines (run_spec self.new)) }
    {
        self.moves.push(of)?;
        self.lines.push(number)?;
        Ok(())
    }

    /// Takes the words of a line whose first word may be a keyword.
    fn take_move(
        &mut self,
        number: u64,
        keyword: Option<MoveKeyword>,
        values: &[&[u8]],
    ) -> Result<(), RunReason>
        requires { HasLines (run_spec self.old) }
        ensures value { Makes RunReason.Memory (run_spec self.new) result
            (after_move_word (run_spec self.old) number keyword
            (map (λ value. value.now) values.now)) }
        ensures lines { OnOk result (HasLines (run_spec self.new)) }
    {
        let Some(keyword) = keyword else {
            return Err(RunReason::UnknownKeyword);
        };
        let of = spelled_move(keyword, values)?;
        self.push(number, of)?;
        Ok(())
    }

    /// Takes what the words of the line of a number give.
    fn take(&mut self, number: u64, words: &[&[u8]]) -> Result<(), RunReason>
        requires { HasLines (run_spec self.old) }
        ensures value { Makes RunReason.Memory (run_spec self.new) result
            (after_move_words (run_spec self.old) number (map (λ word. word.now) words.now)) }
        ensures lines { OnOk result (HasLines (run_spec self.new)) }
    {
        match words {
            [] => Ok(()),
            [[b'#', ..], ..] => Ok(()),
            [word, values @ ..] => self.take_move(number, MoveKeyword::of(word), values),
        }
    }
}

/// Reads a run text.
///
/// Errors: where and why its first bad line is refused, or that a request for memory was.
pub fn read_run<A: Allocator + Copy>(
    alloc: A,
    text: &[u8],
) -> Result<RunMoves<A>, Refusal<RunReason>>
    ensures gives { Gives RunReason.Memory run_spec result (run_or_why (lines text.now)) }
    ensures lines { IfOk result (λ run. HasLines (run_spec run)) }
{
    let mut run = RunMoves::none(alloc);
    let mut number = 1u64;
    let mut rest = text;
    while let Some((line, after)) = next_line(rest) {
        let (words, count) = first_words(line);
        if let Err(reason) = run.take(number, &words[..count]) {
            return Err(Refusal::at(number, reason));
        }
        number += 1;
        rest = after;
    }
    Ok(run)
}
