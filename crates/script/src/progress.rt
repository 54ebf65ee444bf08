ghost use Rattle.std.specs.Prelude.{◌≡◌, ◌<◌, ◌≤◌, ◌+◌, ◌∷◌, [], length, map, replicate, slice_index, true};
ghost use Rattle.std.specs.Prelude.{OnOk, IfOk, IfNone, vec_len, Ok};
ghost use Rattle.lexer.specs.Outcome.{Makes};
ghost use Rattle.script_lines.specs.Lines.{IsAcceptedLine};
ghost use Rattle.script.specs.Scripts.{add_line, after_words, take_line, no_room};
ghost use Rattle.script_lines.specs.Lines.{mentions_last, operations_of};
ghost use Rattle.script_lines.specs.Views.{lists_of};
ghost use Rattle.script.specs.ScriptViews.{IsCounted};

use crate::form::line_or_why;
use crate::lists::{empty_lists, push_line};
use crate::reason::TextReason;
use crate::{Line, LineList};
use std::alloc::{AllocError, Allocator};

/// The scripts so far.
#[derive(Drop)]
pub(crate) struct Progress<A: Allocator> {
    /// The words of the memory.
    pub(crate) words: u32,
    pub(crate) lists: Vec<LineList<A>, A>,
    /// The operations of each processor.
    pub(crate) counts: Vec<u32, A>,
    /// The operations in all.
    pub(crate) total: u32,
}

impl<A: Allocator + Copy> Progress<A> {
    /// No line is read.
    pub(crate) fn none(alloc: A, tiles: u32, words: u32) -> Result<Progress<A>, AllocError>
        requires { tiles ≤ 64 }
        ensures words { IfOk result (λ p. p.words ≡ words) }
        ensures lists { IfOk result (λ p. lists_of p.lists.items ≡ replicate tiles []) }
        ensures tiles { IfOk result (λ p. vec_len p.lists ≡ tiles) }
        ensures counted { IfOk result IsCounted }
    {
        let lists = empty_lists(alloc, tiles)?;
        let counts = zeros(alloc, tiles)?;
        Ok(Progress {
            words,
            lists,
            counts,
            total: 0,
        })
    }

    /// Takes what the words of a line say.
    pub(crate) fn take(&mut self, words: &[&[u8]]) -> Result<(), TextReason>
        requires { IsCounted self.old }
        ensures value { Makes TextReason.Memory (lists_of self.new.lists.items) result
            (after_words self.old.words (lists_of self.old.lists.items)
            (map (λ word. word.now) words.now)) }
        ensures words { self.new.words ≡ self.old.words }
        ensures tiles { vec_len self.new.lists ≡ vec_len self.old.lists }
        ensures counted { OnOk result (IsCounted self.new) }
    {
        match words {
            [] => Ok(()),
            [[b'#', ..], ..] => Ok(()),
            [processor, rest @ ..] => self.take_line(processor, rest),
        }
    }

    /// Takes the line of a processor.
    fn take_line(&mut self, processor: &[u8], rest: &[&[u8]]) -> Result<(), TextReason>
        requires { IsCounted self.old }
        ensures value { Makes TextReason.Memory (lists_of self.new.lists.items) result
            (take_line self.old.words (lists_of self.old.lists.items) processor.now
            (map (λ word. word.now) rest.now)) }
        ensures words { self.new.words ≡ self.old.words }
        ensures tiles { vec_len self.new.lists ≡ vec_len self.old.lists }
        ensures counted { OnOk result (IsCounted self.new) }
    {
        let (p, line) = line_or_why(processor, rest, self.lists.len() as u32, self.words)?;
        self.add(p as usize, line)
    }

    /// Adds a line to the script of a processor.
    fn add(&mut self, p: usize, line: Line) -> Result<(), TextReason>
        requires counted { IsCounted self.old }
        requires tile { p < vec_len self.old.lists }
        requires line { IsAcceptedLine self.old.words line }
        ensures value { Makes TextReason.Memory (lists_of self.new.lists.items) result
            (add_line (lists_of self.old.lists.items) p line) }
        ensures words { self.new.words ≡ self.old.words }
        ensures tiles { vec_len self.new.lists ≡ vec_len self.old.lists }
        ensures counted { OnOk result (IsCounted self.new) }
    {
        if let Some(reason) = self.no_room(p, line) {
            return Err(reason);
        }
        let count = self.counts[p];
        let operations = line.operations();
        push_line(&mut self.lists, p, line)?;
        self.counts[p] = count + operations;
        self.total += operations;
        Ok(())
    }

    /// Why a line may not stand at the end of the script of a processor.
    fn no_room(&self, p: usize, line: Line) -> Option<TextReason>
        requires counted { IsCounted self.now }
        requires tile { p < vec_len self.now.lists }
        requires line { IsAcceptedLine self.now.words line }
        ensures value { result ≡ no_room (lists_of self.now.lists.items) p line }
        ensures later { IfNone result (mentions_last line ≡ true
            → 0 < slice_index self.now.counts.items p) }
        ensures few { IfNone result
            (slice_index self.now.counts.items p + operations_of line ≤ 4096) }
        ensures all { IfNone result (self.now.total + operations_of line ≤ 65536) }
    {
        let count = self.counts[p];
        if line.mentions_last() && count == 0 {
            return Some(TextReason::LastFirst);
        }
        let own = count + line.operations();
        if own > 4096 {
            return Some(TextReason::ScriptLength(own));
        }
        let all = self.total + line.operations();
        if all > 65536 {
            return Some(TextReason::ScriptsLength(all));
        }
        None
    }
}

/// A count of 0 for each tile.
fn zeros<A: Allocator>(alloc: A, tiles: u32) -> Result<Vec<u32, A>, AllocError>
    ensures { IfOk result (λ counts. counts.items ≡ replicate tiles 0) }
{
    vec![in alloc; 0u32; tiles as usize]
}
