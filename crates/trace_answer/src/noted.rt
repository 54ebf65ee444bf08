//! The words that operations found, noted by address.

ghost use Rattle.std.specs.Prelude.{◌≡◌, ℕ, false, OnOk, true};
ghost use Rattle.trace_answer.specs.Noted.{AddsNote, AddsNotesOf, Note, has, is_met};
ghost use Rattle.trace_answer.specs.declared.leaving.Words.TheVariants.{Any, One};

use crate::leaving::Words;
use std::alloc::{AllocError, Allocator};
use std::collections::HashSet;
use std::hash::{BuildHasherDefault, FoldHasher};

/// Words that operations found.
#[derive(Drop)]
pub(crate) struct FoundWords<A: Allocator> {
    /// Addresses, each with a word that was found there.
    words: HashSet<(u32, u64), BuildHasherDefault<FoldHasher>, A>,
    /// Addresses where any word may have been found.
    any: HashSet<u32, BuildHasherDefault<FoldHasher>, A>,
    /// Addresses where a word was found, or may have been.
    some: HashSet<u32, BuildHasherDefault<FoldHasher>, A>,
}

impl<A: Allocator + Copy> FoundWords<A> {
    /// No words.
    pub(crate) fn none(alloc: A) -> FoundWords<A>
        ensures { (a : ℕ) (note : Note) → has result a note ≡ false }
    {
        FoundWords {
            words: HashSet::new(alloc),
            any: HashSet::new(alloc),
            some: HashSet::new(alloc),
        }
    }

    /// Notes a word that was found at an address.
    fn note_word(&mut self, address: u32, word: u64) -> Result<(), AllocError>
        ensures { OnOk result (AddsNote self.old self.new address (Note.Word word)) }
    {
        self.words.insert((address, word))?;
        Ok(())
    }

    /// Notes that any word may have been found at an address.
    fn note_any(&mut self, address: u32) -> Result<(), AllocError>
        ensures { OnOk result (AddsNote self.old self.new address Note.Anything) }
    {
        self.any.insert(address)?;
        Ok(())
    }

    /// Notes that a word was found at an address, or may have been.
    fn note_some(&mut self, address: u32) -> Result<(), AllocError>
        ensures { OnOk result (AddsNote self.old self.new address Note.Something) }
    {
        self.some.insert(address)?;
        Ok(())
    }

    /// Notes that a word was found at an address, and that one was.
    fn note_one(&mut self, address: u32, word: u64) -> Result<(), AllocError>
        ensures { OnOk result (AddsNotesOf self.old self.new address (One word)) }
    {
        self.note_word(address, word)?;
        self.note_some(address)
    }

    /// Notes that any word may have been found at an address, and that one may have been.
    fn note_each(&mut self, address: u32) -> Result<(), AllocError>
        ensures { OnOk result (AddsNotesOf self.old self.new address Any) }
    {
        self.note_any(address)?;
        self.note_some(address)
    }

    /// Notes what was found at an address.
    pub(crate) fn note(&mut self, address: u32, found: Words) -> Result<(), AllocError>
        ensures { OnOk result (AddsNotesOf self.old self.new address found) }
    {
        match found {
            Words::Nothing => Ok(()),
            Words::One(word) => self.note_one(address, word),
            Words::Any => self.note_each(address),
        }
    }
}

impl<A: Allocator> FoundWords<A> {
    /// Whether one of some words was found at an address, or may have been.
    pub(crate) fn meets(&self, address: u32, words: Words) -> bool
        ensures { result ≡ is_met self.now address words }
    {
        match words {
            Words::Nothing => false,
            Words::One(word) => {
                self.words.contains(&(address, word)) || self.any.contains(&address)
            }
            Words::Any => self.some.contains(&address),
        }
    }
}
