//! The head of a trace or a log: its first line, the number of words, and opening words.

ghost use Rattle.std.specs.Prelude.{◌≡◌, ◌≤◌, ◌<◌, ◌^◌, ◌&&◌, true, codes, map, unwrap_or, IfNone};
ghost use Rattle.std.specs.Prelude.{IfOk};
ghost use Rattle.std.specs.Str.{bytes_eq};
ghost use Rattle.lexer.specs.Outcome.{Makes};
ghost use Rattle.trace_lines.specs.Head.{no_head, value_in, after_title, after_words_line};
ghost use Rattle.trace_lines.specs.Head.{words_read, opening_wrong, init_read, after_init_line};
ghost use Rattle.trace_lines.specs.Head.{processor_read, head_missing};

use crate::number::number_at;
use crate::reason::{HeadKeyword, LineReason};
use std::alloc::{Allocator, Global};
use std::collections::BTreeMap;
use std::marker::Model;

/// What the lines of a head gave.
#[derive(Drop)]
pub struct Head<A: Allocator = Global> {
    /// Whether the first line came.
    begun: bool,
    /// The words of the memory, 0 before their number is given.
    words: u64,
    /// The opening words that `init` lines gave, by address.
    inits: BTreeMap<u32, u64, A>,
}

impl<A: Allocator> Model for Head<A> {
    ghost use Rattle.trace_lines.specs.Head.{HeadSpec};

    ghost Value = { HeadSpec };

    ghost use Rattle.trace_lines.specs.InsideHead.{head_of_fields, IsHead};

    ghost view = { head_of_fields };

    ghost invariant = { IsHead };
}

/// Whether these are the words of the first line of a format.
fn is_title(name: &[u8], keyword: &[u8], version: &[u8]) -> bool
    ensures { result ≡ (bytes_eq keyword.now name.now && bytes_eq version.now (codes "1")) }
{
    keyword == name && version == b"1".as_slice()
}

impl<A: Allocator> Head<A> {
    /// Nothing is given.
    pub fn none(alloc: A) -> Head<A>
        ensures { result ≡ no_head }
    {
        Head {
            begun: false,
            words: 0,
            inits: BTreeMap::new(alloc),
        }
    }

    /// Whether the first line came.
    pub fn begun(&self) -> bool
        ensures { result ≡ self.now.begun }
    {
        self.begun
    }

    /// The number of words of the memory, at most 2^32; 0 before it is given.
    pub fn words(&self) -> u64
        ensures value { result ≡ self.now.words }
        ensures low { result ≤ 2 ^ 32 }
    {
        self.words
    }

    /// The opening word at an address, 0 where no line gave it.
    pub fn opening(&self, address: u32) -> u64
        ensures { result ≡ unwrap_or (value_in self.now.inits address) 0 }
    {
        self.inits.get(&address).copied().unwrap_or(0)
    }

    /// The processor of an operation.
    pub fn processor(&self, p: u128) -> Result<u32, LineReason>
        ensures value { result ≡ processor_read self.now p }
        ensures low { IfOk result (λ q. q < 4096) }
    {
        if self.words == 0 {
            return Err(LineReason::WordsFirst);
        }
        if p >= 4096 {
            return Err(LineReason::ProcessorLimits);
        }
        Ok(p as u32)
    }

    /// What a text lacks that ends here.
    pub fn missing(&self) -> Option<LineReason>
        ensures { result ≡ head_missing self.now }
    {
        if !self.begun {
            return Some(LineReason::TitleMissing);
        }
        if self.words == 0 {
            return Some(LineReason::WordsMissing);
        }
        None
    }
}

impl<A: Allocator + Copy> Head<A> {
    /// Takes the first line of a format.
    pub fn take_title(
        &mut self,
        name: &[u8],
        keyword: &[u8],
        values: &[&[u8]],
    ) -> Result<(), LineReason>
        ensures { Makes LineReason.Memory self.new result
            (after_title self.old name.now keyword.now (map (λ value. value.now) values.now)) }
    {
        match values {
            [version] => {
                if is_title(name, keyword, version) {
                    self.begun = true;
                    return Ok(());
                }
                Err(LineReason::NoTitle)
            }
            _ => Err(LineReason::NoTitle),
        }
    }

    /// Takes the number of words, behind its keyword.
    pub fn take_words(&mut self, values: &[&[u8]]) -> Result<(), LineReason>
        ensures { Makes LineReason.Memory self.new result
            (after_words_line self.old (map (λ value. value.now) values.now)) }
    {
        match values {
            [count] => {
                let words = number_at(1, count)?;
                self.set_count(words)
            }
            _ => Err(LineReason::WordCount(HeadKeyword::Words)),
        }
    }

    /// Sets the number of words.
    ///
    /// Errors: it is set already, or isn't 1 to 2^32.
    pub fn set_count(&mut self, words: u128) -> Result<(), LineReason>
        ensures { Makes LineReason.Memory self.new result (words_read self.old words) }
    {
        if self.words != 0 {
            return Err(LineReason::WordsTwice);
        }
        if !(1 <= words && words <= 1 << 32) {
            return Err(LineReason::WordsLimits);
        }
        self.words = words as u64;
        Ok(())
    }

    /// The first line has come.
    pub fn begin(&mut self)
        ensures { self.new ≡ record (self.old) { begun = true } }
    {
        self.begun = true;
    }

    /// Takes the address and the value of an opening word. Behind an operation it is late.
    pub fn take_init(&mut self, late: bool, values: &[&[u8]]) -> Result<(), LineReason>
        ensures { Makes LineReason.Memory self.new result
            (after_init_line self.old late (map (λ value. value.now) values.now)) }
    {
        match values {
            [a, v] => {
                let a = number_at(1, a)?;
                let v = number_at(2, v)?;
                self.set_word(late, a, v)
            }
            _ => Err(LineReason::WordCount(HeadKeyword::Init)),
        }
    }

    /// Why an opening word is refused; the first check that it fails.
    fn opening_wrong(&self, late: bool, address: u128, value: u128) -> Option<LineReason>
        ensures reason { result ≡ opening_wrong self.now late address value }
        ensures address { IfNone result (address < 2 ^ 32) }
        ensures value { IfNone result (value < 2 ^ 64) }
    {
        if self.words == 0 {
            return Some(LineReason::WordsFirst);
        }
        if late {
            return Some(LineReason::InitLate);
        }
        if address >= u128::from(self.words) {
            return Some(LineReason::AddressLimits(1, self.words));
        }
        if value > u128::from(u64::MAX) {
            return Some(LineReason::ValueLimits(2));
        }
        if self.inits.contains_key(&(address as u32)) {
            return Some(LineReason::InitTwice);
        }
        None
    }

    /// Sets an opening word. Behind an operation it is late.
    ///
    /// Errors: the first check that it fails.
    pub fn set_word(&mut self, late: bool, address: u128, value: u128) -> Result<(), LineReason>
        ensures { Makes LineReason.Memory self.new result
            (init_read self.old late address value) }
    {
        if let Some(reason) = self.opening_wrong(late, address, value) {
            return Err(reason);
        }
        match self.inits.insert(address as u32, value as u64) {
            Ok(_) => Ok(()),
            Err(_) => Err(LineReason::Memory),
        }
    }
}
