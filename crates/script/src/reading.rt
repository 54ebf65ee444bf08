ghost use Rattle.std.specs.Prelude.{◌≡◌, map, OnOk};
ghost use Rattle.lexer.specs.Outcome.{Makes};
ghost use Rattle.script.specs.Machine.{after_words, after_keyword, after_count, after_init, after_init_values};
ghost use Rattle.script.specs.Machine.{nothing_read, missing};
ghost use Rattle.script.specs.MachineViews.{reading_of, IsChecked};

use crate::few::{few_indexes, one_index};
use crate::number::{number_at, value_at};
use crate::reason::{Keyword, TextReason};
use crate::settings::Settings;
use std::alloc::Allocator;

/// What the lines of a machine text gave so far.
#[derive(Drop)]
pub(crate) struct Reading<A: Allocator> {
    pub(crate) settings: Settings,
    /// The opening words by address; none before the number of words is given.
    pub(crate) opening: Vec<u64, A>,
    /// Which addresses a line has named.
    pub(crate) named: Vec<bool, A>,
}

impl<A: Allocator + Copy> Reading<A> {
    /// Nothing is given.
    pub(crate) fn none(alloc: A) -> Reading<A>
        ensures none { reading_of result ≡ nothing_read }
        ensures checked { IsChecked (reading_of result) }
    {
        Reading {
            settings: Settings::none(),
            opening: Vec::new(alloc),
            named: Vec::new(alloc),
        }
    }

    /// Takes what the words of a line give.
    pub(crate) fn take(&mut self, alloc: A, words: &[&[u8]]) -> Result<(), TextReason>
        requires { IsChecked (reading_of self.old) }
        ensures value { Makes TextReason.Memory (reading_of self.new) result
            (after_words (reading_of self.old) (map (λ word. word.now) words.now)) }
        ensures checked { OnOk result (IsChecked (reading_of self.new)) }
    {
        match words {
            [] => Ok(()),
            [[b'#', ..], ..] => Ok(()),
            [word, values @ ..] => match Keyword::of(word) {
                Some(keyword) => self.take_keyword(alloc, keyword, values),
                None => Err(TextReason::UnknownKeyword),
            },
        }
    }

    /// Takes a line by its keyword.
    fn take_keyword(
        &mut self,
        alloc: A,
        keyword: Keyword,
        values: &[&[u8]],
    ) -> Result<(), TextReason>
        requires { IsChecked (reading_of self.old) }
        ensures value { Makes TextReason.Memory (reading_of self.new) result
            (after_keyword (reading_of self.old) (map (λ value. value.now) values.now) keyword) }
        ensures checked { OnOk result (IsChecked (reading_of self.new)) }
    {
        match keyword {
            Keyword::Radix => self.take_radix(values),
            Keyword::Dims => self.take_dims(values),
            Keyword::Dateline => self.take_datelines(values),
            Keyword::Depth => self.take_depth(values),
            Keyword::Tags => self.take_tags(values),
            Keyword::Words => self.take_words(alloc, values),
            Keyword::Init => self.take_init(values),
        }
    }

    /// Takes the radices.
    fn take_radix(&mut self, values: &[&[u8]]) -> Result<(), TextReason>
        requires { IsChecked (reading_of self.old) }
        ensures value { Makes TextReason.Memory (reading_of self.new) result (after_keyword
            (reading_of self.old) (map (λ value. value.now) values.now) Keyword.Radix) }
        ensures checked { OnOk result (IsChecked (reading_of self.new)) }
    {
        let found = few_indexes(Keyword::Radix, values)?;
        self.settings = self.settings.after_radix(found)?;
        Ok(())
    }

    /// Takes the number of dimensions.
    fn take_dims(&mut self, values: &[&[u8]]) -> Result<(), TextReason>
        requires { IsChecked (reading_of self.old) }
        ensures value { Makes TextReason.Memory (reading_of self.new) result (after_keyword
            (reading_of self.old) (map (λ value. value.now) values.now) Keyword.Dims) }
        ensures checked { OnOk result (IsChecked (reading_of self.new)) }
    {
        let found = one_index(Keyword::Dims, values)?;
        self.settings = self.settings.after_dims(found)?;
        Ok(())
    }

    /// Takes the datelines.
    fn take_datelines(&mut self, values: &[&[u8]]) -> Result<(), TextReason>
        requires { IsChecked (reading_of self.old) }
        ensures value { Makes TextReason.Memory (reading_of self.new) result (after_keyword
            (reading_of self.old) (map (λ value. value.now) values.now) Keyword.Dateline) }
        ensures checked { OnOk result (IsChecked (reading_of self.new)) }
    {
        let found = few_indexes(Keyword::Dateline, values)?;
        self.settings = self.settings.after_datelines(found)?;
        Ok(())
    }

    /// Takes the depth.
    fn take_depth(&mut self, values: &[&[u8]]) -> Result<(), TextReason>
        requires { IsChecked (reading_of self.old) }
        ensures value { Makes TextReason.Memory (reading_of self.new) result (after_keyword
            (reading_of self.old) (map (λ value. value.now) values.now) Keyword.Depth) }
        ensures checked { OnOk result (IsChecked (reading_of self.new)) }
    {
        let found = one_index(Keyword::Depth, values)?;
        self.settings = self.settings.after_depth(found)?;
        Ok(())
    }

    /// Takes the number of tags.
    fn take_tags(&mut self, values: &[&[u8]]) -> Result<(), TextReason>
        requires { IsChecked (reading_of self.old) }
        ensures value { Makes TextReason.Memory (reading_of self.new) result (after_keyword
            (reading_of self.old) (map (λ value. value.now) values.now) Keyword.Tags) }
        ensures checked { OnOk result (IsChecked (reading_of self.new)) }
    {
        let found = one_index(Keyword::Tags, values)?;
        self.settings = self.settings.after_tags(found)?;
        Ok(())
    }

    /// Takes the number of words behind its keyword.
    fn take_words(&mut self, alloc: A, values: &[&[u8]]) -> Result<(), TextReason>
        requires { IsChecked (reading_of self.old) }
        ensures value { Makes TextReason.Memory (reading_of self.new) result (after_keyword
            (reading_of self.old) (map (λ value. value.now) values.now) Keyword.Words) }
        ensures checked { OnOk result (IsChecked (reading_of self.new)) }
    {
        let words = one_index(Keyword::Words, values)?;
        self.take_count(alloc, words)
    }

    /// Takes the number of words.
    fn take_count(&mut self, alloc: A, words: u32) -> Result<(), TextReason>
        requires { IsChecked (reading_of self.old) }
        ensures value { Makes TextReason.Memory (reading_of self.new) result
            (after_count (reading_of self.old) words) }
        ensures checked { OnOk result (IsChecked (reading_of self.new)) }
    {
        if !self.opening.is_empty() {
            return Err(TextReason::GivenTwice(Keyword::Words));
        }
        if !(1 <= words && words <= 65536) {
            return Err(TextReason::WordsLimits);
        }
        let Ok(opening) = vec![in alloc; 0u64; words as usize] else {
            return Err(TextReason::Memory);
        };
        let Ok(named) = vec![in alloc; false; words as usize] else {
            return Err(TextReason::Memory);
        };
        self.opening = opening;
        self.named = named;
        Ok(())
    }

    /// Takes the address and the value of an opening word.
    fn take_init(&mut self, values: &[&[u8]]) -> Result<(), TextReason>
        requires { IsChecked (reading_of self.old) }
        ensures value { Makes TextReason.Memory (reading_of self.new) result
            (after_init_values (reading_of self.old) (map (λ value. value.now) values.now)) }
        ensures checked { OnOk result (IsChecked (reading_of self.new)) }
    {
        match values {
            [a, v] => {
                let a = number_at(1, a)?;
                let v = value_at(2, v)?;
                self.set_word(a, v)
            }
            _ => Err(TextReason::NumberCount(Keyword::Init)),
        }
    }

    /// Sets an opening word.
    fn set_word(&mut self, address: u32, value: u128) -> Result<(), TextReason>
        requires { IsChecked (reading_of self.old) }
        ensures value { Makes TextReason.Memory (reading_of self.new) result
            (after_init (reading_of self.old) address value) }
        ensures checked { OnOk result (IsChecked (reading_of self.new)) }
    {
        if let Some(keyword) = self.missing() {
            return Err(TextReason::InitBefore(keyword));
        }
        let at = address as usize;
        if at >= self.opening.len() {
            return Err(TextReason::AddressLimits(1, self.opening.len() as u32));
        }
        if value > u128::from(u64::MAX) {
            return Err(TextReason::ValueLimits(2));
        }
        if self.named[at] {
            return Err(TextReason::InitTwice(address));
        }
        self.opening[at] = value as u64;
        self.named[at] = true;
        Ok(())
    }

    /// The first of the five settings that is not given.
    fn missing(&self) -> Option<Keyword>
        ensures { result ≡ missing (reading_of self.now) }
    {
        if self.settings.radices.is_none() {
            return Some(Keyword::Radix);
        }
        if self.settings.dims.is_none() {
            return Some(Keyword::Dims);
        }
        if self.settings.depth.is_none() {
            return Some(Keyword::Depth);
        }
        if self.settings.tags.is_none() {
            return Some(Keyword::Tags);
        }
        if self.opening.is_empty() {
            return Some(Keyword::Words);
        }
        None
    }
}
