//! The sentences that say why no model is asked.

use crate::steps::found_word;
use model_text::Logged;
use model_text::finals::is_final;
use std::fmt;

/// A reply that no write left: `reply 3 at line 9, but no write leaves 3 in address 0`.
#[derive(Clone, Copy)]
pub struct UnwrittenSentence {
    pub step: Logged,
}

/// A lost update: `lines 3 and 4 both found 0 in address 0: no order`.
#[derive(Clone, Copy)]
pub struct LostSentence {
    pub first: Logged,
    pub second: Logged,
}

/// The address of an operation; 0 where it is a fence.
fn address_of(step: Logged) -> u32 {
    match step.operation {
        None => 0,
        Some(operation) => operation.address,
    }
}

impl fmt::Display for UnwrittenSentence {
    fn fmt<W: fmt::Write>(&self, f: &mut fmt::Formatter<W>) -> fmt::Result {
        let line = match self.step.told {
            None => self.step.line,
            Some(told) => told.line,
        };
        let name = if is_final(self.step) {
            "final word"
        } else {
            "reply"
        };
        let (word, address) = (found_word(self.step), address_of(self.step));
        write!(
            f,
            "{name} {word} at line {line}, but no write leaves {word} in address {address}"
        )
    }
}

impl fmt::Display for LostSentence {
    fn fmt<W: fmt::Write>(&self, f: &mut fmt::Formatter<W>) -> fmt::Result {
        let first = self.first.line.min(self.second.line);
        let second = self.first.line.max(self.second.line);
        let (word, address) = (found_word(self.first), address_of(self.first));
        write!(
            f,
            "lines {first} and {second} both found {word} in address {address}: no order"
        )
    }
}
