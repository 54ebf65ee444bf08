ghost use Rattle.std.specs.Prelude.{◌≡◌};
ghost use Rattle.script.specs.Settings.{an_index, number_at, value_at};

use crate::reason::TextReason;
use lexer::{index, value};
use torus::Fault;

/// The index that a word spells, at most 2^31: no field takes so large a number, so greater ones count as
/// 2^31.
///
/// Errors: `Fault::Line` for a word that spells none.
pub fn an_index(word: &[u8]) -> Result<u32, Fault>
    ensures { result ≡ an_index word.now }
{
    index(word).ok_or(Fault::Line)
}

/// The index that the word at a place of its line spells, where one belongs.
pub(crate) fn number_at(place: u32, word: &[u8]) -> Result<u32, TextReason>
    ensures { result ≡ number_at place word.now }
{
    match index(word) {
        Some(number) => Ok(number),
        None => Err(TextReason::NotNumber(place)),
    }
}

/// The value that the word at a place of its line spells, where one belongs.
pub(crate) fn value_at(place: u32, word: &[u8]) -> Result<u128, TextReason>
    ensures { result ≡ value_at place word.now }
{
    match value(word) {
        Some(number) => Ok(number),
        None => Err(TextReason::NotNumber(place)),
    }
}
