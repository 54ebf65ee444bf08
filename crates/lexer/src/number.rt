//! The numbers that words spell: decimal digits alone, as many as there are.

ghost use Rattle.std.specs.Prelude.{◌≡◌};
ghost use Rattle.lexer.specs.Numbers.{index_of, value_of};

/// What a word spells that is too large for any index: 2^31.
const MOST_INDEX: u64 = 1 << 31;

/// What a word spells that is too large for 64 bits: 2^64.
const MOST_VALUE: u128 = 1 << 64;

/// The index that a word spells; from 2^31 on they are all 2^31. `None` exactly where the word is
/// empty or has a byte that is no decimal digit.
#[tactic(auto, using(crate::proofs::Numbers::value_more, crate::proofs::Numbers::digits_drop))]
pub fn index(word: &[u8]) -> Option<u32>
    ensures { result ≡ index_of word.now }
{
    if word.is_empty() {
        return None;
    }
    let mut number = 0u64;
    for digit in word {
        if !digit.is_ascii_digit() {
            return None;
        }
        number = (number * 10 + u64::from(*digit - b'0')).min(MOST_INDEX);
    }
    Some(number as u32)
}

/// The value that a word spells; from 2^64 on they are all 2^64. `None` exactly where the word is
/// empty or has a byte that is no decimal digit.
#[tactic(auto, using(crate::proofs::Numbers::value_more, crate::proofs::Numbers::digits_drop))]
pub fn value(word: &[u8]) -> Option<u128>
    ensures { result ≡ value_of word.now }
{
    if word.is_empty() {
        return None;
    }
    let mut number = 0u128;
    for digit in word {
        if !digit.is_ascii_digit() {
            return None;
        }
        number = (number * 10 + u128::from(*digit - b'0')).min(MOST_VALUE);
    }
    Some(number)
}
