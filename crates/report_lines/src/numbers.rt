//! The words and numbers at the beginning of a text.

ghost use Rattle.std.specs.Prelude.{◌≡◌, ◌≤◌, ◌<◌, ◌+◌, ◌-◌, ◌*◌, ◌^◌, MatchOption};
ghost use Rattle.report_lines.specs.Reading.{GivesRead, behind, digits_on, number_read_at};
ghost use Rattle.report_lines.specs.Reading.{index_at, pair_at};
ghost use Rattle.report_lines.specs.Reading.{valued_at, four_at};

/// What stands behind a word, where the text begins with it.
pub(crate) fn behind<'a>(text: &'a [u8], word: &str) -> Option<&'a [u8]>
    ensures { GivesRead (λ rest. rest.now) result (behind word.now text.now) }
{
    if text.starts_with(word.as_bytes()) {
        Some(&text[word.len()..])
    } else {
        None
    }
}

/// The number with one more digit, if that has 64 bits.
fn with_digit(number: u64, digit: u8) -> Option<u64>
    requires { 48 ≤ digit }
    ensures { MatchOption result (2 ^ 64 ≤ 10 * number + (digit - 48))
        (λ n. (n ≡ 10 * number + (digit - 48)) × (n < 2 ^ 64)) }
{
    let units = u64::from(digit - b'0');
    if number <= (u64::MAX - units) / 10 {
        Some(10 * number + units)
    } else {
        None
    }
}

/// The number whose digits go on up to an end, and what stands behind the end.
fn digits_on(text: &[u8], end: u8, first: u64) -> Option<(u64, &[u8])>
    ensures { GivesRead (λ x. (x.0, x.1.now)) result (digits_on end first text.now) }
{
    let mut number = first;
    for (at, &byte) in text.iter().enumerate() {
        if !byte.is_ascii_digit() {
            return if byte == end {
                Some((number, &text[at + 1..]))
            } else {
                None
            };
        }
        let Some(longer) = with_digit(number, byte) else {
            return None;
        };
        number = longer;
    }
    None
}

/// A number of 64 bits up to an end, without leading zeros, and what stands behind the end.
#[tactic(auto, unfolding(crate::specs::Reading::number_read_at, crate::specs::Reading::behind))]
pub(crate) fn read_number(text: &[u8], end: u8) -> Option<(u64, &[u8])>
    ensures { GivesRead (λ x. (x.0, x.1.now)) result (number_read_at end text.now) }
{
    let (first, rest) = text.split_first()?;
    if *first == b'0' {
        let (byte, rest) = rest.split_first()?;
        return if *byte == end { Some((0, rest)) } else { None };
    }
    if first.is_ascii_digit() {
        digits_on(rest, end, u64::from(*first - b'0'))
    } else {
        None
    }
}

/// A number of 32 bits up to an end, and what stands behind the end.
#[tactic(auto, unfolding(crate::specs::Reading::index_at))]
pub(crate) fn read_index(text: &[u8], end: u8) -> Option<(u32, &[u8])>
    ensures { GivesRead (λ x. (x.0, x.1.now)) result (index_at end text.now) }
{
    let (number, rest) = read_number(text, end)?;
    if number < 0x1_0000_0000 {
        Some((number as u32, rest))
    } else {
        None
    }
}

/// An address and a value up to an end, and what stands behind the end.
#[tactic(auto, unfolding(crate::specs::Reading::pair_at))]
fn read_pair(text: &[u8], end: u8) -> Option<(u32, u64, &[u8])>
    ensures { GivesRead (λ x. (x.0, x.1, x.2.now)) result (pair_at end text.now) }
{
    let (address, rest) = read_index(text, b' ')?;
    let (value, rest) = read_number(rest, end)?;
    Some((address, value, rest))
}

/// An address and a value behind a word, and what stands behind their end.
#[tactic(auto, unfolding(crate::specs::Reading::valued_at))]
pub(crate) fn read_valued<'a>(text: &'a [u8], word: &str, end: u8) -> Option<(u32, u64, &'a [u8])>
    ensures { GivesRead (λ x. (x.0, x.1, x.2.now)) result (valued_at end word.now text.now) }
{
    let rest = behind(text, word)?;
    read_pair(rest, end)
}

/// Four indexes behind a word, each up to a space.
#[tactic(auto, unfolding(crate::specs::Reading::four_at))]
pub(crate) fn read_four<'a>(text: &'a [u8], word: &str) -> Option<(u32, u32, u32, u32, &'a [u8])>
    ensures { GivesRead (λ x. (x.0, x.1, x.2, x.3, x.4.now)) result (four_at word.now text.now) }
{
    let rest = behind(text, word)?;
    let (first, rest) = read_index(rest, b' ')?;
    let (second, rest) = read_index(rest, b' ')?;
    let (third, rest) = read_index(rest, b' ')?;
    let (fourth, rest) = read_index(rest, b' ')?;
    Some((first, second, third, fourth, rest))
}
