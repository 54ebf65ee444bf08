//! Whole numbers as programs, chips and data frames write them.

ghost use Rattle.std.specs.Prelude.{◌≡◌, ◌<◌, ◌≤◌, ◌^◌, ◌==◌, IfSome, drop, false, length, min};
ghost use Rattle.std.specs.Prelude.{position, take};
ghost use Rattle.std.specs.Prelude.{if◌then◌else◌};
ghost use Rattle.std.specs.List.{list_all};
ghost use Rattle.std.specs.Str.Parse.{digits_value, without_leading_plus};
ghost use Rattle.trace_table.specs.Literals.{are_grouped, digits_among, grouped_number};
ghost use Rattle.trace_table.specs.Literals.{is_digit_of, may_come};
ghost use Rattle.trace_table.specs.Literals.{is_zero_fraction, literal, plain_word, radix_named};
ghost use Rattle.trace_table.specs.Literals.{spelled_radix};
ghost use Rattle.trace_table.specs.Literals.{unsigned_number, whole_part, digit_taken};
ghost use Rattle.trace_table.specs.Literals.{digits_taken};

use itoa::Buffer;

/// What a word spells that is too large for 64 bits: 2^64.
const MOST_VALUE: u128 = 1 << 64;

/// Whether a byte is a digit of a radix.
fn is_digit_of(radix: u32, byte: u8) -> bool
    requires least { 2 ≤ radix }
    requires most { radix ≤ 16 }
    ensures { result ≡ is_digit_of radix byte }
{
    char::from(byte).is_digit(radix)
}

/// Whether a byte may come next: a digit of a radix, or a `_` right behind one.
fn may_come(radix: u32, is_behind: bool, byte: u8) -> bool
    requires least { 2 ≤ radix }
    requires most { radix ≤ 16 }
    ensures { result ≡ may_come radix is_behind byte }
{
    if byte == b'_' {
        is_behind
    } else {
        is_digit_of(radix, byte)
    }
}

/// Whether these are digits of a radix, where each `_` stands between two of them.
fn are_grouped(radix: u32, digits: &[u8]) -> bool
    requires least { 2 ≤ radix }
    requires most { radix ≤ 16 }
    ensures { result ≡ are_grouped radix false digits.now }
{
    let mut is_behind = false;
    let mut left = digits;
    while let [byte, rest @ ..] = left {
        if !may_come(radix, is_behind, *byte) {
            return false;
        }
        is_behind = *byte != b'_';
        left = rest;
    }
    is_behind
}

/// A number with one more digit of a radix, if the byte is one; from 2^64 on they are all 2^64.
fn digit_taken(radix: u32, number: u128, byte: u8) -> u128
    requires least { 2 ≤ radix }
    requires most { radix ≤ 16 }
    requires low { number ≤ 2 ^ 64 }
    ensures value { result ≡ digit_taken radix number byte }
    ensures low { result ≤ 2 ^ 64 }
{
    match char::from(byte).to_digit(radix) {
        Some(digit) => (number * u128::from(radix) + u128::from(digit)).min(MOST_VALUE),
        None => number,
    }
}

/// The number that the digits among some bytes spell.
fn digits_taken(radix: u32, digits: &[u8]) -> u128
    requires least { 2 ≤ radix }
    requires most { radix ≤ 16 }
    ensures value { result ≡ digits_taken radix 0 digits.now }
    ensures low { result ≤ 2 ^ 64 }
{
    let mut number = 0u128;
    let mut left = digits;
    while let [byte, rest @ ..] = left {
        number = digit_taken(radix, number, *byte);
        left = rest;
    }
    number
}

/// The number that the digits among some bytes spell, which have no other meaning.
fn digits_number(radix: u32, digits: &[u8]) -> u128
    requires least { 2 ≤ radix }
    requires most { radix ≤ 16 }
    ensures { result ≡ min (digits_value radix (digits_among radix digits.now)) (2 ^ 64) }
{
    digits_taken(radix, digits)
}

/// The number that digits of a radix spell, where each `_` stands between two of them.
fn grouped_number(radix: u32, digits: &[u8]) -> Option<u128>
    requires least { 2 ≤ radix }
    requires most { radix ≤ 16 }
    ensures { result ≡ grouped_number radix digits.now }
{
    if are_grouped(radix, digits) {
        Some(digits_number(radix, digits))
    } else {
        None
    }
}

/// Whether all bytes are zeros.
fn are_zeros(bytes: &[u8]) -> bool
    ensures { result ≡ list_all (λ c. c == 48) bytes.now }
{
    bytes.iter().all(|byte| *byte == b'0')
}

/// Whether this is a point, and one zero or more.
fn is_zero_fraction(fraction: &[u8]) -> bool
    ensures { result ≡ is_zero_fraction fraction.now }
{
    fraction.len() > 1 && are_zeros(&fraction[1..])
}

/// The place of the first point.
fn point_place(word: &[u8]) -> Option<usize>
    ensures place { result ≡ position (λ c. c == 46) word.now }
    ensures inside { IfSome result (λ place. place < length word.now) }
{
    word.iter().position(|byte| *byte == b'.')
}

/// What stands before a fraction of zeros at this place.
fn whole_before(word: &[u8], place: usize) -> &[u8]
    requires { place < length word.now }
    ensures { result.now
        ≡ if is_zero_fraction (drop place word.now) then take place word.now else word.now }
{
    if is_zero_fraction(&word[place..]) {
        &word[..place]
    } else {
        word
    }
}

/// A word without a fraction of zeros.
fn whole_part(word: &[u8]) -> &[u8]
    ensures { result.now ≡ whole_part word.now }
{
    match point_place(word) {
        Some(place) => whole_before(word, place),
        None => word,
    }
}

/// The radix that a letter behind a zero names.
fn radix_named(letter: u8) -> u32
    ensures radix { result ≡ radix_named letter }
    ensures least { 2 ≤ result }
    ensures most { result ≤ 16 }
{
    match letter {
        b'x' | b'X' => 16,
        b'b' | b'B' => 2,
        _ => 10,
    }
}

/// The radix of a word.
fn spelled_radix(word: &[u8]) -> u32
    ensures radix { result ≡ spelled_radix word.now }
    ensures least { 2 ≤ result }
    ensures most { result ≤ 16 }
{
    match word {
        [b'0', letter, ..] => radix_named(*letter),
        _ => 10,
    }
}

/// A word without a `+` in front.
fn unsigned(word: &[u8]) -> &[u8]
    ensures { result.now ≡ without_leading_plus word.now }
{
    match word {
        [b'+', rest @ ..] => rest,
        _ => word,
    }
}

/// The number of a word without a sign.
fn unsigned_number(word: &[u8]) -> Option<u128>
    ensures { result ≡ unsigned_number word.now }
{
    let radix = spelled_radix(word);
    match word {
        [_, _, digits @ ..] => {
            if radix == 10 {
                grouped_number(10, whole_part(word))
            } else {
                grouped_number(radix, digits)
            }
        }
        _ => grouped_number(10, whole_part(word)),
    }
}

/// The number that a word of a table spells: `17`, `+17`, `17.0`, `1_000`, `0x1F` or `0b11`; from 2^64 on
/// they are all 2^64. `None` where it is no number.
pub(crate) fn literal(word: &[u8]) -> Option<u128>
    ensures { result ≡ literal word.now }
{
    unsigned_number(unsigned(word))
}

/// A word of a table as a trace text has it: a number in decimal.
#[tactic(auto, unfolding(crate::specs::Literals::plain_word))]
pub(crate) fn plain_word<'a>(buffer: &'a mut Buffer, word: &'a [u8]) -> &'a [u8]
    ensures { result.now ≡ plain_word word.now }
{
    match literal(word) {
        Some(number) => buffer.format(number).as_bytes(),
        None => word,
    }
}
