//! What people read of the reasons, where a trace and a log are told the same.

use crate::reason::{HeadKeyword, LineReason};

/// What is said of a reason, with gaps; nothing of a reason that each format words by itself.
pub fn common_text(reason: LineReason) -> &'static str {
    match reason {
        LineReason::WordCount(_) => "A: behind it K",
        LineReason::NotNumber(_) => "W: a number belongs there",
        LineReason::NotReply => "D: a number or ok belongs there",
        LineReason::WordsFirst => "A: it comes behind words, which is not given yet",
        LineReason::WordsMissing => "the text ends without words",
        LineReason::WordsLimits => "words B: a memory has 1 to 4294967296 words",
        LineReason::AddressLimits(_, _) => "address W: the memory has the words 0 to N",
        LineReason::ValueLimits(_) => "value W: a value is below 2^64",
        LineReason::Memory => "a request for memory was refused while it was read",
        _ => "",
    }
}

/// What stands behind a keyword of the head.
pub fn behind_keyword(keyword: HeadKeyword) -> &'static str {
    match keyword {
        HeadKeyword::Words => "stands one number",
        HeadKeyword::Init => "stand an address and a value",
    }
}

/// The place of the word that a reason is about.
pub fn place_of(reason: LineReason) -> u32 {
    match reason {
        LineReason::NotNumber(place) => place,
        LineReason::AddressLimits(place, _) => place,
        LineReason::ValueLimits(place) => place,
        _ => 0,
    }
}

/// The last address of the memory, where a reason is about an address.
pub fn last_address(reason: LineReason) -> Option<u64> {
    match reason {
        LineReason::AddressLimits(_, words) => Some(words.saturating_sub(1)),
        _ => None,
    }
}
