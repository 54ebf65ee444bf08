//! The radices of a shape.

ghost use Rattle.std.specs.Prelude.{◌≡◌};
ghost use Rattle.report_lines.specs.Reading.{GivesRead, uniform_at, two_at, three_at, radices_at};

use crate::Radices;
use crate::numbers::{behind, read_index};

/// Radices that are all the same, and their number.
#[tactic(auto, unfolding(crate::specs::Reading::uniform_at))]
fn read_uniform(text: &[u8]) -> Option<(Radices, &[u8])>
    ensures { GivesRead (λ x. (x.0, x.1.now)) result (uniform_at text.now) }
{
    let (k, rest) = read_index(text, b' ')?;
    if let Some(rest) = behind(rest, "1 ") {
        return Some((Radices::One(k), rest));
    }
    if let Some(rest) = behind(rest, "2 ") {
        return Some((Radices::Two(k, k), rest));
    }
    if let Some(rest) = behind(rest, "3 ") {
        return Some((Radices::Three(k, k, k), rest));
    }
    None
}

#[tactic(auto, unfolding(crate::specs::Reading::two_at))]
fn read_two(text: &[u8]) -> Option<(Radices, &[u8])>
    ensures { GivesRead (λ x. (x.0, x.1.now)) result (two_at text.now) }
{
    let (j, rest) = read_index(text, b'x')?;
    let (k, rest) = read_index(rest, b' ')?;
    let rest = behind(rest, "2 ")?;
    if j == k {
        None
    } else {
        Some((Radices::Two(j, k), rest))
    }
}

#[tactic(auto, unfolding(crate::specs::Reading::three_at))]
fn read_three(text: &[u8]) -> Option<(Radices, &[u8])>
    ensures { GivesRead (λ x. (x.0, x.1.now)) result (three_at text.now) }
{
    let (j, rest) = read_index(text, b'x')?;
    let (k, rest) = read_index(rest, b'x')?;
    let (l, rest) = read_index(rest, b' ')?;
    let rest = behind(rest, "3 ")?;
    if j == k && k == l {
        None
    } else {
        Some((Radices::Three(j, k, l), rest))
    }
}

/// The radices and the number of dimensions.
#[tactic(auto, unfolding(crate::specs::Reading::radices_at))]
pub(crate) fn read_radices(text: &[u8]) -> Option<(Radices, &[u8])>
    ensures { GivesRead (λ x. (x.0, x.1.now)) result (radices_at text.now) }
{
    if let Some(read) = read_uniform(text) {
        return Some(read);
    }
    if let Some(read) = read_two(text) {
        return Some(read);
    }
    read_three(text)
}
