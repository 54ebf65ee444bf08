//! Numbers of a line.

ghost use Rattle.std.specs.Prelude.{◌≡◌};
ghost use Rattle.trace_lines.specs.Form.{number_at};

use crate::reason::LineReason;
use lexer::value;

/// The number that a word spells where one belongs, of the word at this place of its line.
pub fn number_at(place: u32, word: &[u8]) -> Result<u128, LineReason>
    ensures { result ≡ number_at place word.now }
{
    value(word).ok_or(LineReason::NotNumber(place))
}
