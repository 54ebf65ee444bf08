//! What stands after the keywords of a log.

ghost use Rattle.std.specs.Prelude.{◌≡◌, ◌<◌, map};
ghost use Rattle.model_text.specs.Form.{spelled_step, two_numbers};

use trace_lines::{Form, LineReason, number_at, spelled_form};

/// What stands after the processor of a `made` line; none for a fence.
pub(crate) fn spelled_step(word: &[u8], operands: &[&[u8]]) -> Result<Option<Form>, LineReason>
    ensures { result ≡ spelled_step word.now (map (λ word. word.now) operands.now) }
{
    if word != b"fence".as_slice() {
        let form = spelled_form(word, operands)?;
        return Ok(Some(form));
    }
    match operands {
        [] => Ok(None),
        [_, ..] => Err(LineReason::OperandCount),
    }
}

/// The numbers that a word at this place of its line and the next one spell.
pub(crate) fn two_numbers(place: u32, a: &[u8], b: &[u8]) -> Result<(u128, u128), LineReason>
    requires { place < 7 }
    ensures { result ≡ two_numbers place a.now b.now }
{
    let first = number_at(place, a)?;
    let second = number_at(place + 1, b)?;
    Ok((first, second))
}
