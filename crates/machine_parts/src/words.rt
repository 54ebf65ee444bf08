//! The values of a line.

ghost use Rattle.script_lines.specs.Lines.{IsWord};
ghost use Rattle.core_laws.specs.Handed.{BringsWords};

use script::{Line, Value};

/// A value of a line is a word of 64 bits, by its type.
fn is_word(value: Value)
    ensures { IsWord value }
{
    match value {
        Value::Number(number) => {
            let _ = number;
        }
        Value::Last => {}
    }
}

/// The values of a line are words of 64 bits, by its type.
pub fn brings_words(line: Line)
    ensures { BringsWords line }
{
    match line {
        Line::Load(_) => {}
        Line::Fence => {}
        Line::Spin(_, sought, _) => {
            let _ = sought;
        }
        Line::Cas(_, expected, new) => {
            is_word(expected);
            is_word(new);
        }
        Line::Store(_, value) => is_word(value),
        Line::Swap(_, value) => is_word(value),
        Line::Add(_, value) => is_word(value),
        Line::And(_, value) => is_word(value),
        Line::Or(_, value) => is_word(value),
        Line::Xor(_, value) => is_word(value),
        Line::Max(_, value) => is_word(value),
        Line::Min(_, value) => is_word(value),
    }
}
