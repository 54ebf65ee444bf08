//! A line that a processor is handed, as numbers.

ghost use Rattle.std.specs.Prelude.{◌≡◌};
ghost use Rattle.machine_record.specs.Row.{first_is_last, second_is_last, last_bit, line_numbered, line_of_row, number_of_value};
ghost use Rattle.machine_record.specs.Row.{row_of_line, row_with, spin_of, value_of_number};

use script::{Line, Value};

/// A line that a processor is handed: the processor, the number of the line's kind (0 to 9 an operation, 10
/// a fence, 11 a spin), the address, which of the two values are `last`, and the values.
#[derive(Clone, Copy)]
pub struct LineRow {
    pub processor: u32,
    pub operation: u32,
    pub address: u32,
    pub lasts: u32,
    pub first: u64,
    pub second: u64,
}

/// 1 where a value is `last`, else 0.
fn last_bit(value: Value) -> u32
    ensures { result ≡ last_bit value }
{
    match value {
        Value::Last => 1,
        Value::Number(_) => 0,
    }
}

/// The number of a value; 0 for `last`.
fn number_of(value: Value) -> u64
    ensures { result ≡ number_of_value value }
{
    match value {
        Value::Last => 0,
        Value::Number(number) => number,
    }
}

/// The row of a processor, a kind, an address and two values.
fn row_with(processor: u32, operation: u32, address: u32, one: Value, two: Value) -> LineRow
    ensures { result ≡ row_with processor operation address one two }
{
    LineRow {
        processor,
        operation,
        address,
        lasts: last_bit(one) + 2 * last_bit(two),
        first: number_of(one),
        second: number_of(two),
    }
}

impl LineRow {
    /// The row of a line that a processor is handed.
    pub fn of(processor: u32, line: Line) -> LineRow
        ensures { result ≡ row_of_line processor line }
    {
        let none = Value::Number(0);
        match line {
            Line::Load(a) => row_with(processor, 0, a, none, none),
            Line::Store(a, v) => row_with(processor, 1, a, v, none),
            Line::Swap(a, v) => row_with(processor, 2, a, v, none),
            Line::Cas(a, e, n) => row_with(processor, 3, a, e, n),
            Line::Add(a, v) => row_with(processor, 4, a, v, none),
            Line::And(a, v) => row_with(processor, 5, a, v, none),
            Line::Or(a, v) => row_with(processor, 6, a, v, none),
            Line::Xor(a, v) => row_with(processor, 7, a, v, none),
            Line::Max(a, v) => row_with(processor, 8, a, v, none),
            Line::Min(a, v) => row_with(processor, 9, a, v, none),
            Line::Fence => row_with(processor, 10, 0, none, none),
            Line::Spin(a, v, m) => row_with(
                processor,
                11,
                a,
                Value::Number(v),
                Value::Number(u64::from(m)),
            ),
        }
    }

    /// The line of the row; `None` exactly where it is none.
    pub fn line(self) -> Option<Line>
        ensures { result ≡ line_of_row self }
    {
        let one = value_of(is_first_last(self.lasts), self.first);
        let two = value_of(is_second_last(self.lasts), self.second);
        line_numbered(
            self.operation,
            self.address,
            one,
            two,
            self.first,
            self.second,
        )
    }
}

/// A value: a number, or `last`.
fn value_of(is_last: bool, number: u64) -> Value
    ensures { result ≡ value_of_number is_last number }
{
    if is_last {
        Value::Last
    } else {
        Value::Number(number)
    }
}

/// Whether the first value is `last`.
fn is_first_last(lasts: u32) -> bool
    ensures { result ≡ first_is_last lasts }
{
    lasts == 1 || lasts == 3
}

/// Whether the second value is.
fn is_second_last(lasts: u32) -> bool
    ensures { result ≡ second_is_last lasts }
{
    lasts == 2 || lasts == 3
}

/// A spin of so many loads, which are a number of 32 bits.
fn spin_of(address: u32, sought: u64, loads: u64) -> Option<Line>
    ensures { result ≡ spin_of address sought loads }
{
    if loads < 4294967296 {
        Some(Line::Spin(address, sought, loads as u32))
    } else {
        None
    }
}

/// The line of a kind.
fn line_numbered(
    kind: u32,
    address: u32,
    one: Value,
    two: Value,
    sought: u64,
    loads: u64,
) -> Option<Line>
    ensures { result ≡ line_numbered kind address one two sought loads }
{
    if kind == 11 {
        return spin_of(address, sought, loads);
    }
    match kind {
        0 => Some(Line::Load(address)),
        1 => Some(Line::Store(address, one)),
        2 => Some(Line::Swap(address, one)),
        3 => Some(Line::Cas(address, one, two)),
        4 => Some(Line::Add(address, one)),
        5 => Some(Line::And(address, one)),
        6 => Some(Line::Or(address, one)),
        7 => Some(Line::Xor(address, one)),
        8 => Some(Line::Max(address, one)),
        9 => Some(Line::Min(address, one)),
        10 => Some(Line::Fence),
        _ => None,
    }
}
