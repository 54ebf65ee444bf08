/// A value in a script: a number, or the number that the operation just before was answered.
#[derive(Clone, Copy, PartialEq, Eq)]
pub enum Value {
    Number(u64),
    /// The number replied to the operation just before it in the same script; `ok` counts as 0.
    Last,
}

/// A line of one processor's script. The first number is the address.
#[derive(Clone, Copy, PartialEq, Eq)]
pub enum Line {
    Load(u32),
    Store(u32, Value),
    Swap(u32, Value),
    /// The value expected, and the value written where it is found.
    Cas(u32, Value, Value),
    Add(u32, Value),
    And(u32, Value),
    Or(u32, Value),
    Xor(u32, Value),
    Max(u32, Value),
    Min(u32, Value),
    /// No operation: the next one is issued when every earlier one is answered.
    Fence,
    /// Loads of the address, one at a time, until one is answered with the number; at most as many
    /// as the last number says, 1 to 4096.
    Spin(u32, u64, u32),
}
