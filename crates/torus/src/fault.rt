ghost use Rattle.std.specs.Prelude.{◌≡◌, ◌≤◌, length};
ghost use Rattle.torus.specs.FaultCode.{fault_code};

use std::error::Error;
use std::fmt;

/// Why a shape, a text or a call is refused. Prints as its code, `F1` to `F14`, and nothing else.
#[derive(Clone, Copy, Debug, PartialEq, Eq)]
pub enum Fault {
    /// A radix is not 2 to 8.
    Radix,
    /// The number of dimensions is not 1 to 3.
    Dimensions,
    /// There are more than 64 tiles.
    Tiles,
    /// A line is not understood.
    Line,
    /// A setting is missing or given twice.
    Setting,
    /// A number is out of its range.
    Range,
    /// An address is not below the number of words.
    Address,
    /// A processor is not below the number of tiles.
    Processor,
    /// A script is too long, or all scripts together are.
    Length,
    /// `last` stands in the first operation of a script.
    Last,
    /// A step names no agent, no channel, or a choice that its agent does not have.
    Step,
    /// A request for memory was refused.
    Memory,
    /// A list has not one number for each dimension.
    Count,
    /// A dateline is not below its radix.
    Dateline,
}

impl Fault {
    /// The code, `F1` to `F14`.
    pub fn code(self) -> &'static str
        ensures code { result.now ≡ fault_code self }
        ensures short { length result.now ≤ 3 }
    {
        match self {
            Fault::Radix => "F1",
            Fault::Dimensions => "F2",
            Fault::Tiles => "F3",
            Fault::Line => "F4",
            Fault::Setting => "F5",
            Fault::Range => "F6",
            Fault::Address => "F7",
            Fault::Processor => "F8",
            Fault::Length => "F9",
            Fault::Last => "F10",
            Fault::Step => "F11",
            Fault::Memory => "F12",
            Fault::Count => "F13",
            Fault::Dateline => "F14",
        }
    }
}

impl fmt::Display for Fault {
    ghost use Rattle.std.specs.Prelude.{Some};

    ghost output = { λ fault. Some (fault_code fault) };

    fn fmt<W: fmt::Write>(&self, f: &mut fmt::Formatter<W>) -> fmt::Result {
        f.write_str(self.code())
    }
}

impl Error for Fault {}
