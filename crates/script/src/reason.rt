//! Why a line of a machine, script or steps text is refused.

ghost use Rattle.std.specs.Prelude.{◌≡◌};
ghost use Rattle.script.specs.Reasons.{setting_named, keyword_word, kind_of_agent};

use lexer::Reason;
use torus::Fault;

/// What a line of a machine text gives.
#[derive(Clone, Copy)]
pub enum Keyword {
    Radix,
    Dims,
    Dateline,
    Depth,
    Tags,
    Words,
    Init,
}

/// The kinds of agents.
#[derive(Clone, Copy)]
pub enum Agent {
    Processor,
    Router,
    Bank,
}

/// Why a line is refused. A word of the line is given by its place, from 0.
#[derive(Clone, Copy)]
pub enum TextReason {
    /// The first word of a line of a machine text is no keyword.
    UnknownKeyword,
    /// A keyword has too few or too many numbers behind it.
    NumberCount(Keyword),
    /// The word at this place is no number, where one belongs.
    NotNumber(u32),
    /// This setting is given already.
    GivenTwice(Keyword),
    /// A dateline comes before this setting.
    DatelineBefore(Keyword),
    /// An opening word comes before this setting.
    InitBefore(Keyword),
    /// The opening word of this address is given already.
    InitTwice(u32),
    /// The text ends without this setting.
    Missing(Keyword),
    /// The radix at this place is not 2 to 8.
    RadixLimits(u32),
    /// The number of dimensions is not 1 to 3.
    DimsLimits,
    /// There are more than 64 tiles: so many.
    TooManyTiles(u32),
    /// There are so many radices, which is neither one nor one for each of so many dimensions.
    RadixCount(u32, u32),
    /// There are so many datelines, which is not one for each of so many dimensions.
    DatelineCount(u32, u32),
    /// The dateline at this place is not below this radix.
    DatelineLimits(u32, u32),
    /// The depth is not 1 to 8.
    DepthLimits,
    /// The number of tags is not 1 to 16.
    TagsLimits,
    /// The number of words is not 1 to 65536.
    WordsLimits,
    /// The address at this place is not below this number of words.
    AddressLimits(u32, u32),
    /// The value at this place is not below 2^64.
    ValueLimits(u32),
    /// Nothing stands behind a processor.
    ProcessorAlone,
    /// The word behind a processor is no operation.
    UnknownOperation,
    /// An operation has too few or too many words behind it.
    OperandCount,
    /// The word at this place is neither a number nor `last`.
    NotValue(u32),
    /// The processor is not below this number of tiles.
    ProcessorLimits(u32),
    /// The loads of a spin are not 1 to 4096.
    SpinLimits,
    /// `last` stands where no operation of the processor came before.
    LastFirst,
    /// The script has so many operations, which is more than 4096.
    ScriptLength(u32),
    /// All scripts together have so many operations, which is more than 65536.
    ScriptsLength(u32),
    /// A step has neither two nor three words.
    StepCount,
    /// The word behind an agent is no choice.
    UnknownChoice,
    /// The agent is not below this number of agents.
    AgentLimits(u32),
    /// An agent of this kind has no such choice.
    NoChoice(Agent),
    /// A router's choice has no number behind it.
    PortWanted,
    /// A choice of a processor or a bank has a number behind it.
    PortUnwanted(Agent),
    /// The number of an input or output is not below this number of them.
    PortLimits(u32),
    /// A request for memory was refused while the text was read.
    Memory,
}

impl Reason for TextReason {
    ghost use Rattle.script.specs.Reasons.{fault_of};

    ghost fault_of = { fault_of };

    fn fault(self) -> Fault {
        match self {
            TextReason::UnknownKeyword => Fault::Line,
            TextReason::NumberCount(_) => Fault::Line,
            TextReason::NotNumber(_) => Fault::Line,
            TextReason::GivenTwice(_) => Fault::Setting,
            TextReason::DatelineBefore(_) => Fault::Setting,
            TextReason::InitBefore(_) => Fault::Setting,
            TextReason::InitTwice(_) => Fault::Setting,
            TextReason::Missing(_) => Fault::Setting,
            TextReason::RadixLimits(_) => Fault::Radix,
            TextReason::DimsLimits => Fault::Dimensions,
            TextReason::TooManyTiles(_) => Fault::Tiles,
            TextReason::RadixCount(_, _) => Fault::Count,
            TextReason::DatelineCount(_, _) => Fault::Count,
            TextReason::DatelineLimits(_, _) => Fault::Dateline,
            TextReason::DepthLimits => Fault::Range,
            TextReason::TagsLimits => Fault::Range,
            TextReason::WordsLimits => Fault::Range,
            TextReason::AddressLimits(_, _) => Fault::Address,
            TextReason::ValueLimits(_) => Fault::Range,
            TextReason::ProcessorAlone => Fault::Line,
            TextReason::UnknownOperation => Fault::Line,
            TextReason::OperandCount => Fault::Line,
            TextReason::NotValue(_) => Fault::Line,
            TextReason::ProcessorLimits(_) => Fault::Processor,
            TextReason::SpinLimits => Fault::Range,
            TextReason::LastFirst => Fault::Last,
            TextReason::ScriptLength(_) => Fault::Length,
            TextReason::ScriptsLength(_) => Fault::Length,
            TextReason::StepCount => Fault::Line,
            TextReason::UnknownChoice => Fault::Line,
            TextReason::AgentLimits(_) => Fault::Step,
            TextReason::NoChoice(_) => Fault::Step,
            TextReason::PortWanted => Fault::Step,
            TextReason::PortUnwanted(_) => Fault::Step,
            TextReason::PortLimits(_) => Fault::Step,
            TextReason::Memory => Fault::Memory,
        }
    }
}

impl Keyword {
    /// The keyword that a word spells.
    pub fn of(word: &[u8]) -> Option<Keyword>
        ensures { result ≡ setting_named word.now }
    {
        // Most lines of a long text are these.
        if word == b"init".as_slice() {
            return Some(Keyword::Init);
        }
        if word == b"radix".as_slice() {
            return Some(Keyword::Radix);
        }
        if word == b"dims".as_slice() {
            return Some(Keyword::Dims);
        }
        if word == b"dateline".as_slice() {
            return Some(Keyword::Dateline);
        }
        if word == b"depth".as_slice() {
            return Some(Keyword::Depth);
        }
        if word == b"tags".as_slice() {
            return Some(Keyword::Tags);
        }
        if word == b"words".as_slice() {
            return Some(Keyword::Words);
        }
        None
    }

    /// Its word.
    pub fn word(self) -> &'static str
        ensures { result.now ≡ keyword_word self }
    {
        match self {
            Keyword::Radix => "radix",
            Keyword::Dims => "dims",
            Keyword::Dateline => "dateline",
            Keyword::Depth => "depth",
            Keyword::Tags => "tags",
            Keyword::Words => "words",
            Keyword::Init => "init",
        }
    }
}

impl Agent {
    /// The kind of an agent.
    pub(crate) fn of(agent: u32) -> Agent
        ensures { result ≡ kind_of_agent agent }
    {
        match agent % 3 {
            0 => Agent::Processor,
            1 => Agent::Router,
            _ => Agent::Bank,
        }
    }
}
