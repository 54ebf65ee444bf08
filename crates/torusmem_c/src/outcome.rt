//! What calls answer, as C sees it.

ghost use Rattle.std.specs.Prelude.{◌≡◌, ◌≤◌};
ghost use Rattle.torusmem_c.specs.Outcome.{fault_number, c_code, c_outcome, c_flag};
ghost use Rattle.torusmem_c.specs.Outcome.{fault_outcome, no_memory};

use lexer::LineFault;
use torus::Fault;

/// How a call went.
#[derive(Clone, Copy)]
pub enum Code {
    /// The call did what it is for.
    Done,
    /// A fault of a text, or out of memory.
    Fault(Fault),
    /// A report breaks a rule.
    BadReport,
    /// The handle holds no machine.
    Empty,
    /// The handle holds a machine already.
    Full,
    /// There is no such agent, choice, tile, address, place or index.
    NoSuch,
    /// The buffer is too short.
    Short,
    /// A pair of a network has no route.
    NoRoute,
    /// A network's channels wait for one another in a circle.
    Cycle,
    /// No order explains a trace.
    NotLinearizable,
    /// A word of a trace has more configurations than were allowed.
    TooMany,
    /// More operations of a trace are open on one word than are looked at.
    TooOpen,
    /// The script of a processor has a spin, so that the index of what is asked behind it isn't known.
    BehindSpin,
    /// The operation isn't answered yet.
    NotYet,
    /// The machine keeps no record of what is done to it.
    NoRecord,
    /// Bytes are no record.
    BadRecord,
    /// An action of a record can't be done.
    BadAction,
    /// A reply of a log isn't what its operation does to the word that it finds.
    WrongReply,
    /// A network has no source-destination pair.
    NoPair,
    /// The numbers of a network's channels don't rise.
    NotRising,
    /// A reply of a log is what no write of its word left.
    Unwritten,
    /// Two atomics of a log found what only one write of their word left.
    LostUpdate,
    /// More states are reached than a search was allowed.
    Undecided,
    /// No run of any schedule has these replies.
    Never,
    /// The scripts have more operations than a search takes.
    TooLong,
    /// A word of an answer is no reply.
    NoReply,
    /// The scripts have other numbers of replies than an answer.
    OtherCount,
}

impl Code {
    /// The number by which C knows it.
    pub fn number(self) -> u32
        ensures value { result ≡ c_code self }
        ensures small { result ≤ 39 }
    {
        match self {
            Code::Done => 0,
            Code::Fault(fault) => fault_number(fault),
            Code::BadReport => 15,
            Code::Empty => 16,
            Code::Full => 17,
            Code::NoSuch => 18,
            Code::Short => 19,
            Code::NoRoute => 20,
            Code::Cycle => 21,
            Code::NotLinearizable => 22,
            Code::TooMany => 23,
            Code::TooOpen => 24,
            Code::BehindSpin => 25,
            Code::NotYet => 26,
            Code::NoRecord => 27,
            Code::BadRecord => 28,
            Code::BadAction => 29,
            Code::WrongReply => 30,
            Code::NoPair => 31,
            Code::NotRising => 32,
            Code::Unwritten => 33,
            Code::LostUpdate => 34,
            Code::Undecided => 35,
            Code::Never => 36,
            Code::TooLong => 37,
            Code::NoReply => 38,
            Code::OtherCount => 39,
        }
    }
}

/// The number of a fault's code: 1 for `F1`, up to 14 for `F14`.
pub(crate) fn fault_number(fault: Fault) -> u32
    ensures value { result ≡ fault_number fault }
    ensures small { result ≤ 14 }
{
    match fault {
        Fault::Radix => 1,
        Fault::Dimensions => 2,
        Fault::Tiles => 3,
        Fault::Line => 4,
        Fault::Setting => 5,
        Fault::Range => 6,
        Fault::Address => 7,
        Fault::Processor => 8,
        Fault::Length => 9,
        Fault::Last => 10,
        Fault::Step => 11,
        Fault::Memory => 12,
        Fault::Count => 13,
        Fault::Dateline => 14,
    }
}

/// What a call answers: the number of a code, and a number whose meaning each call states.
#[repr(C)]
#[derive(Clone, Copy)]
pub struct Outcome {
    pub code: u32,
    pub value: u64,
}

impl Outcome {
    /// A code, and the number that goes with it.
    pub fn of(code: Code, value: u64) -> Outcome
        ensures { result ≡ c_outcome code value }
    {
        Outcome {
            code: code.number(),
            value,
        }
    }

    /// The call did what it is for, and answers a number.
    pub fn done(value: u64) -> Outcome
        ensures { result ≡ c_outcome Code.Done value }
    {
        Outcome::of(Code::Done, value)
    }

    /// The call did what it is for, and answers yes or no.
    pub fn told(answer: bool) -> Outcome
        ensures { result ≡ c_outcome Code.Done (c_flag answer) }
    {
        Outcome::done(u64::from(answer))
    }

    /// The handle holds no machine.
    pub fn empty() -> Outcome
        ensures { result ≡ c_outcome Code.Empty 0 }
    {
        Outcome::of(Code::Empty, 0)
    }

    /// There is no such agent, choice, tile, address, place or index.
    pub fn no_such() -> Outcome
        ensures { result ≡ c_outcome Code.NoSuch 0 }
    {
        Outcome::of(Code::NoSuch, 0)
    }
}

/// Memory was refused.
pub(crate) fn no_memory() -> Outcome
    ensures { result ≡ no_memory }
{
    Outcome::of(Code::Fault(Fault::Memory), 0)
}

/// Out of memory, which is of no line.
pub(crate) fn memory_fault() -> LineFault
    ensures { result ≡ record { fault = Fault.Memory; line = 0 } }
{
    LineFault {
        fault: Fault::Memory,
        line: 0,
    }
}

/// What C sees of a fault of a text.
pub(crate) fn fault_outcome(found: LineFault) -> Outcome
    ensures { result ≡ fault_outcome found }
{
    Outcome::of(Code::Fault(found.fault), found.line)
}
