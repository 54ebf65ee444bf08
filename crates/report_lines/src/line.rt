use packet::{Op, Reply};
use torus::Torus;

/// The radix of each dimension, dimension 0 first.
#[derive(Clone, Copy)]
pub enum Radices {
    One(u32),
    Two(u32, u32),
    Three(u32, u32, u32),
}

/// An entry of a bank: an operation that it has served.
#[derive(Clone, Copy)]
pub struct EntryLine {
    pub bank: u32,
    /// The number of the service in its bank, from 0.
    pub place: u32,
    /// The processor that asked.
    pub source: u32,
    /// The tag by which it asked.
    pub tag: u32,
    pub address: u32,
    pub op: Op,
    pub reply: Reply,
}

/// An operation that is answered.
#[derive(Clone, Copy)]
pub struct AnswerLine {
    pub processor: u32,
    /// The number of the operation among those of its processor, from 0.
    pub index: u32,
    pub bank: u32,
    pub place: u32,
    pub reply: Reply,
}

/// The event numbers of an entry.
#[derive(Clone, Copy)]
pub struct OrderLine {
    pub bank: u32,
    pub place: u32,
    pub issued: u32,
    pub served: u32,
    /// None for an entry that is not answered.
    pub answered: Option<u32>,
}

/// What a line of a report says.
#[derive(Clone, Copy)]
pub enum ReportLine {
    /// The version of the report.
    Header(u32),
    /// The radices and the number of words.
    Shape(Radices, u32),
    /// An address and its word at the beginning.
    Init(u32, u64),
    Entry(EntryLine),
    Answer(AnswerLine),
    /// An address and its word at the end.
    Word(u32, u64),
    Order(OrderLine),
    /// Whether every script is finished.
    End(bool),
}

impl Radices {
    ghost use Rattle.std.specs.Prelude.{◌≡◌, ◌≤◌, length};
    ghost use Rattle.torus.specs.Shape.{IsAccepted};
    ghost use Rattle.report_lines.specs.Line.{radix_list};
    ghost use Rattle.report_lines.specs.Contents.{radices_of};

    /// The radices of a torus.
    pub fn of_torus(torus: &Torus) -> Radices
        ensures value { result ≡ radices_of torus.now.radices }
    {
        match torus.dims() {
            1 => Radices::One(torus.radix_of(0)),
            2 => Radices::Two(torus.radix_of(0), torus.radix_of(1)),
            _ => Radices::Three(torus.radix_of(0), torus.radix_of(1), torus.radix_of(2)),
        }
    }

    /// The number of dimensions, 1 to 3.
    pub fn dims(self) -> u32
        ensures { result ≡ length (radix_list self) }
    {
        match self {
            Radices::One(_) => 1,
            Radices::Two(_, _) => 2,
            Radices::Three(_, _, _) => 3,
        }
    }
}
