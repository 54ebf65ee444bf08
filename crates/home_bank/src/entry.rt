use packet::{Op, Reply};
use torus::Tag;

/// An entry of a bank's service list: who asked by which tag, what was done where, and what was replied.
#[derive(Clone, Copy, Debug, PartialEq, Eq)]
pub struct Entry {
    /// The tile of the processor that asked.
    pub source: u32,
    pub tag: Tag,
    pub address: u32,
    pub op: Op,
    pub reply: Reply,
}
