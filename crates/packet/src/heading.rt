use torus::Class;

/// What a router has to know of a packet: its head flit carries it.
#[derive(Clone, Copy, Debug, PartialEq, Eq)]
pub struct Head {
    /// The tile that the packet goes to, 0 to 63.
    pub destination: u32,
    pub class: Class,
}
