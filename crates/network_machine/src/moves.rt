//! Moves of a network, and why one may not be made.

ghost use Rattle.std.specs.Prelude.{◌≡◌};
ghost use Rattle.network_machine.specs.Moves.{move_channel};

/// A packet that a sender begins.
#[derive(Clone, Copy, PartialEq, Eq)]
pub struct Packet {
    /// Its injection channel.
    pub from: usize,
    /// Its ejection channel.
    pub to: usize,
    /// How many flits it has.
    pub length: u64,
}

/// A move of a network: a flit from or to a channel, or a credit of one.
#[derive(Clone, Copy, PartialEq, Eq)]
pub enum Move {
    /// A sender puts the head flit of a packet.
    Send(Packet),
    /// The sender of this channel puts the next flit of its packet.
    More(usize),
    /// The router behind this channel takes a flit into its latch.
    Take(usize),
    /// It puts the flit from the latch into the next channel.
    Put(usize),
    /// The receiver of this channel takes a flit.
    Accept(usize),
    /// A credit of this channel comes back to its sending end.
    Credit(usize),
}

/// Why a move may not be made. Channels are named by their numbers.
#[derive(Clone, Copy, PartialEq, Eq)]
pub enum Hindrance {
    /// There is no such channel.
    NoChannel(usize),
    /// It is no injection channel.
    NoInjection(usize),
    /// It is an ejection channel, from which no router takes.
    Ejection(usize),
    /// It is no ejection channel.
    NoEjection(usize),
    /// No packets go from the first to the second.
    NotJoined(usize, usize),
    /// A packet has a flit at least.
    NoFlit,
    /// Its sender has a packet in course.
    InCourse(usize),
    /// Its sender has no packet in course.
    NotInCourse(usize),
    /// It has no credit.
    NoCredit(usize),
    /// No credit of it is on its way back.
    NotReturning(usize),
    /// The latch behind it is full.
    LatchFull(usize),
    /// The latch behind it is empty.
    LatchEmpty(usize),
    /// No flit is in it.
    Empty(usize),
    /// It belongs to a packet that comes from the second.
    Owned(usize, usize),
    /// The flit in the latch behind it has no output with a credit.
    NoOutput(usize),
    /// The receiver answers on it, and it has no credit.
    NoAnswer(usize),
}

/// What stands at the end of a run.
#[derive(Clone, Copy, PartialEq, Eq)]
pub enum Ending {
    /// Flits stand, and nothing can go.
    Locked,
    /// No flit is in any channel or latch, and nothing can go.
    Empty,
    /// This move may still be made, without a new packet: the first by channels, and at each channel
    /// in the order more, take, put, accept, credit.
    Goes(Move),
}

impl Move {
    /// The channel from or to which a flit moves, or whose credit comes back.
    pub fn channel(self) -> usize
        ensures { result ≡ move_channel self }
    {
        match self {
            Move::Send(packet) => packet.from,
            Move::More(x) => x,
            Move::Take(x) => x,
            Move::Put(x) => x,
            Move::Accept(x) => x,
            Move::Credit(x) => x,
        }
    }
}
