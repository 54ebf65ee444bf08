ghost use Rattle.std.specs.Prelude.{◌≡◌};
ghost use Rattle.torus.specs.declared.shape.Class.TheVariants.{Request};
ghost use Rattle.dateline_route.specs.declared.channel.Kind.TheVariants.{Injection};

use torus::{Class, Dir};

/// Where a packet comes from at the router of a tile.
#[derive(Clone, Copy, Debug, PartialEq, Eq)]
pub enum Input {
    /// The tile's own processor or bank.
    Inject,
    /// A hop in dimension `dim` on this bit (1 is true).
    Hop { dim: u32, dir: Dir, bit: bool },
}

/// Where a packet goes from the router of a tile.
#[derive(Clone, Copy, Debug, PartialEq, Eq)]
pub enum Output {
    /// The tile's own bank or processor.
    Eject,
    /// A hop in dimension `dim` on this bit (1 is true).
    Hop { dim: u32, dir: Dir, bit: bool },
}

/// Which of its tile's channels a channel is.
#[derive(Clone, Copy, Debug, PartialEq, Eq)]
pub enum Kind {
    /// From the tile's processor or bank to its router.
    Injection,
    /// A hop out of the tile in dimension `dim` on this bit (1 is true).
    Hop { dim: u32, dir: Dir, bit: bool },
    /// From the tile's router to its bank or processor.
    Ejection,
}

/// A channel of the network: an injection or ejection at a tile, or a hop out of it; for packets of
/// one class.
#[derive(Clone, Copy, Debug, PartialEq, Eq)]
pub struct Channel {
    pub tile: u32,
    pub class: Class,
    pub kind: Kind,
}

impl Default for Channel {
    /// The request injection of tile 0.
    fn default() -> Self
        ensures { result ≡ record { tile = 0; class = Request; kind = Injection } }
    {
        Channel {
            tile: 0,
            class: Class::Request,
            kind: Kind::Injection,
        }
    }
}
