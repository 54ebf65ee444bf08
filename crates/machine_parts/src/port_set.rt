//! Flags of the ports of all routers, in words.

ghost use Rattle.std.specs.Prelude.{◌≡◌, ◌<◌, ◌≤◌, ◌/◌, ◌^◌, ◌&&◌, ℕ, true, not, nat_lt};
ghost use Rattle.std.specs.Prelude.{slice_index};
ghost use Rattle.std.specs.Prelude.{MatchOption};
ghost use Rattle.std.specs.Slice.Scan.{HoldsNowhere, IsFirstPlace};
ghost use Rattle.machine_parts.specs.Ports.{is_raised, raised, lowered, joined};

use std::marker::Model;

/// A flag for each of 32 ports of the router of each of 64 tiles.
#[derive(Drop)]
pub struct PortSet {
    words: [u32; 64],
}

impl Model for PortSet {
    ghost use Rattle.std.specs.Prelude.{ℕ, List};

    ghost Value = { List ℕ };

    ghost use Rattle.machine_parts.specs.InsidePorts.{words_in, HasWords};

    ghost view = { words_in };

    ghost invariant = { HasWords };
}

impl PortSet {
    /// All flags raised.
    pub fn all() -> PortSet
        ensures { (t port : ℕ) → is_raised result t port ≡ true }
    {
        PortSet { words: [!0; 64] }
    }

    /// No flag raised, of those that are there.
    pub fn none() -> PortSet
        ensures { (t port : ℕ) → is_raised result t port ≡ not (nat_lt t 64 && nat_lt port 32) }
    {
        PortSet { words: [0; 64] }
    }

    /// Raises the flag of a port; one from 32 on has none, and counts as raised.
    #[inline(always)]
    pub fn raise(&mut self, tile: usize, port: u32)
        requires { tile < 64 }
        ensures { (t k : ℕ)
            → is_raised self.new t k ≡ raised (is_raised self.old) tile port t k }
    {
        if port < 32 {
            self.words[tile] |= 1 << port;
        }
    }

    /// Lowers the flag of a port, where it has one.
    #[inline(always)]
    pub fn lower(&mut self, tile: usize, port: u32)
        requires { tile < 64 }
        ensures { (t k : ℕ)
            → is_raised self.new t k ≡ lowered (is_raised self.old) tile port t k }
    {
        if port < 32 {
            self.words[tile] &= !(1 << port);
        }
    }

    /// Raises the flags of a tile that are raised in another set.
    #[inline(always)]
    pub fn join(&mut self, tile: usize, other: &PortSet)
        requires { tile < 64 }
        ensures { (t k : ℕ) → is_raised self.new t k
            ≡ joined (is_raised self.old) tile (is_raised other.now) t k }
    {
        self.words[tile] |= other.words[tile];
    }

    /// The first port of a tile from one on and below an end, at most 32, whose flag is raised; `None`
    /// where there is none.
    #[inline(always)]
    pub fn next(&self, tile: usize, from: u32, end: u32) -> Option<u32>
        requires tile { tile < 64 }
        requires end { end < 32 }
        ensures { MatchOption result (HoldsNowhere (is_raised self.now tile) from end)
            (λ port. (port < end) × IsFirstPlace (is_raised self.now tile) from end port) }
    {
        if from >= end {
            return None;
        }
        let rest = self.flags_from(tile, from);
        if rest == 0 {
            return None;
        }
        let port = from + rest.trailing_zeros();
        if port < end { Some(port) } else { None }
    }

    /// The flags of a tile from a port on, below 32, that of the port in the lowest bit.
    #[inline(always)]
    fn flags_from(&self, tile: usize, from: u32) -> u32
        requires tile { tile < 64 }
        requires from { from < 32 }
        ensures { result ≡ slice_index self.now tile / 2 ^ from }
    {
        self.words[tile] >> from
    }
}
