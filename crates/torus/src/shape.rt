ghost use Rattle.std.specs.Prelude.{◌≡◌, ◌<◌, ◌≤◌, true, length, take};
ghost use Rattle.torus.specs.Refusal.{mixed_of, uniform_of, is_radix, are_below};
ghost use Rattle.std.specs.List.{list_all};
ghost use Rattle.torus.specs.Filled.{filled};
ghost use Rattle.torus.specs.Shape.{one_hop, product, tiles_of, dims_of, radix_of, dateline_of, digit_of, home_of};
ghost use Rattle.torus.specs.Shape.{IsNeighbour, IsAccepted};

use crate::Fault;
use std::marker::Model;

/// The greatest number of dimensions.
const MOST_DIMS: usize = 3;

/// The direction of a hop on the ring of a dimension.
#[derive(Clone, Copy, Debug, PartialEq, Eq)]
pub enum Dir {
    /// To the digit that is one more.
    Plus,
    /// To the digit that is one less.
    Minus,
}

impl Dir {
    /// The digit that lies one hop from `here` on a ring of `radix` digits.
    fn one_hop(self, radix: u32, here: u32) -> u32
        requires digit { here < radix }
        requires small { radix ≤ 8 }
        ensures value { result ≡ one_hop self radix here }
        ensures below { result < radix }
    {
        match self {
            Dir::Plus => (here + 1) % radix,
            Dir::Minus => (here + (radix - 1)) % radix,
        }
    }
}

/// The class of a packet: requests go from processors to banks, replies back.
#[derive(Clone, Copy, Debug, PartialEq, Eq)]
pub enum Class {
    Request,
    Reply,
}

/// A k-ary n-cube torus: a radix and a dateline for each of its one to three dimensions. It has at
/// most 64 tiles, numbered from 0; digit 0 of a tile is its lowest.
#[derive(Clone, Copy, Debug, PartialEq, Eq)]
pub struct Torus {
    dims: usize,
    radices: [u32; MOST_DIMS],
    datelines: [u32; MOST_DIMS],
}

impl Model for Torus {
    ghost use Rattle.torus.specs.Shape.{Shape};

    ghost Value = { Shape };

    ghost use Rattle.torus.specs.Inside.{shape_of, IsTorus, fields_of};

    ghost view = { shape_of };

    ghost invariant = { IsTorus };

    ghost inverse = { fields_of };
}

impl Torus {
    /// The torus of `dims` dimensions (1 to 3) that all have `radix` digits (2 to 8), and their
    /// datelines at the last digit.
    ///
    /// Errors: `Fault::Radix`, then `Fault::Dimensions`, then `Fault::Tiles` for more than 64 tiles.
    pub fn new(radix: u32, dims: u32) -> Result<Torus, Fault>
        ensures { result ≡ uniform_of radix dims }
    {
        if !is_radix(radix) {
            return Err(Fault::Radix);
        }
        let (radices, datelines) = match dims {
            1 => ([radix, 1, 1], [radix - 1, 0, 0]),
            2 => ([radix, radix, 1], [radix - 1, radix - 1, 0]),
            3 => ([radix; MOST_DIMS], [radix - 1; MOST_DIMS]),
            _ => return Err(Fault::Dimensions),
        };
        if radices[0] * radices[1] * radices[2] > 64 {
            return Err(Fault::Tiles);
        }
        Ok(Torus {
            dims: dims as usize,
            radices,
            datelines,
        })
    }

    /// The number of tiles, 2 to 64.
    pub fn tiles(&self) -> u32
        ensures value { result ≡ tiles_of self.now }
        ensures some { 0 < result }
        ensures accepted { IsAccepted self.now }
    {
        self.radices[0] * self.radices[1] * self.radices[2]
    }

    /// The number of dimensions, 1 to 3.
    pub fn dims(&self) -> u32
        ensures value { result ≡ dims_of self.now }
        ensures accepted { IsAccepted self.now }
    {
        self.dims as u32
    }

    /// The radix of dimension `d`, 2 to 8.
    pub fn radix_of(&self, d: u32) -> u32
        requires { d < dims_of self.now }
        ensures value { result ≡ radix_of self.now d }
        ensures accepted { IsAccepted self.now }
    {
        self.radices[d as usize]
    }

    /// The dateline digit of dimension `d`, below its radix: the plus hop out of it is the dateline
    /// hop.
    pub fn dateline_of(&self, d: u32) -> u32
        requires { d < dims_of self.now }
        ensures value { result ≡ dateline_of self.now d }
        ensures accepted { IsAccepted self.now }
    {
        self.datelines[d as usize]
    }

    /// Digit `d` of tile `t`, below the radix of dimension `d`.
    pub fn digit(&self, t: u32, d: u32) -> u32
        requires tile { t < tiles_of self.now }
        requires dimension { d < dims_of self.now }
        ensures value { result ≡ digit_of self.now t d }
        ensures below { result < radix_of self.now d }
    {
        t / self.stride(d) % self.radix_of(d)
    }

    /// The tile one hop from tile `t` in dimension `d`: that digit is one more (one less) modulo its
    /// radix, and every other digit is the same.
    pub fn neighbour(&self, t: u32, d: u32, dir: Dir) -> u32
        requires tile { t < tiles_of self.now }
        requires dimension { d < dims_of self.now }
        ensures { IsNeighbour self.now t d dir result }
    {
        let radix = self.radix_of(d);
        let stride = self.stride(d);
        let here = self.digit(t, d);
        let there = dir.one_hop(radix, here);
        t - here * stride + there * stride
    }

    /// The home of address `a`: its bank, and the word's number there.
    pub fn home(&self, a: u32) -> (u32, u32)
        ensures value { result ≡ home_of self.now a }
        ensures bank { result.0 < tiles_of self.now }
    {
        let tiles = self.tiles();
        (a % tiles, a / tiles)
    }

    /// How far apart two tiles are numbered that differ by one in digit `d`: the product of the
    /// radices below `d`.
    fn stride(&self, d: u32) -> u32
        requires { d < dims_of self.now }
        ensures value { result ≡ product (take d self.now.radices) }
        ensures positive { 0 < result }
        ensures small { result ≤ 64 }
    {
        match d {
            0 => 1,
            1 => self.radices[0],
            _ => self.radices[0] * self.radices[1],
        }
    }

    /// The torus of these radices (one to three, each 2 to 8) and datelines, dimension 0 first.
    ///
    /// Errors, in this order: `Fault::Dimensions`, `Fault::Radix`, `Fault::Tiles` for more than 64
    /// tiles, `Fault::Count` where there is not one dateline for each radix, `Fault::Dateline` for
    /// one that is not below its radix.
    pub fn mixed(radices: &[u32], datelines: &[u32]) -> Result<Torus, Fault>
        ensures { result ≡ mixed_of radices.now datelines.now }
    {
        if radices.len() < 1 || radices.len() > MOST_DIMS {
            return Err(Fault::Dimensions);
        }
        if !are_radices(radices) {
            return Err(Fault::Radix);
        }
        if tile_count(radices) > 64 {
            return Err(Fault::Tiles);
        }
        if datelines.len() != radices.len() {
            return Err(Fault::Count);
        }
        if !are_below(datelines, radices) {
            return Err(Fault::Dateline);
        }
        Ok(Torus {
            dims: radices.len(),
            radices: filled(radices, 1),
            datelines: filled(datelines, 0),
        })
    }
}

/// Whether a radix is within the limits, 2 to 8.
fn is_radix(radix: u32) -> bool
    ensures { result ≡ is_radix radix }
{
    2 <= radix && radix <= 8
}

/// Whether each radix is within the limits.
fn are_radices(radices: &[u32]) -> bool
    ensures { result ≡ list_all is_radix radices.now }
{
    radices.iter().all(|&radix| is_radix(radix))
}

/// The product of one to three radices.
fn tile_count(radices: &[u32]) -> u32
    requires some { 1 ≤ length radices.now }
    requires few { length radices.now ≤ 3 }
    requires radices { list_all is_radix radices.now ≡ true }
    ensures { result ≡ product radices.now }
{
    let all = filled(radices, 1);
    all[0] * all[1] * all[2]
}

/// Whether each dateline is below the radix of its dimension.
fn are_below(datelines: &[u32], radices: &[u32]) -> bool
    ensures { result ≡ are_below datelines.now radices.now }
{
    datelines.iter().zip(radices).all(|(z, k)| z < k)
}

/// The list, and after it as many `rest` as make it three.
fn filled(list: &[u32], rest: u32) -> [u32; MOST_DIMS]
    requires { length list.now ≤ 3 }
    ensures { result ≡ filled rest list.now }
{
    let mut all = [rest; MOST_DIMS];
    all[..list.len()].copy_from_slice(list);
    all
}
