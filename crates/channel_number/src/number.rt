//! The numbers of the channels.

ghost use Rattle.std.specs.Prelude.{◌≡◌, ◌+◌, ◌*◌, ◌<◌, ◌≤◌, ◌++◌, [], ◌∷◌, length, sum, take, OnOk, IfOk, IfErr};
ghost use Rattle.torus.specs.Shape.{dims_of};
ghost use Rattle.torus.specs.declared.fault.Fault.TheVariants.{Memory};
ghost use Rattle.dateline_route.specs.Walk.{IsChannel};
ghost use Rattle.channel_number.specs.Number.{past_dateline, rank_of, first_number, number_of, IsNumbering};
ghost use Rattle.channel_number.specs.Rising.{IsRising};

use crate::order::{channel_at, channel_count};
use dateline_route::{Channel, Kind};
use std::alloc::{AllocError, Allocator};
use torus::{Class, Dir, Fault, Torus};

/// The number of a channel: along each route the numbers rise. At most 67, that of the ejections of
/// replies where two dimensions have radix 8.
pub fn number_of(torus: &Torus, channel: Channel) -> u32
    requires { IsChannel torus.now channel }
    ensures value { result ≡ number_of torus.now channel }
    ensures small { result ≤ 67 }
{
    let first = first_number(torus, channel.class);
    match channel.kind {
        Kind::Injection => first,
        Kind::Hop { dim, dir, bit } => {
            let digit = torus.digit(channel.tile, dim);
            let rank = rank_of(dir, torus.radix_of(dim), torus.dateline_of(dim), digit, bit);
            first + 1 + 2 * radices_below(torus, dim) + rank
        }
        Kind::Ejection => first + 1 + 2 * radices_below(torus, torus.dims()),
    }
}

/// The numbers of all channels, in channel order.
///
/// Errors: `Fault::Memory`, and no other.
pub fn numbers<A: Allocator + Copy>(alloc: A, torus: &Torus) -> Result<Vec<u32, A>, Fault>
    ensures numbers { IfOk result (λ v. IsNumbering torus.now v.items) }
    ensures rise { IfOk result (λ v. IsRising torus.now v.items) }
    ensures memory { IfErr result (λ e. e ≡ Memory) }
{
    all_numbers(alloc, torus).map_err(|_| Fault::Memory)
}

/// The numbers of all channels, in channel order.
fn all_numbers<A: Allocator + Copy>(alloc: A, torus: &Torus) -> Result<Vec<u32, A>, AllocError>
    ensures numbers { IfOk result (λ v. IsNumbering torus.now v.items) }
    ensures rise { IfOk result (λ v. IsRising torus.now v.items) }
{
    let count = channel_count(torus);
    let mut numbers = Vec::with_capacity(alloc, count as usize)?;
    for index in 0..count {
        numbers.push(number_of(torus, channel_at(torus, index)))?;
    }
    Ok(numbers)
}

/// The number of the injections of a class: replies lie above all requests.
fn first_number(torus: &Torus, class: Class) -> u32
    ensures value { result ≡ first_number torus.now class }
    ensures small { result ≤ 50 }
{
    match class {
        Class::Request => 0,
        Class::Reply => 2 + 2 * radices_below(torus, torus.dims()),
    }
}

/// The sum of the radices of the dimensions below `dim`.
fn radices_below(torus: &Torus, dim: u32) -> u32
    requires dimension { dim ≤ dims_of torus.now }
    requires few { dim ≤ 3 }
    ensures value { result ≡ sum (take dim torus.now.radices) }
    ensures small { result ≤ 24 }
{
    let mut total = 0;
    for d in 0..dim {
        total += torus.radix_of(d);
    }
    total
}

/// The rank of a hop among those of its ring: bit 0 below bit 1, and there the dateline hop first.
fn rank_of(dir: Dir, radix: u32, dateline: u32, digit: u32, bit: bool) -> u32
    requires dateline { dateline < radix }
    requires digit { digit < radix }
    requires small { radix ≤ 8 }
    ensures value { result ≡ rank_of dir radix dateline digit bit }
    ensures below { result < 16 }
{
    let past = match dir {
        Dir::Plus => (digit + (radix - (dateline + 1))) % radix,
        Dir::Minus => (dateline + (radix - digit)) % radix,
    };
    if bit {
        radix + (past + 1) % radix
    } else {
        past
    }
}
