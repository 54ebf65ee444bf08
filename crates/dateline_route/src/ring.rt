//! Hops on the ring of one dimension.

ghost use Rattle.std.specs.Prelude.{◌≡◌, ◌<◌, ◌≤◌};
ghost use Rattle.dateline_route.specs.Ring.{hops_by, shorter_way, dateline_out_of};

use torus::Dir;

/// How many hops in this direction lead from one digit to another of a ring of `radix` digits.
pub(crate) fn hops_by(dir: Dir, radix: u32, from: u32, to: u32) -> u32
    requires from { from < radix }
    requires to { to < radix }
    requires small { radix ≤ 8 }
    ensures { result ≡ hops_by dir radix from to }
{
    let (behind, before) = match dir {
        Dir::Plus => (from, to),
        Dir::Minus => (to, from),
    };
    if behind <= before {
        before - behind
    } else {
        before + (radix - behind)
    }
}

/// The direction that needs the least number of hops; a tie goes plus.
pub(crate) fn shorter_way(radix: u32, from: u32, to: u32) -> Dir
    requires from { from < radix }
    requires to { to < radix }
    requires small { radix ≤ 8 }
    ensures { result ≡ shorter_way radix from to }
{
    if hops_by(Dir::Plus, radix, from, to) <= hops_by(Dir::Minus, radix, from, to) {
        Dir::Plus
    } else {
        Dir::Minus
    }
}

/// The digit out of which the dateline hop leads in this direction.
pub(crate) fn dateline_out_of(dir: Dir, radix: u32, dateline: u32) -> u32
    requires dateline { dateline < radix }
    requires small { radix ≤ 8 }
    ensures { result ≡ dateline_out_of dir radix dateline }
{
    match dir {
        Dir::Plus => dateline,
        Dir::Minus if dateline + 1 == radix => 0,
        Dir::Minus => dateline + 1,
    }
}
