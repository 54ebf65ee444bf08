//! One hop at a time: what a router does with a packet.

ghost use Rattle.std.specs.Prelude.{◌≡◌, ◌<◌, ℕ};
ghost use Rattle.torus.specs.Shape.{digit_of, tiles_of, dims_of};
ghost use Rattle.dateline_route.specs.Next.{came_on_one, is_dateline_hop, hop_to, next_of};

use crate::ring::{dateline_out_of, shorter_way};
use crate::{Input, Output};
use torus::{Class, Dir, Torus};

impl Input {
    /// Whether the packet came in dimension `dim` on bit 1.
    fn came_on_one(self, dim: u32) -> bool
        ensures { result ≡ came_on_one self dim }
    {
        match self {
            Input::Inject => false,
            Input::Hop { dim: came, bit, .. } => came == dim && bit,
        }
    }
}

/// Whether the hop out of tile `at` in this dimension and direction is the dateline hop.
pub(crate) fn is_dateline_hop(torus: &Torus, at: u32, dim: u32, dir: Dir) -> bool
    requires tile { at < tiles_of torus.now }
    requires dimension { dim < dims_of torus.now }
    ensures { result ≡ is_dateline_hop torus.now at dim dir }
{
    torus.digit(at, dim) == dateline_out_of(dir, torus.radix_of(dim), torus.dateline_of(dim))
}

/// The hop in this dimension and direction, with its bit, out of a tile whose digit there is `here`.
fn hop_to(torus: &Torus, here: u32, came: Input, dim: u32, dir: Dir) -> Output
    requires dimension { dim < dims_of torus.now }
    ensures { (t : ℕ) → digit_of torus.now t dim ≡ here → result ≡ hop_to torus.now t came dim dir }
{
    let dateline = dateline_out_of(dir, torus.radix_of(dim), torus.dateline_of(dim));
    let bit = here == dateline || came.came_on_one(dim);
    Output::Hop { dim, dir, bit }
}

/// Where a packet for tile `dst` goes next that came to tile `at` by this input: on in the first
/// dimension whose digits differ, the shorter way (a tie goes plus), on bit 1 exactly if this is the
/// dateline hop of the dimension or the packet came in it on bit 1; or to its destination. Both
/// classes go the same ways.
pub fn next(torus: &Torus, at: u32, came: Input, dst: u32, _class: Class) -> Output
    requires at { at < tiles_of torus.now }
    requires dst { dst < tiles_of torus.now }
    ensures { result ≡ next_of torus.now at came dst }
{
    let mut here = at;
    let mut there = dst;
    for dim in 0..torus.dims() {
        let radix = torus.radix_of(dim);
        let from = here % radix;
        let to = there % radix;
        if from != to {
            return hop_to(torus, from, came, dim, shorter_way(radix, from, to));
        }
        here /= radix;
        there /= radix;
    }
    Output::Eject
}
