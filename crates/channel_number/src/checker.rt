//! Whether numbers rise along every route.

ghost use Rattle.std.specs.Prelude.{◌≡◌, ◌<◌, ◌≤◌, ◌↔◌, ℕ, length, slice_index, IsOk, IfErr, MatchOption};
ghost use Rattle.std.specs.List.Sorted.{IsStrictlyIncreasing};
ghost use Rattle.torus.specs.Shape.{tiles_of};
ghost use Rattle.channel_number.specs.Order.{channel_count};
ghost use Rattle.channel_number.specs.Rising.{along, IsRising, IsFirstFailing};
ghost use Rattle.channel_number.specs.Failing.{IsFirstFall, RisesTo, RisesFrom, IsFirstFrom, IsFirstIn};

use crate::order::channel_index;
use crate::{NotRising, Rising};
use dateline_route::route;
use torus::{Class, Torus};

/// Whether these numbers of all channels, in channel order, rise along every route of both classes.
///
/// Errors: the first case where they do not, in the order of class (request first), source,
/// destination and hop.
pub fn check(torus: &Torus, numbers: &[u32]) -> Result<Rising, NotRising>
    requires { length numbers.now ≡ channel_count torus.now }
    ensures rising { IsOk result ↔ IsRising torus.now numbers.now }
    ensures first { IfErr result (IsFirstFailing torus.now numbers.now) }
{
    if let Some(failing) = failing_in(torus, numbers, Class::Request) {
        return Err(failing);
    }
    if let Some(failing) = failing_in(torus, numbers, Class::Reply) {
        return Err(failing);
    }
    Ok(Rising)
}

/// The first failing case of this class.
fn failing_in(torus: &Torus, numbers: &[u32], class: Class) -> Option<NotRising>
    requires { length numbers.now ≡ channel_count torus.now }
    ensures { MatchOption result (RisesFrom torus.now numbers.now class (tiles_of torus.now))
        (IsFirstIn torus.now numbers.now class) }
{
    for src in 0..torus.tiles() {
        if let Some(failing) = failing_from(torus, numbers, class, src) {
            return Some(failing);
        }
    }
    None
}

/// The first failing case of this class from this source.
fn failing_from(torus: &Torus, numbers: &[u32], class: Class, src: u32) -> Option<NotRising>
    requires numbers { length numbers.now ≡ channel_count torus.now }
    requires src { src < tiles_of torus.now }
    ensures { MatchOption result (RisesTo torus.now numbers.now class src (tiles_of torus.now))
        (IsFirstFrom torus.now numbers.now class src) }
{
    for dst in 0..torus.tiles() {
        if let Some(hop) = falling_hop(torus, numbers, class, src, dst) {
            return Some(NotRising {
                class,
                src,
                dst,
                hop,
            });
        }
    }
    None
}

/// The first position of a route after which the number is not greater.
fn falling_hop(torus: &Torus, numbers: &[u32], class: Class, src: u32, dst: u32) -> Option<u32>
    requires numbers { length numbers.now ≡ channel_count torus.now }
    requires src { src < tiles_of torus.now }
    requires dst { dst < tiles_of torus.now }
    ensures { MatchOption result (IsStrictlyIncreasing (along torus.now numbers.now class src dst))
        (IsFirstFall (along torus.now numbers.now class src dst)) }
{
    let channels = route(torus, src, dst, class);
    let mut before = numbers[channel_index(torus, channels[0]) as usize];
    for hop in 1..channels.len() {
        let here = numbers[channel_index(torus, channels[hop]) as usize];
        if here <= before {
            return Some(hop as u32 - 1);
        }
        before = here;
    }
    None
}
