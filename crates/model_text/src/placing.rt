//! Places in lists of numbers.

ghost use Rattle.std.specs.Prelude.{◌≡◌, IfOk, length, slice_set};
ghost use Rattle.model_text.specs.Traces.{ArePlaces, place_below};

use std::alloc::{AllocError, Allocator};

/// Puts a number at a place, where there is one.
fn set_place(places: &mut [usize], x: usize, place: usize)
    ensures { places.new ≡ slice_set places.old x place }
{
    if x < places.len() {
        places[x] = place;
    }
}

/// The first places in a list of the numbers below a limit; the list's length where it has none.
///
/// Errors: out of memory.
pub fn places_in<A: Allocator>(
    alloc: A,
    list: &[usize],
    count: usize,
) -> Result<Vec<usize, A>, AllocError>
    ensures { IfOk result (λ places. ArePlaces list.now count places.items) }
{
    let mut place = list.len();
    let mut places = vec![in alloc; place; count]?;
    'back: while place > 0 {
        place -= 1;
        set_place(&mut places, list[place], place);
    }
    Ok(places)
}

/// The place of a number in a list, by the places of the numbers below a limit; the list's length
/// where it has none.
pub fn place_of(list: &[usize], places: &[usize], x: usize) -> usize
    requires { ArePlaces list.now (length places.now) places.now }
    ensures { result ≡ place_below list.now (length places.now) x }
{
    if x < places.len() {
        places[x]
    } else {
        list.len()
    }
}
