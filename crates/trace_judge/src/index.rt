//! Where configurations are among those that were found.

ghost use Rattle.std.specs.Prelude.{◌≡◌, None};
ghost use Rattle.trace_laws.specs.Configs.{IsIn};
ghost use Rattle.trace_laws.specs.Searches.{configs_of};

use std::alloc::{AllocError, Allocator};
use trace_laws::{Branch, Config};

/// How many places there are at first: a power of two, as later on.
const PLACES: usize = 64;

/// Where there are more places than these, they stay as many.
const MOST_PLACES: usize = 1 << 40;

/// Branches of greater numbers are not noted.
const MOST_NOTED: usize = 0xffff_ffff;

/// A place that was taken in a round, by the branch of this number.
#[derive(Clone, Copy)]
pub struct Place {
    pub round: u32,
    pub at: u32,
}

/// Places of which some hold the number of a branch. What a place holds counts where it was taken in this
/// round, so to forget all is to begin another.
#[derive(Drop)]
pub struct Index<A: Allocator> {
    pub places: Vec<Place, A>,
    pub round: u32,
}

/// So many places, none of them taken in round 1.
fn free_places<A: Allocator + Copy>(alloc: A, count: usize) -> Result<Vec<Place, A>, AllocError> {
    vec![in alloc; Place { round: 0, at: 0 }; count]
}

/// An index that knows of no branch.
pub fn empty_index<A: Allocator + Copy>(alloc: A) -> Result<Index<A>, AllocError> {
    Ok(Index {
        places: free_places(alloc, PLACES)?,
        round: 1,
    })
}

/// The place at which the search for a configuration begins.
fn hash(config: Config) -> u64 {
    let low = (config.taken % (1 << 64)) as u64;
    let high = (config.taken >> 64) as u64;
    let mixed = config.word.wrapping_mul(0x9e37_79b9_7f4a_7c15)
        ^ (low ^ high.rotate_left(32)).wrapping_mul(0xc2b2_ae3d_27d4_eb4f);
    (mixed ^ (mixed >> 29)).wrapping_mul(0xbf58_476d_1ce4_e5b9) >> 24
}

impl<A: Allocator + Copy> Index<A> {
    /// Forgets all branches.
    pub fn forget(&mut self) {
        self.round = self.round.wrapping_add(1);
    }

    /// The number of a branch that a place holds.
    fn told(&self, place: usize) -> Option<usize> {
        if place >= self.places.len() {
            return None;
        }
        let taken = self.places[place];
        if taken.round == self.round {
            Some(taken.at as usize)
        } else {
            None
        }
    }

    /// Where the next branch is to be noted, if there is none with this configuration.
    pub fn place_for(&self, found: &[Branch], config: Config) -> Option<usize>
        ensures { result ≡ None → IsIn (configs_of found.now) config }
    {
        let count = self.places.len();
        if count == 0 {
            return Some(0);
        }
        let last = count - 1;
        let mut place = hash(config) as usize & last;
        for _ in 0..count {
            let Some(at) = self.told(place) else {
                return Some(place);
            };
            if at < found.len() && found[at].config == config {
                return None;
            }
            place = place.wrapping_add(1) & last;
        }
        Some(count)
    }

    /// Notes the branch of this number.
    pub fn note(&mut self, place: usize, at: usize) {
        if place < self.places.len() && at <= MOST_NOTED {
            self.places[place] = Place {
                round: self.round,
                at: at as u32,
            };
        }
    }

    /// Makes four times as many places, where a quarter is taken.
    pub fn widen(&mut self, alloc: A, found: &[Branch]) -> Result<(), AllocError> {
        let count = self.places.len();
        if found.len() <= count / 4 || count > MOST_PLACES {
            return Ok(());
        }
        self.places = free_places(alloc, count * 4)?;
        self.round = 1;
        for at in 0..found.len() {
            let place = self.place_for(&found[..at], found[at].config);
            self.note(place.unwrap_or(count * 4), at);
        }
        Ok(())
    }
}
