//! Which choices of a round may be enabled: those whose flags are up. What stands at its channel alone
//! keeps each other choice from being made.

ghost use Rattle.std.specs.Prelude.{◌≡◌, ◌⊎◌, ◌+◌, ◌<◌, ◌^◌, List, [], ◌∷◌, ◌++◌, length, IfOk};
ghost use Rattle.std.specs.Prelude.{slice_set, Bool, true};
ghost use Rattle.std.specs.List.{sum_by};
ghost use Rattle.network_machine.specs.declared.moves.Move.{Move};
ghost use Rattle.network_machine.specs.Moves.{move_channel};
ghost use Rattle.network_machine.specs.Machine.{NetworkMachineSpec};
ghost use Rattle.network_rounds.specs.Flags.{AreFlags, AreFlagsBut, choices_of};
ghost use Rattle.network_rounds.specs.Flags.{place_in, AreNotedIn, told_places};

use network_machine::{Lets, Machine, Move};
use std::alloc::{AllocError, Allocator, Global};

/// The places of the choices of a channel among all choices of a round; `usize::MAX` for one that
/// it doesn't have.
#[derive(Clone, Copy)]
pub struct Places {
    /// That of its sender, who goes on with a packet.
    pub more: usize,
    /// That of the router behind it, which takes a flit.
    pub take: usize,
    /// That of the router behind it, which puts a flit.
    pub put: usize,
    /// That of its receiver.
    pub accept: usize,
    /// That of its credits.
    pub credit: usize,
}

/// A channel without choices.
const NOWHERE: Places = Places {
    more: usize::MAX,
    take: usize::MAX,
    put: usize::MAX,
    accept: usize::MAX,
    credit: usize::MAX,
};

/// Of each choice of a round whether it may be enabled.
#[derive(Drop)]
pub struct Flags<A: Allocator = Global> {
    /// Those of the choices that may be are up.
    pub up: Vec<bool, A>,
    /// The places of the choices of each channel.
    pub places: Vec<Places, A>,
}

/// The places of a channel, with that of a choice.
fn with_place(places: Places, of: Move, place: usize) -> Places
    ensures { (other : Move) → move_channel other ≡ move_channel of
        → (place_in result other ≡ place_in places other)
        ⊎ ((other ≡ of) × (place_in result other ≡ place)) }
{
    match of {
        Move::Send(_) => places,
        Move::More(_) => Places {
            more: place,
            ..places
        },
        Move::Take(_) => Places {
            take: place,
            ..places
        },
        Move::Put(_) => Places {
            put: place,
            ..places
        },
        Move::Accept(_) => Places {
            accept: place,
            ..places
        },
        Move::Credit(_) => Places {
            credit: place,
            ..places
        },
    }
}

/// Notes the place of a choice, if its channel is there.
fn note_place(places: &mut [Places], of: Move, place: usize)
    ensures { (choices : List Move) → length choices ≡ place → AreNotedIn places.old choices
        → AreNotedIn places.new (choices ++ of ∷ []) }
{
    let x = of.channel();
    if x < places.len() {
        places[x] = with_place(places[x], of, place);
    }
}

/// Notes the places of the choices of a group, of which the first has this place.
fn note_group(places: &mut [Places], group: &[Move], from: usize)
    requires { from + length group.now < 2 ^ 64 }
    ensures { (choices : List Move) → length choices ≡ from → AreNotedIn places.old choices
        → AreNotedIn places.new (choices ++ group.now) }
{
    for k in 0..group.len() {
        note_place(places, group[k], from + k);
    }
}

/// Notes the places of the choices of some groups, and answers how many these are.
fn note_groups<B: Allocator>(places: &mut [Places], groups: &[Vec<Move, B>]) -> usize
    requires few { sum_by (λ group. length group.items) groups.now < 2 ^ 31 }
    ensures count { result ≡ length (choices_of groups.now) }
    ensures places { AreNotedIn places.old [] → AreNotedIn places.new (choices_of groups.now) }
{
    let mut from = 0;
    for k in 0..groups.len() {
        note_group(places, &groups[k], from);
        from += groups[k].len();
    }
    from
}

impl<A: Allocator + Copy> Flags<A> {
    /// The flags of the choices of some groups, all of them up.
    ///
    /// Errors: out of memory.
    pub fn open(alloc: A, channels: usize, groups: &[Vec<Move, A>]) -> Result<Flags<A>, AllocError>
        requires few { sum_by (λ group. length group.items) groups.now < 2 ^ 31 }
        ensures { IfOk result (λ f. (m : NetworkMachineSpec) → length m.channels ≡ channels
            → AreFlags m (choices_of groups.now) f) }
    {
        let mut places = vec![in alloc; NOWHERE; channels]?;
        let count = note_groups(&mut places, groups);
        let up = vec![in alloc; true; count]?;
        Ok(Flags { up, places })
    }
}

/// Tells of the choice at a place whether it may be enabled, if there is one.
#[inline(always)]
fn tell(up: &mut [bool], place: usize, may: bool)
    ensures { up.new ≡ slice_set up.old place may }
{
    if place < up.len() {
        up[place] = may;
    }
}

/// Tells of all choices of a channel whether they may be enabled.
#[inline(always)]
fn tell_places(up: &mut [bool], places: Places, lets: Lets)
    ensures { up.new ≡ told_places up.old places lets }
{
    tell(up, places.more, lets.more);
    tell(up, places.take, lets.take);
    tell(up, places.put, lets.put);
    tell(up, places.accept, lets.accept);
    tell(up, places.credit, lets.credit);
}

impl<A: Allocator> Flags<A> {
    /// Tells of all choices of a channel whether they may be enabled.
    #[inline(always)]
    pub fn tell_channel<B: Allocator>(&mut self, machine: &Machine<B>, x: usize)
        requires { length self.old.places.items ≡ length machine.now.channels }
        ensures places { self.new.places ≡ self.old.places }
        ensures flags { (untold : Move → Bool) (choices : List Move)
            → AreFlagsBut (λ of. (move_channel of ≡ x) ⊎ (untold of ≡ true)) machine.now choices
            self.old
            → AreFlagsBut (λ of. untold of ≡ true) machine.now choices self.new }
    {
        if x >= self.places.len() {
            return;
        }
        let lets = machine.lets(x);
        let places = self.places[x];
        tell_places(&mut self.up, places, lets);
    }

    /// Tells it of all channels.
    pub fn tell_all<B: Allocator>(&mut self, machine: &Machine<B>)
        requires { length self.old.places.items ≡ length machine.now.channels }
        ensures places { self.new.places ≡ self.old.places }
        ensures flags { (choices : List Move) → AreFlags machine.now choices self.old
            → AreFlags machine.now choices self.new }
    {
        for x in 0..self.places.len() {
            self.tell_channel(machine, x);
        }
    }
}
