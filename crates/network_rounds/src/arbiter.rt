//! Which of the heads that ask for an output comes first.

ghost use Rattle.std.specs.Prelude.{◌≡◌, ◌<◌, ◌∷◌, ℕ, List, length, Some, None};
ghost use Rattle.std.specs.Prelude.{slice_index, slice_index_or, slice_set};
ghost use Rattle.network_machine.specs.declared.moves.Move.{Move};
ghost use Rattle.network_rounds.specs.Arbiters.{comes_before, nearer, output_asked, asking};
ghost use Rattle.network_rounds.specs.Arbiters.{first_among};
ghost use Rattle.network_rounds.specs.Arbiters.{arbiter_named, turn_by, HasFirsts};

use network_machine::{Machine, Move};
use std::alloc::{Allocator, Global};

/// Which of the choices that are enabled when a round begins are attempted, and in which order.
#[derive(Clone, Copy)]
pub enum Arbiter {
    /// Of the heads that ask for an output one: that of the first input behind the one to which it
    /// was granted last, and behind the highest input from the lowest on (round robin).
    Rotating,
    /// All of them, those of a router from the input whose turn it is.
    Turn,
}

/// A choice that is attempted.
#[derive(Clone, Copy)]
pub struct Attempt {
    /// The choice.
    pub of: Move,
    /// The output that is granted to it, if one is.
    pub output: Option<usize>,
}

/// What the arbiters of all outputs keep.
#[derive(Drop)]
pub struct Grants<A: Allocator = Global> {
    /// The input that each channel was granted to last.
    pub lasts: Vec<usize, A>,
    /// The first of the inputs that ask for each channel in a round.
    pub firsts: Vec<Option<usize>, A>,
}

impl Arbiter {
    /// The arbiter that a word names.
    pub fn named(word: &str) -> Option<Arbiter>
        ensures { result ≡ arbiter_named word.now }
    {
        match word {
            "rotating" => Some(Arbiter::Rotating),
            "turn" => Some(Arbiter::Turn),
            _ => None,
        }
    }

    /// How far the order of a group is turned in the round behind so many.
    pub fn turn(self, before: u64) -> u64
        ensures { result ≡ turn_by self before }
    {
        match self {
            Arbiter::Rotating => 0,
            Arbiter::Turn => before,
        }
    }
}

/// Whether an input comes before another one behind the last.
fn comes_before(last: usize, x: usize, z: usize) -> bool
    ensures { result ≡ comes_before last x z }
{
    if last < x {
        z <= last || x < z
    } else {
        z <= last && x < z
    }
}

/// The first of two inputs behind the last, where there may be but one.
fn nearer(last: usize, first: Option<usize>, x: usize) -> usize
    ensures { result ≡ nearer last first x }
{
    match first {
        None => x,
        Some(z) => { if comes_before(last, x, z) { x } else { z } }
    }
}

/// The output that a choice asks for: that of a head, which is put.
pub(crate) fn output_asked<A: Allocator>(machine: &Machine<A>, of: Move) -> Option<usize>
    ensures { result ≡ output_asked machine.now of }
{
    match of {
        Move::Send(_) => None,
        Move::More(_) => None,
        Move::Take(_) => None,
        Move::Put(x) => machine.asked(x),
        Move::Accept(_) => None,
        Move::Credit(_) => None,
    }
}

/// Notes an input that asks for channel y, if it comes first of those so far.
fn note_input(lasts: &[usize], firsts: &mut [Option<usize>], y: usize, x: usize)
    requires lasts { y < length lasts.now }
    requires firsts { y < length firsts.old }
    ensures { firsts.new ≡ slice_set firsts.old y
        (Some (nearer (slice_index lasts.now y) (slice_index_or firsts.old y None) x)) }
{
    firsts[y] = Some(nearer(lasts[y], firsts[y], x));
}

/// Notes a choice, if it comes first of those so far that ask for its output.
fn note_first<A: Allocator>(
    machine: &Machine<A>,
    lasts: &[usize],
    firsts: &mut [Option<usize>],
    of: Move,
)
    requires lasts { length lasts.now ≡ length machine.now.channels }
    requires firsts { length firsts.old ≡ length machine.now.channels }
    ensures { (moves : List Move) (y : ℕ) → y < length machine.now.channels
        → first_among (slice_index lasts.now y) (slice_index_or firsts.new y None)
        (asking machine.now moves y)
        ≡ first_among (slice_index lasts.now y) (slice_index_or firsts.old y None)
        (asking machine.now (of ∷ moves) y) }
{
    let Some(y) = output_asked(machine, of) else {
        return;
    };
    if y >= firsts.len() {
        return;
    }
    note_input(lasts, firsts, y, of.channel());
}

/// Notes that no input asks for any channel.
fn clear_firsts(firsts: &mut [Option<usize>])
    ensures { (y : ℕ) → slice_index_or firsts.new y None ≡ None }
{
    for y in 0..firsts.len() {
        firsts[y] = None;
    }
}

/// Notes for each output which of some choices comes first.
pub(crate) fn note_firsts<A: Allocator>(
    machine: &Machine<A>,
    lasts: &[usize],
    firsts: &mut [Option<usize>],
    moves: &[Move],
)
    requires lasts { length lasts.now ≡ length machine.now.channels }
    requires firsts { length firsts.old ≡ length machine.now.channels }
    ensures { HasFirsts machine.now lasts.now moves.now firsts.new }
{
    clear_firsts(firsts);
    for k in 0..moves.len() {
        note_first(machine, lasts, firsts, moves[k]);
    }
}
