ghost use Rattle.std.specs.Prelude.{◌≡◌, None};

use fabric::seats::TileSeat;
use std::alloc::{Allocator, Global};
use std::marker::Model;

/// How a worker ended.
#[derive(Clone, Copy, Debug, PartialEq, Eq)]
pub enum End {
    /// The gate held it back: it made no turn.
    Held,
    /// All its processors have seen the end.
    Finished,
    /// Its turns are made, or the gate stopped it.
    Stopped,
}

/// A seat whose tiles are to be stepped, and how that ended the last time.
#[derive(Drop)]
pub struct Worker<A: Allocator = Global> {
    pub(crate) seat: TileSeat<A>,
    pub(crate) ended: Option<End>,
}

impl<A: Allocator> Model for Worker<A> {
    ghost use Rattle.worker_run.specs.Working.{Working};

    ghost Value = { Working };

    ghost view = { λ w. record { knows = w.seat; ended = w.ended } };

    ghost invariant = { λ w. Unit {0} };
}

impl<A: Allocator> Worker<A> {
    /// A worker with this seat, that hasn't run.
    pub fn new(seat: TileSeat<A>) -> Worker<A>
        ensures seat { result.knows ≡ seat }
        ensures fresh { result.ended ≡ None }
    {
        Worker { seat, ended: None }
    }

    /// How it ended the last time; `None` where it hasn't run.
    pub fn end(&self) -> Option<End>
        ensures { result ≡ self.now.ended }
    {
        self.ended
    }

    /// Its seat.
    pub fn into_seat(self) -> TileSeat<A>
        ensures { result ≡ self.knows }
    {
        self.seat
    }
}
