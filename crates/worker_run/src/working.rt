ghost use Rattle.std.specs.Prelude.{◌≡◌, ◌<◌, ◌≤◌, ℕ, All, List, length, slice_index_or};
ghost use Rattle.fabric.specs.Seats.{IsSeatOf};
ghost use Rattle.worker_run.specs.Calls.{Call, HearsOfWorkers};
ghost use Rattle.worker_run.specs.Watching.{AreCallsOfTurn, HearsTurns, IsWatched};
ghost use Rattle.worker_run.specs.Working.{Working, HasWorked};

use crate::gate::Gate;
use crate::place::Place;
use crate::turns::{Run, attempt_awake, tile_turns};
use crate::watch::Watch;
use crate::worker::{End, Worker};
use fabric::seats::{Fabric, TileSeat};
use std::alloc::Allocator;
use std::sync::Wait;
use std::thread;
use std::thread::Threads;
use torus::Choice;

/// Runs each worker in a thread of its own; where that can't be started, it runs on another's thread,
/// before or after it. A worker asks the gate whether it may begin, and then attempts the choices of
/// its tiles' agents in the order of a round, round after round, and asks the gate ahead of each
/// attempt: until all its processors have seen the end, so many turns are made, or the gate stops
/// it. `watch` is called when a worker comes, after each pass over its tiles, and when it has ended.
/// There are at most 16 workers, and the turns are 1 to 1000000000.
pub fn run_workers<R: Threads + Wait + Sync, A: Allocator + Send + Sync, G: Gate, V: Watch>(
    rt: &R,
    fabric: &Fabric<A>,
    workers: &mut [Worker<A>],
    gate: &G,
    watch: &V,
    turns: u64,
)
    requires own { All (λ w. IsSeatOf fabric.now w.knows) workers.old }
    requires few { length workers.old ≤ 16 }
    requires some { 1 ≤ turns }
    requires most { turns ≤ 1000000000 }
    ensures count { length workers.new ≡ length workers.old }
    ensures worked { (i : ℕ) (d : Working) → i < length workers.old
        → HasWorked (G.holds gate.now i) (G.stops gate.now i) turns (slice_index_or workers.old i d)
        (slice_index_or workers.new i d) }
    ensures told { (i : ℕ) (d : Working) → i < length workers.old
        → IsWatched (V.over watch.now i) (G.stops gate.now i) turns (slice_index_or workers.old i d)
        (slice_index_or workers.new i d) }
{
    thread::for_each_mut(
        rt,
        workers,
        16,
        &|i: usize, worker: &mut Worker<A>|
            requires { IsSeatOf fabric.now worker.old.knows }
            ensures worked { HasWorked (G.holds gate.entry.now i) (G.stops gate.entry.now i) turns
                worker.old worker.new }
            ensures told { IsWatched (V.over watch.entry.now i) (G.stops gate.entry.now i) turns
                worker.old worker.new }
        { work(fabric, worker, gate, watch, i, turns) },
    );
}

// One worker: held back, or its turns.
fn work<A: Allocator, G: Gate, V: Watch>(
    fabric: &Fabric<A>,
    worker: &mut Worker<A>,
    gate: &G,
    watch: &V,
    number: usize,
    turns: u64,
)
    requires { IsSeatOf fabric.now worker.old.knows }
    ensures worked { HasWorked (G.holds gate.now number) (G.stops gate.now number) turns worker.old
        worker.new }
    ensures told { IsWatched (V.over watch.now number) (G.stops gate.now number) turns worker.old
        worker.new }
{
    worker.seat.accepted();
    let mut kept = watch.begun(number);
    if !gate.begin(number) {
        worker.ended = Some(End::Held);
        watch.ended(number, kept, 0);
        return;
    }
    let made = make_turns(
        fabric,
        &mut worker.seat,
        gate,
        watch,
        &mut kept,
        number,
        turns,
    );
    worker.seat.accepted();
    worker.ended = Some(if worker.seat.has_seen() {
        End::Finished
    } else {
        End::Stopped
    });
    watch.ended(number, kept, made);
}

// Attempts the steps of the seat's rounds, one a turn, tile by tile. Answers how many turns were made.
fn make_turns<A: Allocator, G: Gate, V: Watch>(
    fabric: &Fabric<A>,
    seat: &mut TileSeat<A>,
    gate: &G,
    watch: &V,
    kept: &mut V::Kept,
    worker: usize,
    turns: u64,
) -> u64
    requires { IsSeatOf fabric.now seat.old }
    ensures { HearsTurns (G.stops gate.now worker) turns seat.old seat.new result
        (V.heard watch.now worker kept.old) (V.heard watch.now worker kept.new) }
{
    seat.accepted();
    let mut place = Place::first(seat);
    if seat.has_seen() {
        return 0;
    }
    let ports = fabric.ports();
    let mut run = Run {
        made: 0,
        most: turns,
        quiet: true,
    };
    for _ in 0..turns {
        tile_turns(fabric, seat, gate, worker, &mut run, place.tile, ports);
        let last = Place {
            tile: place.tile,
            at: 8 + 3 * ports,
        };
        let next = last.after(ports, seat);
        let made = run.made;
        let agent = 3 * place.tile + 2;
        attempt_awake(fabric, seat, gate, worker, &mut run, agent, Choice::Credit);
        if run.made <= made {
            return run.made;
        }
        let is_over = tell_turn(watch, kept, worker, last, next, run.made);
        run.quiet = rested(run.quiet, is_over);
        place = next;
    }
    run.made
}

// Calls `watch` for a turn, the how-manyth it is, where a pass is over by it. Answers whether one is.
fn tell_turn<V: Watch>(
    watch: &V,
    kept: &mut V::Kept,
    worker: usize,
    place: Place,
    next: Place,
    turns: u64,
) -> bool
    ensures { (calls : List Call) × AreCallsOfTurn turns place next calls
        × HearsOfWorkers (V.heard watch.now worker kept.old) (V.heard watch.now worker kept.new) calls }
{
    let is_over = place.ends_pass(next);
    if is_over {
        watch.passed(worker, kept, turns);
    }
    is_over
}

// Lets others run where a whole pass was quiet. Answers whether the pass so far is.
fn rested(quiet: bool, is_over: bool) -> bool {
    if !is_over {
        return quiet;
    }
    if quiet {
        thread::yield_now();
    }
    true
}
