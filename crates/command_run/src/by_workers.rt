ghost use Rattle.std.specs.Prelude.{◌≡◌, ◌<◌, ◌≤◌, ◌-◌, ℕ, All, IfErr, IfOk, [], length, map, min};
ghost use Rattle.std.specs.Prelude.{slice_index_or};
ghost use Rattle.std.specs.List.{range_with_len};
ghost use Rattle.std.specs.Str.Lines.{lines};
ghost use Rattle.torus.specs.Shape.{tiles_of};
ghost use Rattle.torus.specs.declared.fault.Fault.TheVariants as fault;
ghost use Rattle.one_order.specs.Load.{Load};
ghost use Rattle.core_laws.specs.Machine.{IsAfter};
ghost use Rattle.machine_core.specs.Loading.{load_by};
ghost use Rattle.history.specs.Opening.{fresh};
ghost use Rattle.history.specs.Seats.{IsSeatOf};
ghost use Rattle.worker_run.specs.Watching.{IsWatched};
ghost use Rattle.worker_run.specs.Working.{HasWorked, Working};
ghost use Rattle.program_fault.specs.Done.{Does, output};
ghost use Rattle.program_fault.specs.Outcome.{IsTextsFault};
ghost use Rattle.command_texts.specs.Run.{IsNoFault};
ghost use Rattle.command_run.specs.Workers.{IsMadeByWorkers, IsOfEnded, IsTakenIn, LetsAll};
ghost use Rattle.command_run.specs.Workers.{PrintsWorkers, first_held};
ghost use Rattle.command_run.specs.Workers.{tiles_of_worker, new_worker};
ghost use Rattle.command_run.specs.Ends.{IsShownEnd};
ghost use Rattle.command_run.specs.Watched.{HearsWorkers, TellsWorkers};

use arrayvec::ArrayVec;
use command_texts::in_rounds::loaded;
use command_texts::{Ending, Silent};
use core_laws::machine_laws::{
    ended_followers_finish_scripts, steps_decide_the_machine, steps_lead_on,
    steps_lead_to_a_machine,
};
use history::{
    Ended, Fabric, Final, Gate, Open, TileSeat, Unwatched, Watch, Worker, of_final, run_workers,
    write_report,
};
use machine_core::Machine;
use program_fault::ProgramFault;
use report_lines::Out;
use std::alloc::{AllocError, Allocator};
use std::sync::Wait;
use std::thread::Threads;
use torus::Fault;

/// Runs the machine of a text, whose processors follow the scripts of a text, by workers in threads of
/// their own: as many as are asked for, 1 to 16, and at most one a tile, each with so many turns at
/// most, 1 to 1000000000. Prints the report of the run, without order lines. Answers whether every
/// script is finished.
///
/// Errors: the first fault of the texts, taken in the order machine, scripts, or out of memory; and
/// nothing was written then. If the output fails, a beginning was written.
pub fn run_text<R: Threads + Wait + Sync, A: Allocator + Copy + Send + Sync, W: Out>(
    rt: &R,
    alloc: A,
    machine: &[u8],
    scripts: &[u8],
    workers: usize,
    turns: u64,
    out: &mut W,
) -> Result<bool, ProgramFault>
    requires workers { (1 ≤ workers) × (workers ≤ 16) }
    requires turns { (1 ≤ turns) × (turns ≤ 1000000000) }
    ensures { PrintsWorkers (load_by (lines machine.now) (lines scripts.now)) workers turns
        (output (W.taken out.old) (W.failures out.old))
        (output (W.taken out.new) (W.failures out.new)) result }
{
    run_text_with(
        rt,
        alloc,
        machine,
        scripts,
        workers,
        turns,
        &Open,
        &Unwatched,
        out,
        &mut Silent,
    )
}

/// Does what `run_text` does, with workers that ask `gate` whether they may begin, and ahead of each
/// attempt whether they may go on; it is one that lets all, at its time. `watch` hears when a worker
/// comes, after each pass over its tiles, and when it has ended, with how many turns it has made.
/// `ending` is shown what the run reached whose report is printed.
///
/// Errors: as `run_text`.
pub fn run_text_with<
    R: Threads + Wait + Sync,
    A: Allocator + Copy + Send + Sync,
    G: Gate,
    V: Watch,
    W: Out,
    E: Ending,
>(
    rt: &R,
    alloc: A,
    machine: &[u8],
    scripts: &[u8],
    workers: usize,
    turns: u64,
    gate: &G,
    watch: &V,
    out: &mut W,
    ending: &mut E,
) -> Result<bool, ProgramFault>
    requires workers { (1 ≤ workers) × (workers ≤ 16) }
    requires turns { (1 ≤ turns) × (turns ≤ 1000000000) }
    requires gate { LetsAll (G.holds gate.now) (G.stops gate.now) }
    ensures prints { PrintsWorkers (load_by (lines machine.now) (lines scripts.now)) workers turns
        (output (W.taken out.old) (W.failures out.old))
        (output (W.taken out.new) (W.failures out.new)) result }
    ensures told { TellsWorkers (load_by (lines machine.now) (lines scripts.now)) workers turns
        (V.over watch.now) result }
    ensures ends { Does
        (IsShownEnd (load_by (lines machine.now) (lines scripts.now)) workers turns
        (E.saw ending.new))
        (IsTextsFault (load_by (lines machine.now) (lines scripts.now)))
        (output (W.taken out.old) (W.failures out.old))
        (output (W.taken out.new) (W.failures out.new)) result }
{
    let machine = loaded(alloc, machine, scripts)?;
    let end = closed_run(rt, alloc, machine, workers, turns, gate, watch)?;
    ending.shown(&Ended { last: &end });
    steps_lead_to_a_machine();
    ended_followers_finish_scripts();
    print_end(alloc, &end, out)
}

/// The end of a run that workers made of a machine before any step.
fn closed_run<R: Threads + Wait + Sync, A: Allocator + Copy + Send + Sync, G: Gate, V: Watch>(
    rt: &R,
    alloc: A,
    machine: Machine<A>,
    workers: usize,
    turns: u64,
    gate: &G,
    watch: &V,
) -> Result<Final<A>, Fault>
    requires fresh { (l : Load) × IsAfter l machine [] }
    requires workers { (1 ≤ workers) × (workers ≤ 16) }
    requires turns { (1 ≤ turns) × (turns ≤ 1000000000) }
    requires gate { LetsAll (G.holds gate.now) (G.stops gate.now) }
    ensures run { IfOk result
        (λ end. (l : Load) → IsAfter l machine [] → IsMadeByWorkers l workers turns end) }
    ensures told { IfOk result
        (λ end. (l : Load) → IsAfter l machine [] → HearsWorkers l workers turns (V.over watch.now)) }
    ensures fault { IfErr result (λ fault. fault ≡ Fault.Memory) }
{
    let tiles = machine.torus().tiles();
    let crew = crew_of(workers, tiles);
    let (fabric, seats) = opened(alloc, machine, tiles, crew)?;
    let Ok(workers) = worked(rt, alloc, &fabric, seats, turns, gate, watch) else {
        return Err(Fault::Memory);
    };
    let whole = joined(&fabric, workers);
    steps_lead_on();
    steps_decide_the_machine();
    steps_lead_to_a_machine();
    Ok(fabric.close(whole))
}

/// How many workers there are, where so many are asked for: at most one a tile.
fn crew_of(workers: usize, tiles: u32) -> u32
    requires workers { (1 ≤ workers) × (workers ≤ 16) }
    requires tiles { 0 < tiles }
    ensures is { result ≡ min workers tiles }
    ensures within { (1 ≤ result) × (result ≤ 16) × (result ≤ tiles) }
{
    if (tiles as usize) < workers {
        tiles
    } else {
        workers as u32
    }
}

/// The fabric of a machine before any step, and the seats of so many workers, which share its tiles.
fn opened<A: Allocator + Copy>(
    alloc: A,
    machine: Machine<A>,
    tiles: u32,
    crew: u32,
) -> Result<(Fabric<A>, Vec<TileSeat<A>, A>), Fault>
    requires fresh { (l : Load) × IsAfter l machine [] }
    requires tiles { tiles ≡ tiles_of machine.shape }
    requires crew { (1 ≤ crew) × (crew ≤ 16) × (crew ≤ tiles) }
    ensures load { IfOk result (λ r. IsAfter r.0.load machine []) }
    ensures seats { IfOk result
        (λ r. r.1.items ≡ map (λ j. fresh r.0.table r.0.load (tiles_of_worker tiles crew j))
        (range_with_len 0 crew)) }
    ensures fault { IfErr result (λ fault. fault ≡ Fault.Memory) }
{
    let cuts = cuts_of(tiles, crew);
    match Fabric::open(alloc, machine, cuts.as_slice(), 0) {
        Ok((fabric, seats, _)) => Ok((fabric, seats)),
        Err(fault) => Err(fault),
    }
}

/// The first tiles of all workers but the first, where so many share the tiles.
fn cuts_of(tiles: u32, crew: u32) -> ArrayVec<usize, 15>
    requires { (1 ≤ crew) × (crew ≤ 16) }
    ensures { result.items ≡ map (first_held tiles crew) (range_with_len 1 (crew - 1)) }
{
    let mut cuts = ArrayVec::new();
    for before in 0..crew - 1 {
        cuts.push((before + 1) as usize * tiles as usize / crew as usize);
    }
    cuts
}

/// The workers of these seats, after their turns.
fn worked<R: Threads + Wait + Sync, A: Allocator + Copy + Send + Sync, G: Gate, V: Watch>(
    rt: &R,
    alloc: A,
    fabric: &Fabric<A>,
    seats: Vec<TileSeat<A>, A>,
    turns: u64,
    gate: &G,
    watch: &V,
) -> Result<Vec<Worker<A>, A>, AllocError>
    requires own { All (IsSeatOf fabric.now) seats.items }
    requires few { length seats.items ≤ 16 }
    requires turns { (1 ≤ turns) × (turns ≤ 1000000000) }
    requires gate { LetsAll (G.holds gate.now) (G.stops gate.now) }
    ensures own { IfOk result (λ workers. All (λ w. IsSeatOf fabric.now w.knows) workers.items) }
    ensures count { IfOk result (λ workers. length workers.items ≡ length seats.items) }
    ensures worked { IfOk result
        (λ workers. (i : ℕ) (d : Working) → i < length seats.items
        → HasWorked ⊥ (λ step. ⊥) turns (slice_index_or (map new_worker seats.items) i d)
        (slice_index_or workers.items i d)) }
    ensures told { IfOk result
        (λ workers. (i : ℕ) (d : Working) → i < length seats.items
        → IsWatched (V.over watch.now i) (λ step. ⊥) turns
        (slice_index_or (map new_worker seats.items) i d) (slice_index_or workers.items i d)) }
{
    let mut workers = workers_of(alloc, seats)?;
    run_workers(rt, fabric, workers.as_mut_slice(), gate, watch, turns);
    Ok(workers)
}

/// A worker for each seat.
fn workers_of<A: Allocator + Copy>(
    alloc: A,
    seats: Vec<TileSeat<A>, A>,
) -> Result<Vec<Worker<A>, A>, AllocError>
    ensures { IfOk result (λ workers. workers.items ≡ map new_worker seats.items) }
{
    let mut workers = Vec::new(alloc);
    for seat in seats {
        workers.push(Worker::new(seat))?;
    }
    Ok(workers)
}

/// One seat with the tiles of all workers.
fn joined<A: Allocator>(fabric: &Fabric<A>, mut workers: Vec<Worker<A>, A>) -> TileSeat<A>
    requires own { All (λ w. IsSeatOf fabric.now w.knows) workers.items }
    requires some { 0 < length workers.items }
    ensures own { IsSeatOf fabric.now result }
    ensures all { All (λ w. IsTakenIn w.knows result) workers.items }
{
    let Some(last) = workers.pop() else {
        unreachable!();
    };
    let mut whole = last.into_seat();
    while let Some(worker) = workers.pop() {
        whole = fabric.join(whole, worker.into_seat());
    }
    whole
}

/// Prints the report of a run that has ended. Answers whether every script is finished.
fn print_end<A: Allocator + Copy, B: Allocator, W: Out>(
    alloc: A,
    end: &Final<B>,
    out: &mut W,
) -> Result<bool, ProgramFault>
    ensures { Does (IsOfEnded end.now) IsNoFault (output (W.taken out.old) (W.failures out.old))
        (output (W.taken out.new) (W.failures out.new)) result }
{
    let finished = end.finished();
    let report = of_final(alloc, end)?;
    write_report(out, &report)?;
    Ok(finished)
}
