//! The fabric and its seats are made.
ghost use Rattle.std.specs.Prelude.{◌≡◌, ◌⊎◌, ◌↔◌, ◌-◌, ◌*◌, ◌<◌, ◌≤◌, IfOk, IfErr, [], map};
ghost use Rattle.std.specs.Prelude.{replicate, Err};
ghost use Rattle.torus.specs.Shape.{tiles_of, dims_of};
ghost use Rattle.torus.specs.declared.fault.Fault.TheVariants as fault;
ghost use Rattle.channel_number.specs.Order.{channel_count};
ghost use Rattle.channel_number.specs.Ports.{port_count};
ghost use Rattle.fabric_rule.specs.Core.{Load};
ghost use Rattle.fabric_rule.specs.Machine.{IsAfter};
ghost use Rattle.fabric_rule.specs.Groups.{first_group, other_groups};
ghost use Rattle.fabric.specs.Key.{ranges, Rises, count_up};
ghost use Rattle.fabric.specs.Opening.{fresh, rises, can_deal, CanDeal, Rest, HasRest, IsBuilt};

use crate::dealing::{Naming, named};
use crate::plays::{Halves, Note};
use crate::seats::{Fabric, ProbeSeat, TileSeat};
use crate::steps::Row;
use crate::taking::{filled, taken};
use crate::view::Knowledge;
use atomic_table::{Seat, Table};
use channel_number::channel_count;
use fabric_rule::SeatFlags;
use machine_core::{Machine, Parts, TileAgents};
use std::alloc::{AllocError, Allocator};
use std::marker::Brand;
use torus::{Fault, Torus};

/// What a machine is built to.
#[derive(Drop)]
struct Built {
    torus: Torus,
    depth: u32,
    words: u32,
}

// The seat's first group becomes a tile seat with its tiles. What is left of the seat comes back.
fn cut_off<A: Allocator + Copy>(
    alloc: A,
    row: &Row,
    built: &Built,
    mut seat: Seat<(), Knowledge>,
    all: &mut Vec<Option<TileAgents<A>>, A>,
    from: usize,
    to: usize,
) -> Result<(TileSeat<A>, Seat<(), Knowledge>), AllocError>
    requires seat { HasRest row.now.table_id seat.me.0.load seat.me.0.groups seat
        × (0 < row.now.table_id.words) }
    requires group { (first_group seat.me.0.groups ≡ count_up from (to - from)) × (from < to)
        × (to ≤ tiles_of seat.me.0.load.shape) }
    requires all { Rest seat.me.0.load all.old.items from }
    requires built { IsBuilt seat.me.0.load built.now.torus built.now.depth built.now.words }
    ensures seat { IfOk result
        (λ r. r.0 ≡ fresh row.now.table_id seat.me.0.load (count_up from (to - from))) }
    ensures left { IfOk result
        (λ r. HasRest row.now.table_id seat.me.0.load (other_groups seat.me.0.groups) r.1) }
    ensures all { Rest seat.me.0.load all.new.items to }
{
    let other = row.split_seat::<Halves>(&mut seat);
    let slots = taken(alloc, all, from, to)?;
    let flags = SeatFlags::new(alloc, built.torus, built.depth, built.words, from, to)?;
    Ok((TileSeat { slots, seat, flags }, other))
}

// A tile seat for each range of tiles, and a seat with no tile.
fn deal<A: Allocator + Copy>(
    alloc: A,
    row: &Row,
    built: &Built,
    seat: Seat<(), Knowledge>,
    all: &mut Vec<Option<TileAgents<A>>, A>,
    cuts: &[usize],
    count: usize,
) -> Result<(Vec<TileSeat<A>, A>, Seat<(), Knowledge>), AllocError>
    requires seat { HasRest row.now.table_id seat.me.0.load (ranges 0 cuts.now count) seat
        × (0 < row.now.table_id.words) }
    requires cuts { Rises 0 cuts.now count × (count ≡ tiles_of seat.me.0.load.shape) }
    requires all { Rest seat.me.0.load all.old.items 0 }
    requires built { IsBuilt seat.me.0.load built.now.torus built.now.depth built.now.words }
    ensures seats { IfOk result
        (λ r. r.0.items ≡ map (fresh row.now.table_id seat.me.0.load) (ranges 0 cuts.now count)) }
    ensures left { IfOk result (λ r. HasRest row.now.table_id seat.me.0.load [] r.1) }
{
    let mut seats = Vec::new(alloc);
    let mut rest = seat;
    let mut from = 0;
    for cut in cuts {
        let (one, other) = cut_off(alloc, row, built, rest, all, from, *cut)?;
        seats.push(one)?;
        rest = other;
        from = *cut;
    }
    let (one, other) = cut_off(alloc, row, built, rest, all, from, count)?;
    seats.push(one)?;
    Ok((seats, other))
}

// Seats with no tile, from one such.
fn lookers<A: Allocator + Copy>(
    alloc: A,
    row: &Row,
    seat: &mut Seat<(), Knowledge>,
    probes: usize,
) -> Result<Vec<ProbeSeat, A>, AllocError>
    requires { HasRest row.now.table_id seat.old.me.0.load [] seat.old
        × (0 < row.now.table_id.words) }
    ensures { IfOk result
        (λ r. r.items ≡ replicate probes (fresh row.now.table_id seat.old.me.0.load [])) }
{
    let mut seats = Vec::new(alloc);
    for _ in 0..probes {
        let one = row.split_seat::<Note>(seat);
        seats.push(ProbeSeat { seat: one })?;
    }
    Ok(seats)
}

// Whether the cuts rise strictly, above 0 and below the number of tiles.
fn rise(cuts: &[usize], count: usize) -> bool
    ensures { result ≡ rises 0 cuts.now count }
{
    let mut from = 0;
    for cut in cuts {
        if *cut <= from {
            return false;
        }
        from = *cut;
    }
    from < count
}

// Whether as many seats may be dealt.
fn can_deal(cuts: &[usize], probes: usize, count: usize) -> bool
    ensures { result ≡ can_deal cuts.now probes count }
{
    cuts.len() < 16 && probes < 17 && rise(cuts, count)
}

// Where the memory begins in the row of a torus whose channels hold so many flits.
fn memory_base(torus: &Torus, depth: u32) -> usize
    requires { depth ≤ 8 }
    ensures { result ≡ channel_count torus.now * depth }
{
    channel_count(torus) as usize * depth as usize
}

// How many ports a router has.
fn ports_of(torus: &Torus) -> u32
    ensures { result ≡ port_count (dims_of torus.now) }
{
    8 * torus.dims() + 2
}

impl<A: Allocator + Copy> Fabric<A> {
    // All of it, where as many seats may be dealt.
    fn dealt<B: Naming>(
        alloc: A,
        machine: Machine<A>,
        cuts: &[usize],
        probes: usize,
    ) -> Result<(Fabric<A>, Vec<TileSeat<A>, A>, Vec<ProbeSeat, A>), AllocError>
        requires load { IsAfter B.opening.load machine [] }
        requires cuts { (B.opening.cuts ≡ cuts.now) × Rises 0 cuts.now (tiles_of machine.shape) }
        ensures load { IfOk result (λ r. IsAfter r.0.load machine []) }
        ensures seats { IfOk result
            (λ r. r.1.items ≡ map (fresh r.0.table r.0.load)
            (ranges 0 cuts.now (tiles_of machine.shape))) }
        ensures probes { IfOk result
            (λ r. r.2.items ≡ replicate probes (fresh r.0.table r.0.load [])) }
    {
        let dealing = named::<A, B>(alloc)?;
        let Parts {
            torus,
            depth,
            opening,
            tiles,
            row,
            ..
        } = machine.into_parts();
        let (table, seat) = Table::of_words(alloc, row.as_slice(), &dealing)?;
        let count = tiles.len();
        let mut all = filled(alloc, tiles)?;
        let words = opening.len();
        let built = Built {
            torus,
            depth,
            words: words as u32,
        };
        let (seats, mut rest) = deal(alloc, &table.shared, &built, seat, &mut all, cuts, count)?;
        let probes = lookers(alloc, &table.shared, &mut rest, probes)?;
        let base = memory_base(&torus, depth);
        let ports = ports_of(&torus);
        let fabric = Fabric {
            table,
            base,
            words,
            ports,
            torus,
            opening,
        };
        Ok((fabric, seats, probes))
    }

    /// Gives a freshly loaded machine up for threads: the shared row, a seat for each range of tiles,
    /// and seats with no tile. The cuts are the first tiles of all seats but the first, so that each
    /// tile is of one seat. Every seat knows the empty run.
    ///
    /// Errors: `Fault::Range` exactly where the cuts don't rise strictly within 1 to N - 1, for N
    /// tiles, or are more than 15, or there are more than 16 probes; else `Fault::Memory`.
    pub fn open(
        alloc: A,
        machine: Machine<A>,
        cuts: &[usize],
        probes: usize,
    ) -> Result<(Fabric<A>, Vec<TileSeat<A>, A>, Vec<ProbeSeat, A>), Fault>
        requires fresh { (l : Load) × IsAfter l machine [] }
        ensures load { IfOk result (λ r. IsAfter r.0.load machine []) }
        ensures seats { IfOk result
            (λ r. r.1.items ≡ map (fresh r.0.table r.0.load)
            (ranges 0 cuts.now (tiles_of machine.shape))) }
        ensures probes { IfOk result
            (λ r. r.2.items ≡ replicate probes (fresh r.0.table r.0.load [])) }
        ensures range { (result ≡ Err fault.Range)
            ↔ (CanDeal cuts.now probes (tiles_of machine.shape) → ⊥) }
        ensures fault { IfErr result
            (λ refused. (refused ≡ fault.Range) ⊎ (refused ≡ fault.Memory)) }
    {
        let count = machine.torus().tiles() as usize;
        if !can_deal(cuts, probes, count) {
            return Err(Fault::Range);
        }
        match Fabric::dealt::<Brand>(alloc, machine, cuts, probes) {
            Ok(made) => Ok(made),
            Err(_) => Err(Fault::Memory),
        }
    }
}
