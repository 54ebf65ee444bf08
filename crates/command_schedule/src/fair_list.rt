//! The attempts of a fair round that are enabled when it begins, as a list.

ghost use Rattle.std.specs.Prelude.{◌≡◌, ◌+◌, ◌≤◌, ◌<◌, ◌∷◌, [], length, map, take};
ghost use Rattle.std.specs.List.{insert, range_with_len};
ghost use Rattle.torus.specs.Shape.{dims_of, tiles_of};
ghost use Rattle.torus.specs.declared.step.Choice.TheVariants.{CreditOf, Put, TakeFrom};
ghost use Rattle.channel_number.specs.Ports.{port_count};
ghost use Rattle.core_laws.specs.Core.{attempts_of};
ghost use Rattle.machine_core.specs.Rounds.{attempts_between};
ghost use Rattle.machine_core.specs.Arbiters.{arbited_at, arbited_round};
ghost use Rattle.machine_core.specs.Oldest.{oldest, sorted_by};
ghost use Rattle.machine_core.specs.Ordered.{age_at, put_in};
ghost use Rattle.command_schedule.specs.Fair.{KeepsEnabled};

use arrayvec::ArrayVec;
use machine_core::Machine;
use outcome_search::round_list::{OF_BANK, OF_PROCESSOR};
use std::alloc::Allocator;
use torus::{Choice, Step};

/// As many attempts as a round can have: 87 at each of 64 tiles.
pub(crate) const MOST_ATTEMPTS: usize = 5568;

/// Keeps the attempts of a fair round that are enabled now, in their order, and answers how many.
pub(crate) fn keep_round<A: Allocator>(machine: &Machine<A>, room: &mut [Step]) -> usize
    requires { 5568 ≤ length room.old }
    ensures kept { take result room.new ≡ arbited_round oldest machine.now }
    ensures within { result ≤ length room.new }
    ensures room { length room.new ≡ length room.old }
{
    let ports = 8 * machine.torus().dims() + 2;
    let mut count = 0;
    for tile in 0..machine.torus().tiles() {
        count = keep_tile(machine, ports, tile, room, count);
    }
    count
}

/// Keeps those at one tile, whose router has so many ports, behind so many that are kept.
fn keep_tile<A: Allocator>(
    machine: &Machine<A>,
    ports: u32,
    tile: u32,
    room: &mut [Step],
    count: usize,
) -> usize
    requires tile { tile < tiles_of machine.now.shape }
    requires few { tile < 64 }
    requires ports { ports ≡ port_count (dims_of machine.now.shape) }
    requires low { ports ≤ 26 }
    requires room { count + 87 ≤ length room.old }
    ensures kept { KeepsEnabled machine.now (arbited_at ports (oldest machine.now tile) tile)
        room.old count room.new result }
    ensures few { result ≤ count + 87 }
{
    let order = inputs_by_age(machine, ports, tile);
    let sent = keep_choices(machine, 3 * tile, &OF_PROCESSOR, room, count);
    let taken = keep_takes(machine, 3 * tile + 1, ports, room, sent);
    let put = keep_puts(machine, 3 * tile + 1, order.as_slice(), room, taken);
    let freed = keep_credits(machine, 3 * tile + 1, ports, room, put);
    keep_choices(machine, 3 * tile + 2, &OF_BANK, room, freed)
}

/// Keeps an attempt behind so many that are kept, where it is enabled.
fn keep_one<A: Allocator>(
    machine: &Machine<A>,
    attempt: Step,
    room: &mut [Step],
    count: usize,
) -> usize
    requires { count < length room.old }
    ensures kept { KeepsEnabled machine.now (attempt ∷ []) room.old count room.new result }
    ensures few { result ≤ count + 1 }
{
    if !machine.enabled(attempt) {
        return count;
    }
    room[count] = attempt;
    count + 1
}

/// Keeps the enabled ones of some choices of an agent.
fn keep_choices<A: Allocator>(
    machine: &Machine<A>,
    agent: u32,
    choices: &[Choice],
    room: &mut [Step],
    count: usize,
) -> usize
    requires { count + length choices.now ≤ length room.old }
    ensures kept { KeepsEnabled machine.now (attempts_of agent choices.now)
        room.old count room.new result }
    ensures few { result ≤ count + length choices.now }
{
    let mut kept = count;
    for choice in choices {
        let attempt = Step {
            agent,
            choice: *choice,
        };
        kept = keep_one(machine, attempt, room, kept);
    }
    kept
}

/// Keeps the enabled takes of a router with so many inputs.
fn keep_takes<A: Allocator>(
    machine: &Machine<A>,
    agent: u32,
    ports: u32,
    room: &mut [Step],
    count: usize,
) -> usize
    requires { count + ports ≤ length room.old }
    ensures kept { KeepsEnabled machine.now
        (attempts_between (λ input. TakeFrom input) agent 0 ports) room.old count room.new result }
    ensures few { result ≤ count + ports }
{
    let mut kept = count;
    for input in 0..ports {
        let attempt = Step {
            agent,
            choice: Choice::TakeFrom(input),
        };
        kept = keep_one(machine, attempt, room, kept);
    }
    kept
}

/// Keeps the enabled puts of some inputs of a router, in this order.
fn keep_puts<A: Allocator>(
    machine: &Machine<A>,
    agent: u32,
    inputs: &[u8],
    room: &mut [Step],
    count: usize,
) -> usize
    requires { count + length inputs.now ≤ length room.old }
    ensures kept { KeepsEnabled machine.now
        (attempts_of agent (map (λ input. Put input) inputs.now)) room.old count room.new result }
    ensures few { result ≤ count + length inputs.now }
{
    let mut kept = count;
    for input in inputs {
        let attempt = Step {
            agent,
            choice: Choice::Put(u32::from(*input)),
        };
        kept = keep_one(machine, attempt, room, kept);
    }
    kept
}

/// Keeps the enabled credits of a router with so many outputs.
fn keep_credits<A: Allocator>(
    machine: &Machine<A>,
    agent: u32,
    ports: u32,
    room: &mut [Step],
    count: usize,
) -> usize
    requires { count + ports ≤ length room.old }
    ensures kept { KeepsEnabled machine.now
        (attempts_between (λ output. CreditOf output) agent 0 ports) room.old count room.new result }
    ensures few { result ≤ count + ports }
{
    let mut kept = count;
    for output in 0..ports {
        let attempt = Step {
            agent,
            choice: Choice::CreditOf(output),
        };
        kept = keep_one(machine, attempt, room, kept);
    }
    kept
}

/// The inputs of a tile's router, of so many, in the order of the ages of what stands in their latches.
fn inputs_by_age<A: Allocator>(machine: &Machine<A>, ports: u32, tile: u32) -> ArrayVec<u8, 26>
    requires low { ports ≤ 26 }
    requires tile { tile < tiles_of machine.now.shape }
    ensures order { result.items ≡ sorted_by (age_at machine.now tile) (range_with_len 0 ports) }
    ensures few { length result.items ≤ ports }
{
    let mut order = ArrayVec::new();
    for input in 0..ports {
        let place = place_by_age(machine, tile as usize, input, order.as_slice());
        order.insert(place, input as u8);
    }
    order
}

/// The place of an input among others of a tile's router: in front of the first that is younger.
fn place_by_age<A: Allocator>(machine: &Machine<A>, tile: usize, input: u32, order: &[u8]) -> usize
    requires { tile < tiles_of machine.now.shape }
    ensures place { insert order.now result input
        ≡ put_in (age_at machine.now tile) input order.now }
    ensures within { result ≤ length order.now }
{
    let age = machine.age(tile, input);
    for place in 0..order.len() {
        if age < machine.age(tile, u32::from(order[place])) {
            return place;
        }
    }
    order.len()
}
