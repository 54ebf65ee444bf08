//! A simulation of packets, with the memory that it takes.

ghost use Rattle.std.specs.Prelude.{◌≡◌, ◌+◌, ◌<◌, ◌^◌, [], length, IfOk};
ghost use Rattle.std.specs.List.{sum_by};
ghost use Rattle.network_judge.specs.Table.{channels_of};
ghost use Rattle.network_traffic.specs.Plans.{IsPlan, plan_table};
ghost use Rattle.network_traffic.specs.Simulated.{IsSimulated};

use crate::opening::open_watch;
use crate::plan::Plan;
use crate::running::{Extent, watch_rounds};
use crate::watch::Watch;
use network_machine::{Machine, Move};
use network_rounds::{Arbiter, Attempt, Flags, Grants, Timed, senders_of};
use std::alloc::{AllocError, Allocator, Global};

/// The most rounds of a simulation.
pub const MOST_ROUNDS: u64 = 1000000;

/// What comes of a simulation.
#[derive(Drop)]
pub struct Course<A: Allocator = Global> {
    /// What becomes of its packets.
    pub watch: Watch<A>,
    /// How many flits leave each channel.
    pub flits: Vec<u64, A>,
    /// How far it goes.
    pub extent: Extent,
}

/// How many moves a round may make, if below 2^31; as many senders may begin packets.
fn room_for<A: Allocator>(senders: usize, groups: &[Vec<Move, A>]) -> usize
    ensures { result < 2 ^ 31 → result ≡ senders + sum_by (λ group. length group.items) groups.now }
{
    let mut room = senders;
    for k in 0..groups.len() {
        room = room.saturating_add(groups[k].len());
    }
    room
}

/// A choice to write over.
const NO_ATTEMPT: Attempt = Attempt {
    of: Move::Credit(0),
    output: None,
};

/// Sends the packets of a plan through a network whose outputs are granted by an arbiter.
///
/// Errors: out of memory.
pub(crate) fn run_packets<A: Allocator + Copy>(
    alloc: A,
    machine: &mut Machine<A>,
    by: Arbiter,
    plan: &Plan<A>,
    queues: &[Vec<Timed, A>],
    groups: &[Vec<Move, A>],
) -> Result<Course<A>, AllocError>
    requires plan { IsPlan plan.now }
    requires queues { length queues.now ≡ length plan.now.kinds.now }
    ensures size { IfOk result (λ course. length course.flits.items ≡ length plan.now.kinds.now) }
    ensures run { IfOk result (λ course. IsSimulated by (plan_table plan.now) plan.now.packets.now
        queues.now groups.now machine.old machine.new course.flits.items 1000000 course.watch
        course.extent) }
{
    let channels = plan.kinds.len();
    let room = room_for(channels, groups);
    if room >= 1 << 31 {
        return Err(AllocError);
    }
    let mut watch = open_watch(alloc, channels, plan.packets)?;
    let mut begun = vec![in alloc; 0; channels]?;
    let mut flits = vec![in alloc; 0; channels]?;
    let mut sends = vec![in alloc; Move::Credit(0); channels]?;
    let mut choices = Flags::open(alloc, machine.channels(), groups)?;
    choices.tell_all(machine);
    let mut grants = Grants::none(alloc, machine.channels())?;
    let senders = senders_of(alloc, queues)?;
    let mut enabled = vec![in alloc; Move::Credit(0); room]?;
    let mut attempts = vec![in alloc; NO_ATTEMPT; room]?;
    let mut made = vec![in alloc; Move::Credit(0); room]?;
    let extent = watch_rounds(
        machine,
        by,
        plan,
        queues,
        &senders,
        groups,
        &mut choices,
        &mut grants,
        MOST_ROUNDS,
        &mut begun,
        &mut flits,
        &mut sends,
        &mut enabled,
        &mut attempts,
        &mut made,
        &mut watch,
    );
    Ok(Course {
        watch,
        flits,
        extent,
    })
}
