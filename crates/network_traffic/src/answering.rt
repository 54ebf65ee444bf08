//! The answer to a network text and a traffic text.

ghost use Rattle.std.specs.Prelude.{◌≡◌, ◌≤◌, length, IfOk};
ghost use Rattle.std.specs.Str.Lines.{lines};
ghost use Rattle.network_judge.specs.Verdicts.{AllArrive, IsFirstFault, IsVerdict};
ghost use Rattle.network_rounds.specs.Joined.{AreJoined};
ghost use Rattle.network_traffic.specs.Answers.{AnswersTraffic, AnswersSimulationText};
ghost use Rattle.network_traffic.specs.Answers.{IsSimulationText};
ghost use Rattle.network_traffic.specs.Answers.{IsSimulationAnswer, IsNoRouteText, AnswersPackets};
ghost use Rattle.network_traffic.specs.Answers.{is_sound};

use crate::course::run_packets;
use crate::plan::open_plan;
use crate::running::Extent;
use crate::writing::report_text;
use lexer::{LineFault, Refusal};
use network_answer::{judge_network, verdict_text};
use network_judge::{NoRoute, Verdict};
use network_machine::{Ending, Machine};
use network_rounds::routers::routers_of;
use network_rounds::{
    Arbiter, Timed, Traffic, TrafficReason, check_joined, groups_of, queues_of, read_traffic,
};
use network_text::{Network, read_network};
use std::alloc::{AllocError, Allocator, Global};
use torus::Fault;

/// What is answered to a traffic text.
#[derive(Drop)]
pub struct SimulationAnswer<A: Allocator = Global> {
    /// The report: the packets, the channels and how the simulation ends; or the line on the first
    /// pair without a route.
    pub text: Vec<u8, A>,
    /// Whether all pairs of the network have routes, and the simulation is over and ends empty.
    pub sound: bool,
}

/// Out of memory, which is of no line.
const MEMORY: LineFault = LineFault {
    fault: Fault::Memory,
    line: 0,
};

/// Whether a simulation is over and ends empty.
fn is_sound(extent: Extent, ending: Ending) -> bool
    ensures { result ≡ is_sound extent ending }
{
    match ending {
        Ending::Locked => false,
        Ending::Empty => extent.is_over,
        Ending::Goes(_) => false,
    }
}

/// Reads the packets of a traffic text, which go between channels of a network that packets go between.
///
/// Errors: where and why its first bad line is refused, or else the line of the first packet between
/// channels that no packets go between; or out of memory.
pub fn read_packets<A: Allocator + Copy>(
    alloc: A,
    network: &Network<A>,
    text: &[u8],
) -> Result<Traffic<A>, Refusal<TrafficReason>>
    ensures { AnswersTraffic network.now.table.joins (lines text.now) result }
{
    let traffic = read_traffic(alloc, text)?;
    check_joined(alloc, network.kinds(), network.joins(), &traffic)?;
    Ok(traffic)
}

/// Sends packets through a network whose channels hold so many flits.
///
/// Errors: out of memory.
fn simulated<A: Allocator + Copy>(
    alloc: A,
    network: &Network<A>,
    packets: &[Timed],
    depth: u64,
    by: Arbiter,
) -> Result<SimulationAnswer<A>, AllocError>
    requires arrive { AllArrive network.now.table }
    requires joined { AreJoined network.now.table.joins packets.now (length packets.now) }
    requires depth { depth ≤ 8 }
    ensures { IfOk result (λ a. IsSimulationText A by network.now depth packets.now a.text.items
        a.sound) }
{
    let kinds = network.kinds();
    let joins = network.joins();
    let choices = network.choices();
    let mut machine = Machine::open(alloc, kinds, joins, network.replies(), choices, depth)?;
    let routers = routers_of(alloc, kinds, joins, choices)?;
    let groups = groups_of(alloc, kinds, &routers, kinds.len())?;
    let queues = queues_of(alloc, packets, kinds.len())?;
    let plan = open_plan(alloc, kinds, joins, choices, packets)?;
    let course = run_packets(alloc, &mut machine, by, &plan, &queues, &groups)?;
    let ending = machine.ending();
    let text = report_text(
        alloc,
        packets,
        &course.watch.fates.begun,
        &course.watch.fates.delivered,
        &course.flits,
        &course.watch.waited,
        course.extent,
        ending,
    )?;
    Ok(SimulationAnswer {
        text,
        sound: is_sound(course.extent, ending),
    })
}

/// The answer where a pair of the network has no route.
///
/// Errors: out of memory.
fn no_route<A: Allocator + Copy>(
    alloc: A,
    network: &Network<A>,
    r: NoRoute,
) -> Result<SimulationAnswer<A>, AllocError>
    requires { IsFirstFault network.now.table r }
    ensures { IfOk result (λ a. IsNoRouteText network.now a.text.items a.sound) }
{
    let text = verdict_text(alloc, &Verdict::NoRoute(r))?;
    Ok(SimulationAnswer { text, sound: false })
}

/// The answer to some packets, by the verdict of the network.
///
/// Errors: out of memory.
fn answered_by<A: Allocator + Copy>(
    alloc: A,
    network: &Network<A>,
    verdict: &Verdict<A>,
    packets: &[Timed],
    depth: u64,
    by: Arbiter,
) -> Result<SimulationAnswer<A>, AllocError>
    requires verdict { IsVerdict network.now.table network.now.replies verdict.now }
    requires joined { AreJoined network.now.table.joins packets.now (length packets.now) }
    requires depth { depth ≤ 8 }
    ensures { IfOk result (IsSimulationAnswer by network.now depth packets.now) }
{
    match verdict {
        Verdict::NoRoute(r) => Ok(no_route(alloc, network, *r)?),
        Verdict::Rising(_) => Ok(simulated(alloc, network, packets, depth, by)?),
        Verdict::Cycle(_) => Ok(simulated(alloc, network, packets, depth, by)?),
    }
}

/// Judges a network, and answers to some packets.
///
/// Errors: out of memory.
fn judged<A: Allocator + Copy>(
    alloc: A,
    network: &Network<A>,
    packets: &[Timed],
    depth: u64,
    by: Arbiter,
) -> Result<SimulationAnswer<A>, AllocError>
    requires joined { AreJoined network.now.table.joins packets.now (length packets.now) }
    requires depth { depth ≤ 8 }
    ensures { IfOk result (IsSimulationAnswer by network.now depth packets.now) }
{
    let verdict = judge_network(alloc, network)?;
    answered_by(alloc, network, &verdict, packets, depth, by)
}

/// The answer to the packets of a traffic text.
fn answered<A: Allocator + Copy>(
    alloc: A,
    network: &Network<A>,
    packets: &[Timed],
    depth: u64,
    by: Arbiter,
) -> Result<SimulationAnswer<A>, LineFault>
    requires joined { AreJoined network.now.table.joins packets.now (length packets.now) }
    requires depth { depth ≤ 8 }
    ensures { AnswersPackets by network.now depth packets.now result }
{
    match judged(alloc, network, packets, depth, by) {
        Ok(answer) => Ok(answer),
        Err(_) => Err(MEMORY),
    }
}

/// Reads a network text and a traffic text, and sends the packets through the network, whose channels
/// hold so many flits, in clocked rounds by an arbiter.
///
/// Errors: the first fault of the network text and its line, or else the first of the traffic text, a
/// packet between channels that no packets go between among them; or `Fault::Memory` at line 0.
pub fn simulation_answer<A: Allocator + Copy>(
    alloc: A,
    network: &[u8],
    traffic: &[u8],
    depth: u64,
    by: Arbiter,
) -> Result<SimulationAnswer<A>, LineFault>
    requires { depth ≤ 8 }
    ensures { AnswersSimulationText by (lines network.now) (lines traffic.now) depth result }
{
    let network = read_network(alloc, network)?;
    let traffic = read_packets(alloc, &network, traffic)?;
    answered(alloc, &network, &traffic.packets, depth, by)
}
