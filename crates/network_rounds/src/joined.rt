//! Packets between channels that no packets go between.

ghost use Rattle.std.specs.Prelude.{◌≡◌, length, OnOk, IfErr};
ghost use Rattle.network_machine.specs.Pairs.{cells_of, ArePairs};
ghost use Rattle.network_rounds.specs.Joined.{is_joined, AreJoined, IsFirstApart, RefusesApart};
ghost use Rattle.network_rounds.specs.Traffic.{HasTrafficLines, traffic_spec};

use crate::Timed;
use crate::reading::Traffic;
use crate::reason::TrafficReason;
use lexer::Refusal;
use network_judge::{Join, Kind};
use network_machine::pairs;
use std::alloc::Allocator;

/// Out of memory, which is of no line.
const MEMORY: Refusal<TrafficReason> = Refusal {
    line: 0,
    reason: TrafficReason::Memory,
};

/// Whether packets go between the channels of a packet, by the rows of all pairs.
fn is_joined<A: Allocator>(rows: &[Vec<bool, A>], joins: &[Join], timed: Timed) -> bool
    requires { ArePairs joins.now (cells_of rows.now) }
    ensures { result ≡ is_joined joins.now timed }
{
    pairs::is_joined(rows, joins, timed.packet.from, timed.packet.to)
}

/// Whether packets go between the channels of all packets, by the rows of all pairs.
///
/// Errors: the line of the first packet for which none do.
fn check_rows<A: Allocator>(
    rows: &[Vec<bool, A>],
    joins: &[Join],
    traffic: &Traffic<A>,
) -> Result<(), Refusal<TrafficReason>>
    requires pairs { ArePairs joins.now (cells_of rows.now) }
    requires lines { HasTrafficLines (traffic_spec traffic.now) }
    ensures joined { OnOk result (AreJoined joins.now (traffic_spec traffic.now).packets
        (length (traffic_spec traffic.now).packets)) }
    ensures apart { IfErr result (IsFirstApart joins.now (traffic_spec traffic.now)) }
{
    for k in 0..traffic.packets.len() {
        if !is_joined(rows, joins, traffic.packets[k]) {
            return Err(Refusal {
                line: traffic.lines[k],
                reason: TrafficReason::NotJoined,
            });
        }
    }
    Ok(())
}

/// Whether packets go between the channels of all packets. A pair is looked up in a row for each
/// channel, so it takes a step for each packet, for each pair, and for each two channels.
///
/// Errors: the line of the first packet for which none do; or out of memory, at line 0.
pub fn check_joined<A: Allocator + Copy>(
    alloc: A,
    kinds: &[Kind],
    joins: &[Join],
    traffic: &Traffic<A>,
) -> Result<(), Refusal<TrafficReason>>
    requires { HasTrafficLines (traffic_spec traffic.now) }
    ensures joined { OnOk result (AreJoined joins.now (traffic_spec traffic.now).packets
        (length (traffic_spec traffic.now).packets)) }
    ensures apart { IfErr result (RefusesApart joins.now (traffic_spec traffic.now)) }
{
    match pairs::rows_of(alloc, kinds, joins) {
        Ok(rows) => check_rows(&rows, joins, traffic),
        Err(_) => Err(MEMORY),
    }
}
