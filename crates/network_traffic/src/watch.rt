//! A run that is watched: what becomes of its packets, and how long their flits wait.

ghost use Rattle.std.specs.Prelude.{◌≡◌, ◌+◌, ◌<◌, ◌^◌, ◌∷◌, List, length};
ghost use Rattle.network_machine.specs.declared.moves.Move.{Move};
ghost use Rattle.network_judge.specs.Table.{Table};
ghost use Rattle.network_rounds.specs.declared.senders.Timed.{Timed};
ghost use Rattle.network_traffic.specs.Plans.{IsPlan, plan_table};
ghost use Rattle.network_traffic.specs.Labels.{labels_spec, labels_after, HasChannels};
ghost use Rattle.network_traffic.specs.Fates.{Stamped, stamped, labels_behind};
ghost use Rattle.network_traffic.specs.Watches.{ShowsFates, ShowsLog, ShowsCourse, ShowsRounds};
ghost use Rattle.network_traffic.specs.Watches.{KeepsCounts};
ghost use Rattle.network_traffic.specs.Waits.{changes_latch};

use crate::fates::{Fates, count_down, note_round};
use crate::labels::{Labels, first_at, packet_at};
use crate::plan::{Plan, next_number};
use crate::waits::{Wait, note_latch, total_waits};
use network_machine::Move;
use std::alloc::{Allocator, Global};

/// What is kept of a run.
#[derive(Drop)]
pub struct Watch<A: Allocator = Global> {
    /// Where the flits of its packets stand.
    pub labels: Labels<A>,
    /// What becomes of its packets.
    pub fates: Fates<A>,
    /// How long flits have waited in the latch behind each channel.
    pub waits: Vec<Wait, A>,
    /// How many rounds they wait there in all, once the run is over.
    pub waited: Vec<u64, A>,
}

/// Whether a move changes what stands in a latch.
fn changes_latch(of: Move) -> bool
    ensures { result ≡ changes_latch of }
{
    match of {
        Move::Take(_) => true,
        Move::Put(_) => true,
        _ => false,
    }
}

/// Notes what becomes of packets by a move of a round, before it is made of the flits.
#[inline(always)]
fn note_fate<A: Allocator, B: Allocator>(
    fates: &mut Fates<A>,
    plan: &Plan<B>,
    labels: &Labels<A>,
    round: u64,
    of: Move,
)
    requires plan { IsPlan plan.now }
    requires channels { HasChannels (labels_spec labels.now) (length plan.now.kinds.now) }
    ensures { (log : List Stamped)
        → labels_spec labels.now ≡ labels_behind (plan_table plan.now) plan.now.packets.now log
        → ShowsFates (plan_table plan.now) plan.now.packets.now log fates.old
        → ShowsFates (plan_table plan.now) plan.now.packets.now
        (record { round = round; move = of } ∷ log) fates.new }
{
    match of {
        Move::Send(packet) => {
            let begun = next_number(&plan.numbers, &labels.begun, packet.from);
            note_round(&mut fates.begun, begun, round);
        }
        Move::Accept(x) => {
            let accepted = first_at(&labels.flits, x);
            let whole = count_down(&mut fates.left, accepted);
            note_round(&mut fates.delivered, whole, round);
        }
        _ => {}
    }
}

impl<A: Allocator> Watch<A> {
    /// Notes a move of a round that changes what stands in a latch, before it is made of the flits.
    #[inline(always)]
    fn note_latched<B: Allocator>(&mut self, plan: &Plan<B>, round: u64, of: Move)
        requires plan { IsPlan plan.now }
        requires channels { HasChannels (labels_spec self.old.labels) (length plan.now.kinds.now) }
        ensures labels { labels_spec self.new.labels ≡ labels_after (plan_table plan.now)
            plan.now.packets.now (labels_spec self.old.labels) of }
        ensures channels { HasChannels (labels_spec self.new.labels) (length plan.now.kinds.now) }
        ensures fates { self.new.fates ≡ self.old.fates }
        ensures many { length self.new.waits.items ≡ length self.old.waits.items }
        ensures waited { self.new.waited ≡ self.old.waited }
        ensures waits { KeepsCounts round self.old self.new }
    {
        let x = of.channel();
        let was = packet_at(&self.labels.latches, x).is_some();
        self.labels.make(plan, of);
        let is = packet_at(&self.labels.latches, x).is_some();
        note_latch(&mut self.waits, x, round, was, is);
    }

    /// Notes a move of a round, before it is made of the flits.
    fn note_move<B: Allocator>(&mut self, plan: &Plan<B>, round: u64, of: Move)
        requires plan { IsPlan plan.now }
        requires channels { HasChannels (labels_spec self.old.labels) (length plan.now.kinds.now) }
        ensures channels { HasChannels (labels_spec self.new.labels) (length plan.now.kinds.now) }
        ensures many { length self.new.waits.items ≡ length self.old.waits.items }
        ensures waited { self.new.waited ≡ self.old.waited }
        ensures waits { KeepsCounts round self.old self.new }
        ensures log { (log : List Stamped) → ShowsLog (plan_table plan.now) plan.now.packets.now
            log self.old → ShowsLog (plan_table plan.now) plan.now.packets.now
            (record { round = round; move = of } ∷ log) self.new }
    {
        note_fate(&mut self.fates, plan, &self.labels, round, of);
        if changes_latch(of) {
            self.note_latched(plan, round, of);
        } else {
            self.labels.make(plan, of);
        }
    }

    /// Notes the moves of a round.
    fn note_moves<B: Allocator>(&mut self, plan: &Plan<B>, round: u64, moves: &[Move])
        requires plan { IsPlan plan.now }
        requires channels { HasChannels (labels_spec self.old.labels) (length plan.now.kinds.now) }
        ensures channels { HasChannels (labels_spec self.new.labels) (length plan.now.kinds.now) }
        ensures many { length self.new.waits.items ≡ length self.old.waits.items }
        ensures waited { self.new.waited ≡ self.old.waited }
        ensures waits { KeepsCounts round self.old self.new }
        ensures log { (log : List Stamped) → ShowsLog (plan_table plan.now) plan.now.packets.now
            log self.old → ShowsLog (plan_table plan.now) plan.now.packets.now
            (stamped round moves.now log) self.new }
    {
        for k in 0..moves.len() {
            self.note_move(plan, round, moves[k]);
        }
    }

    /// Notes a round, the next one.
    pub(crate) fn note<B: Allocator>(&mut self, plan: &Plan<B>, round: u64, moves: &[Move])
        requires plan { IsPlan plan.now }
        requires channels { HasChannels (labels_spec self.old.labels) (length plan.now.kinds.now) }
        ensures channels { HasChannels (labels_spec self.new.labels) (length plan.now.kinds.now) }
        ensures many { length self.new.waits.items ≡ length self.old.waits.items }
        ensures waited { self.new.waited ≡ self.old.waited }
        ensures rounds { (rounds : List (List Move)) → length rounds + 1 ≡ round → round < 2 ^ 63
            → ShowsCourse (plan_table plan.now) plan.now.packets.now rounds self.old
            → ShowsCourse (plan_table plan.now) plan.now.packets.now (moves.now ∷ rounds) self.new }
    {
        self.note_moves(plan, round, moves);
    }

    /// Counts how many rounds flits wait behind each channel, once so many rounds are noted.
    pub(crate) fn settle(&mut self, rounds: u64)
        requires { length self.old.waited.items ≡ length self.old.waits.items }
        ensures { (t : Table) (packets : List Timed) (noted : List (List Move))
            → length noted ≡ rounds → rounds < 2 ^ 63 → ShowsCourse t packets noted self.old
            → ShowsRounds t packets noted self.new }
    {
        total_waits(&self.waits, &self.labels.latches, rounds, &mut self.waited);
    }
}
