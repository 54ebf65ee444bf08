//! The guard of fair rounds: it holds back what would begin while some operation has been out for too long.

ghost use Rattle.std.specs.Prelude.{◌≡◌, ℕ, ◌+◌, ◌-◌, ◌≤◌, ◌==◌, nat_lt, false, List};
ghost use Rattle.std.specs.Prelude.{if◌then◌else◌};
ghost use Rattle.torus.specs.Shape.{tiles_of};
ghost use Rattle.one_order.specs.Observed.{list_at};
ghost use Rattle.machine_parts.specs.Core.{step};
ghost use Rattle.machine_parts.specs.Rounds.{moves_in};
ghost use Rattle.machine_parts.specs.Machine.{RunsOn, MakesMove, core_after, built_to};
ghost use Rattle.machine_parts.specs.Machine.{all_finished};
ghost use Rattle.machine_core.specs.Oldest.{oldest};
ghost use Rattle.machine_core.specs.Guarded.{guarded_round};
ghost use Rattle.fair_rounds.specs.Guard.{guard_of, usual_guard, holds, guard_after, seen, counted};
ghost use Rattle.fair_rounds.specs.Guard.{issue_count, tag_holder, since_of, with_first, row_since};
ghost use Rattle.fair_rounds.specs.FairRounds.{fair_after, fair_steps, NeedsFair};
ghost use Rattle.fair_rounds.specs.Guard.{least_of, least_of_tags, least_if_out};

use machine_core::Machine;
use std::alloc::Allocator;
use tag_table::{OpId, Tag};

/// A guard of a machine: it makes its fair rounds, and holds back what would begin in a round while some
/// operation has been out for more than so many rounds. It knows since which round each has been out. One
/// guard goes with one machine, from its first fair round on.
#[derive(Drop)]
pub struct Guard {
    /// For how many rounds an operation may be out.
    pub(crate) most: u64,
    /// How many rounds there were.
    pub(crate) rounds: u64,
    /// In how many of them operations were held back.
    pub(crate) held: u64,
    /// No operation that is out has been out since a round before this.
    pub(crate) oldest: u64,
    /// How many operations each processor had issued when the last round began.
    pub(crate) issued: [usize; 64],
    /// Since which round the operation has been out that holds a tag, by processor and tag.
    pub(crate) since: [[u64; 16]; 64],
}

impl Guard {
    /// A guard that lets an operation be out for so many rounds. `u64::MAX` holds nothing back.
    pub fn new(most: u64) -> Guard
        ensures { result ≡ guard_of most }
    {
        Guard {
            most,
            rounds: 0,
            held: 0,
            oldest: 0,
            issued: [0; 64],
            since: [[0; 16]; 64],
        }
    }

    /// The usual guard of a machine, of 241 rounds for each tag of each tile.
    pub fn of<A: Allocator>(machine: &Machine<A>) -> Guard
        ensures { result ≡ usual_guard machine.now }
    {
        Guard::new(241 * u64::from(machine.torus().tiles()) * u64::from(machine.tags()))
    }

    /// For how many rounds an operation may be out before others are held back.
    pub fn most(&self) -> u64
        ensures { result ≡ self.now.most }
    {
        self.most
    }

    /// In how many rounds operations were held back.
    pub fn held_rounds(&self) -> u64
        ensures { result ≡ self.now.held }
    {
        self.held
    }

    /// Makes one fair round of a machine, and answers whether operations were held back in it. Where some
    /// script isn't finished, the round makes a move.
    pub fn round<A: Allocator>(&mut self, machine: &mut Machine<A>) -> bool
        ensures held { result ≡ holds self.old machine.old }
        ensures guard { self.new ≡ guard_after self.old machine.old }
        ensures state { machine.new
            ≡ core_after machine.old (guarded_round oldest result machine.old) }
        ensures moves { machine.new.moves_left
            + moves_in (step (built_to machine.old)) machine.old.state
            (guarded_round oldest result machine.old)
            ≡ machine.old.moves_left }
        ensures live { all_finished machine.old.state ≡ false
            → MakesMove machine.old (guarded_round oldest result machine.old) }
        ensures runs_on { RunsOn machine.old machine.new (guarded_round oldest result machine.old) }
    {
        machine.reached();
        let held = self.watch(machine);
        machine.fair_round(held);
        held
    }

    /// Makes fair rounds of a machine until every script is finished, and answers how many: the least number
    /// that does, which is at most the moves that were left.
    pub fn finish<A: Allocator>(&mut self, machine: &mut Machine<A>) -> u64
        ensures rounds { record { core = machine.new; guard = self.new }
            ≡ fair_after (record { core = machine.old; guard = self.old }) result }
        ensures needed { NeedsFair (record { core = machine.old; guard = self.old }) result }
        ensures left { result ≤ machine.old.moves_left }
        ensures runs_on { RunsOn machine.old machine.new
            (fair_steps (record { core = machine.old; guard = self.old }) result) }
    {
        machine.reached();
        let mut rounds = 0;
        while !machine.finished() {
            let _ = self.round(machine);
            rounds += 1;
        }
        rounds
    }

    /// Sees the machine with which a fair round begins, and answers whether operations are held back in it.
    pub fn watch<A: Allocator>(&mut self, machine: &Machine<A>) -> bool
        ensures held { result ≡ holds self.old machine.now }
        ensures guard { self.new ≡ guard_after self.old machine.now }
    {
        self.see(machine);
        let oldest = self.oldest_seen(machine);
        let held = self.rounds.saturating_sub(oldest) > self.most;
        self.oldest = oldest;
        self.rounds = self.rounds.saturating_add(1);
        self.held = counted_if(held, self.held);
        held
    }

    /// Notes since when the operations have been out that were issued since the last round.
    fn see<A: Allocator>(&mut self, machine: &Machine<A>)
        ensures { self.new ≡ seen self.old machine.now }
    {
        see_rows(machine, self.rounds, &mut self.issued, &mut self.since);
    }

    /// A round before which no operation that is out now was out: that of the last search while it isn't
    /// too long ago, and else that of a new one.
    fn oldest_seen<A: Allocator>(&self, machine: &Machine<A>) -> u64
        ensures { result ≡ (if nat_lt self.now.most (self.now.rounds - self.now.oldest)
            then least_of machine.now self.now.since (tiles_of machine.now.shape) self.now.rounds
            else self.now.oldest) }
    {
        if self.rounds.saturating_sub(self.oldest) > self.most {
            self.oldest_out(machine)
        } else {
            self.oldest
        }
    }

    /// The first round since which an operation has been out that is out now; this one where none is.
    fn oldest_out<A: Allocator>(&self, machine: &Machine<A>) -> u64
        ensures { result
            ≡ least_of machine.now self.now.since (tiles_of machine.now.shape) self.now.rounds }
    {
        let mut oldest = self.rounds;
        for processor in 0..machine.torus().tiles() {
            oldest = oldest_of_row(machine, processor, &self.since[processor as usize], oldest);
        }
        oldest
    }
}

/// One more, of a number that stays in 64 bits, where something is so.
fn counted_if(is_so: bool, count: u64) -> u64
    ensures { result ≡ (if is_so then counted count else count) }
{
    if is_so {
        count.saturating_add(1)
    } else {
        count
    }
}

/// How many operations a processor has issued.
fn issue_count<A: Allocator>(machine: &Machine<A>, processor: u32) -> usize
    ensures { result ≡ issue_count machine.now processor }
{
    match machine.issued(processor) {
        Some(operations) => operations.len(),
        None => 0,
    }
}

/// Notes since when the operations have been out, by processor and tag, of processors that had issued so
/// many before, and how many they have issued.
fn see_rows<A: Allocator>(
    machine: &Machine<A>,
    round: u64,
    issued: &mut [usize; 64],
    since: &mut [[u64; 16]; 64],
)
    ensures issued { issued.new ≡ with_first (tiles_of machine.now.shape)
        (λ p n. issue_count machine.now p) 0 issued.old }
    ensures since { since.new ≡ with_first (tiles_of machine.now.shape)
        (row_since machine.now issued.old round) 0 since.old }
{
    for processor in 0..machine.torus().tiles() {
        let at = processor as usize;
        let count = issue_count(machine, processor);
        see_row(machine, processor, count, issued[at], round, &mut since[at]);
        issued[at] = count;
    }
}

/// Notes since when the operations of a processor have been out, by tag, that has issued so many, and so
/// many before.
fn see_row<A: Allocator>(
    machine: &Machine<A>,
    processor: u32,
    count: usize,
    issued: usize,
    round: u64,
    since: &mut [u64; 16],
)
    ensures { since.new ≡ (if count == issued then since.old
        else with_first 16 (λ t s. since_of (tag_holder machine.now processor t) issued round s) 0
        since.old) }
{
    if count == issued {
        return;
    }
    for tag in 0..16 {
        let at = tag as usize;
        since[at] = since_of(
            machine.holder(processor, Tag(tag)),
            issued,
            round,
            since[at],
        );
    }
}

/// Since when the operation has been out that holds a tag: since now where so many were issued before, and it
/// is none of these.
fn since_of(holder: Option<OpId>, issued: usize, round: u64, since: u64) -> u64
    ensures { result ≡ since_of holder issued round since }
{
    match holder {
        Some(OpId(index)) => {
            if index as usize >= issued {
                round
            } else {
                since
            }
        }
        None => since,
    }
}

/// The least of a round and of those since which operations of a processor have been out.
fn oldest_of_row<A: Allocator>(
    machine: &Machine<A>,
    processor: u32,
    since: &[u64; 16],
    oldest: u64,
) -> u64
    ensures { (all : List (List ℕ)) → list_at all processor ≡ since.now
        → result ≡ least_of_tags machine.now all processor 16 oldest }
{
    let mut oldest = oldest;
    for tag in 0..16 {
        oldest = least_if_out(
            machine.holder(processor, Tag(tag)),
            since[tag as usize],
            oldest,
        );
    }
    oldest
}

/// The least of a round and of that since which an operation has been out, if one is.
fn least_if_out(holder: Option<OpId>, since: u64, oldest: u64) -> u64
    ensures { result ≡ least_if_out holder since oldest }
{
    match holder {
        Some(_) => oldest.min(since),
        None => oldest,
    }
}
