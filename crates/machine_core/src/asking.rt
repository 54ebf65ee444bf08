//! What a machine may be asked of its next step: whether a step is enabled, and which is the first.

ghost use Rattle.std.specs.Prelude.{◌≡◌, ◌+◌, ◌*◌, ◌<◌, ◌↔◌, IsSome, IsTrue, None, false, is_some};
ghost use Rattle.std.specs.Prelude.{[], slice_get};
ghost use Rattle.std.specs.Option.{option_copied};
ghost use Rattle.torus.specs.Shape.{tiles_of};
ghost use Rattle.tag_table.specs.Tags.{holder_of, out_count};
ghost use Rattle.flit_buffer.specs.Surroundings.{granted};
ghost use Rattle.flit_buffer.specs.declared.want.Want.TheVariants.{Take};
ghost use Rattle.one_order.specs.ProcessorRecord.{ready};
ghost use Rattle.router.specs.Table.{latch_of};
ghost use Rattle.tile.specs.Wiring.{processor_wiring};
ghost use Rattle.core_laws.specs.Mirrors.{tile_at};
ghost use Rattle.torus.specs.declared.step.Step.{Step};
ghost use Rattle.machine_parts.specs.Core.{step, attempts_of, round_at};
ghost use Rattle.machine_parts.specs.ProgressMoves.{enabled_step};
ghost use Rattle.machine_parts.specs.Machine.{built_to, all_finished, shown};
ghost use Rattle.torus.specs.Choices.{takes_of_all, puts_of_all, credits_of_all};
ghost use Rattle.machine_core.specs.Rounds.{first_in};

use crate::machine::Machine;
use machine_parts::agent_tile;
use packet::Operation;
use std::alloc::Allocator;
use tag_table::{OpId, Tag};
use torus::{Choice, Step};

/// The choices of a processor, and of a bank, in the order of a round.
const OF_PROCESSOR: [Choice; 5] = [
    Choice::Send,
    Choice::Take,
    Choice::Credit,
    Choice::Done,
    Choice::Look,
];

const OF_BANK: [Choice; 4] = [Choice::Take, Choice::Serve, Choice::Send, Choice::Credit];

impl<A: Allocator> Machine<A> {
    /// Whether a step is enabled now, that is whether `step` would answer `Moved`. A step that names no
    /// agent, or a choice that the agent doesn't have, isn't.
    pub fn enabled(&self, attempt: Step) -> bool
        ensures { result ≡ is_some (step (built_to self.now) self.now.state attempt) }
    {
        let tile = agent_tile(attempt.agent) as usize;
        if tile >= self.tiles.len() {
            return false;
        }
        self.tiles[tile].would_move(attempt, &self.row)
    }

    /// How many tags each processor has, 1 to 16.
    pub fn tags(&self) -> u32
        ensures { result ≡ self.now.tags }
    {
        self.tags
    }

    /// A processor's operations, in the order of issue; `None` exactly where there is no such processor.
    pub fn issued(&self, processor: u32) -> Option<&[Operation]>
        ensures { option_copied result ≡ slice_get (shown self.now).issued processor }
    {
        let at = processor as usize;
        if at < self.tiles.len() {
            Some(self.tiles[at].issued())
        } else {
            None
        }
    }

    /// The operation of a processor that holds a tag; `None` where the tag isn't out, or there is no such
    /// processor.
    pub fn holder(&self, processor: u32, tag: Tag) -> Option<OpId>
        ensures { result
            ≡ holder_of (tile_at self.now.state processor).processor.operations.tags tag.0 }
    {
        let at = processor as usize;
        if at < self.tiles.len() {
            self.tiles[at].holder(tag)
        } else {
            None
        }
    }

    /// Whether no request of a processor is in course: the next flit that it sends begins one. So it is too
    /// where there is no such processor.
    pub fn is_between_requests(&self, processor: u32) -> bool
        ensures { IsTrue result ↔ ((tile_at self.now.state processor).processor.to_put ≡ []) }
    {
        let at = processor as usize;
        if at < self.tiles.len() {
            self.tiles[at].is_between_requests()
        } else {
            true
        }
    }

    /// How many tags of a processor are out.
    pub fn outstanding(&self, processor: usize) -> u32
        requires { processor < tiles_of self.now.shape }
        ensures { result ≡ out_count (tile_at self.now.state processor).processor.operations.tags }
    {
        self.tiles[processor].outstanding()
    }

    /// Whether an operation of a processor's script is ready, under a free tag.
    pub fn is_ready(&self, processor: usize) -> bool
        requires { processor < tiles_of self.now.shape }
        ensures { result
            ≡ is_some (ready (tile_at self.now.state processor).processor.operations) }
    {
        self.tiles[processor].is_ready()
    }

    /// The flit in the latch of an input of a tile's router; `None` where the latch is empty, or there is no
    /// such input.
    pub fn latched(&self, tile: usize, input: u32) -> Option<u64>
        requires { tile < tiles_of self.now.shape }
        ensures { result ≡ latch_of (tile_at self.now.state tile).router input }
    {
        self.tiles[tile].latched(input)
    }

    /// The flit that a processor would take now; `None` where none has come to it.
    pub fn arriving(&self, processor: usize) -> Option<u64>
        requires { processor < tiles_of self.now.shape }
        ensures { result ≡ granted self.now.state.around
            (processor_wiring self.now.shape processor) (Take 0) }
    {
        let op = self.tiles[processor].processor_op(Choice::Take)?;
        let flit = self.row[op.word()];
        if flit == 0 { None } else { Some(flit) }
    }

    /// The first step, in the order of a round, that is enabled now; `None` exactly where no step is
    /// enabled, of any agent. While some script isn't finished there is one.
    pub fn enabled_step(&self) -> Option<Step>
        ensures value { result ≡ enabled_step (built_to self.now) self.now.state }
        ensures none { (result ≡ None)
            ↔ ((attempt : Step) → step (built_to self.now) self.now.state attempt ≡ None) }
        ensures live { all_finished self.now.state ≡ false → IsSome result }
    {
        let ports = 8 * self.torus.dims() + 2;
        for tile in 0..self.torus.tiles() {
            let found = self.enabled_at(ports, tile);
            if found.is_some() {
                return found;
            }
        }
        None
    }

    /// The first of the part of a round at one tile, of so many ports of its router.
    fn enabled_at(&self, ports: u32, tile: u32) -> Option<Step>
        requires tile { tile < 64 }
        requires ports { ports < 32 }
        ensures { result ≡ first_in self.now (round_at ports tile) }
    {
        let processor = 3 * tile;
        let found = self.enabled_choice(processor, &OF_PROCESSOR);
        if found.is_some() {
            return found;
        }
        let found = self.enabled_take(tile, ports);
        if found.is_some() {
            return found;
        }
        let found = self.enabled_put(tile, ports);
        if found.is_some() {
            return found;
        }
        let found = self.enabled_credit(tile, ports);
        if found.is_some() {
            return found;
        }
        self.enabled_choice(processor + 2, &OF_BANK)
    }

    /// The first of some choices of an agent.
    fn enabled_choice(&self, agent: u32, choices: &[Choice]) -> Option<Step>
        ensures { result ≡ first_in self.now (attempts_of agent choices.now) }
    {
        for choice in choices {
            let attempt = Step {
                agent,
                choice: *choice,
            };
            if self.enabled(attempt) {
                return Some(attempt);
            }
        }
        None
    }

    /// The first take of a tile's router, by its inputs; one that doesn't count as awake isn't enabled.
    fn enabled_take(&self, tile: u32, ports: u32) -> Option<Step>
        requires tile { tile < 64 }
        requires ports { ports < 32 }
        ensures { result ≡ first_in self.now (attempts_of (3 * tile + 1) (takes_of_all ports)) }
    {
        let mut from = 0;
        while from < ports {
            let Some(input) = self.ports.next_take(tile as usize, from, ports) else {
                return None;
            };
            let attempt = Step {
                agent: 3 * tile + 1,
                choice: Choice::TakeFrom(input),
            };
            if self.enabled(attempt) {
                return Some(attempt);
            }
            from = input + 1;
        }
        None
    }

    /// The first put of a tile's router, by its inputs; one that doesn't count as awake isn't enabled.
    fn enabled_put(&self, tile: u32, ports: u32) -> Option<Step>
        requires tile { tile < 64 }
        requires ports { ports < 32 }
        ensures { result ≡ first_in self.now (attempts_of (3 * tile + 1) (puts_of_all ports)) }
    {
        let mut from = 0;
        while from < ports {
            let Some(input) = self.ports.next_put(tile as usize, from, ports) else {
                return None;
            };
            let attempt = Step {
                agent: 3 * tile + 1,
                choice: Choice::Put(input),
            };
            if self.enabled(attempt) {
                return Some(attempt);
            }
            from = input + 1;
        }
        None
    }

    /// The first credit of a tile's router, by its outputs; one that doesn't count as awake isn't enabled.
    fn enabled_credit(&self, tile: u32, ports: u32) -> Option<Step>
        requires tile { tile < 64 }
        requires ports { ports < 32 }
        ensures { result ≡ first_in self.now (attempts_of (3 * tile + 1) (credits_of_all ports)) }
    {
        let mut from = 0;
        while from < ports {
            let Some(output) = self.ports.next_credit(tile as usize, from, ports) else {
                return None;
            };
            let attempt = Step {
                agent: 3 * tile + 1,
                choice: Choice::CreditOf(output),
            };
            if self.enabled(attempt) {
                return Some(attempt);
            }
            from = output + 1;
        }
        None
    }
}
