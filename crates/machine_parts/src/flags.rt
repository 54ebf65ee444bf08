ghost use Rattle.std.specs.Prelude.{◌≡◌, ℕ, ◌<◌, ◌≤◌, ◌*◌, ◌/◌, [], ◌∷◌, replicate, nat_lt};
ghost use Rattle.std.specs.Prelude.{if◌then◌else◌, IfOk};
ghost use Rattle.torus.specs.Shape.{tiles_of};
ghost use Rattle.std.specs.List.{list_any};
ghost use Rattle.torus.specs.Choices.{processor_choices, bank_choices};
ghost use Rattle.torus.specs.declared.step.Choice.{Choice};
ghost use Rattle.core_laws.specs.Waking.{receiver_of, sender_of, processors};
ghost use Rattle.core_laws.specs.Operations.{wake_places};
ghost use Rattle.machine_parts.specs.Awake.{bit_of, is_awake, is_choice_awake, with_bits, woken};
ghost use Rattle.machine_parts.specs.Awake.{awake_after};
ghost use Rattle.machine_parts.specs.Awake.{rested, roused, all_roused, choice_rested};

use crate::ends::{Ends, all_ends};
use flit_buffer::WordOp;
use std::alloc::{AllocError, Allocator, Global};
use std::marker::Model;
use torus::{Choice, Torus};

/// The most agents that a machine has: three for each of 64 tiles.
const MOST_AGENTS: usize = 192;

/// All bits of an agent; and those of the choices that take a flit, that look for a credit, and that look
/// at the done word.
const ALL: u8 = 255;

const TAKES: u8 = 2;

const CREDITS: u8 = 4;

const LOOKS: u8 = 16;

/// The bit of a choice among those of its agent.
#[inline(always)]
fn bit_of(choice: Choice) -> u32
    ensures value { result ≡ bit_of choice }
    ensures small { result < 8 }
{
    match choice {
        Choice::Send | Choice::Put(_) => 0,
        Choice::Take | Choice::TakeFrom(_) => 1,
        Choice::Credit | Choice::CreditOf(_) => 2,
        Choice::Done => 3,
        Choice::Look => 4,
        Choice::Serve => 5,
    }
}

/// Of each agent of a machine which of its choices count as awake, as bits, and who is at the ends of each
/// channel.
#[derive(Drop)]
pub struct WakeFlags<A: Allocator = Global> {
    torus: Torus,
    depth: u32,
    words: u32,
    ends: Vec<Ends, A>,
    awake: [u8; MOST_AGENTS],
    // Only where all bits of all agents are set: so a move has none to set.
    all: bool,
}

impl<A: Allocator> Model for WakeFlags<A> {
    ghost use Rattle.machine_parts.specs.Awake.{Awake};

    ghost Value = { Awake };

    ghost use Rattle.machine_parts.specs.Inside.{awake_of, TellEnds};

    ghost view = { awake_of };

    ghost invariant = { TellEnds };
}

impl<A: Allocator + Copy> WakeFlags<A> {
    /// The flags of a machine with channels of this depth, 1 to 8, and so many words, at most 65536:
    /// all choices of all agents are awake.
    ///
    /// Errors: out of memory.
    pub fn new(alloc: A, torus: Torus, depth: u32, words: u32) -> Result<WakeFlags<A>, AllocError>
        requires some { 0 < depth }
        requires few { depth ≤ 8 }
        requires words { words ≤ 65536 }
        ensures { IfOk result
            (λ w. w ≡ record {
              design = record { shape = torus; depth = depth; words = words };
              flags = replicate 192 255;
            }) }
    {
        let _tiles = torus.tiles();
        let ends = all_ends(alloc, &torus, depth)?;
        Ok(WakeFlags {
            torus,
            depth,
            words,
            ends,
            awake: [ALL; MOST_AGENTS],
            all: true,
        })
    }
}

impl<A: Allocator> WakeFlags<A> {
    /// Whether an agent counts as awake, that is any of its choices.
    #[inline(always)]
    pub fn is_awake(&self, agent: usize) -> bool
        requires { agent < 192 }
        ensures { result ≡ is_awake self.now agent }
    {
        self.awake[agent] != 0
    }

    /// Whether a choice of an agent counts as awake.
    #[inline(always)]
    pub fn is_choice_awake(&self, agent: usize, choice: Choice) -> bool
        requires { agent < 192 }
        ensures { result ≡ is_choice_awake self.now agent choice }
    {
        (self.awake[agent] >> bit_of(choice)) & 1 != 0
    }

    /// Whether any choice of a processor counts as awake. (A flag of a choice that it doesn't have is
    /// never lowered.)
    #[inline(always)]
    pub fn is_processor_awake(&self, agent: usize) -> bool
        requires { agent < 192 }
        ensures { result ≡ list_any (is_choice_awake self.now agent) processor_choices }
    {
        self.is_choice_awake(agent, Choice::Send)
            || self.is_choice_awake(agent, Choice::Take)
            || self.is_choice_awake(agent, Choice::Credit)
            || self.is_choice_awake(agent, Choice::Done)
            || self.is_choice_awake(agent, Choice::Look)
    }

    /// Whether any choice of a bank counts as awake.
    #[inline(always)]
    pub fn is_bank_awake(&self, agent: usize) -> bool
        requires { agent < 192 }
        ensures { result ≡ list_any (is_choice_awake self.now agent) bank_choices }
    {
        self.is_choice_awake(agent, Choice::Take)
            || self.is_choice_awake(agent, Choice::Serve)
            || self.is_choice_awake(agent, Choice::Send)
            || self.is_choice_awake(agent, Choice::Credit)
    }

    /// Counts all choices of an agent as asleep.
    #[inline(always)]
    pub fn rest(&mut self, agent: usize)
        requires { agent < 192 }
        ensures { self.new ≡ rested self.old agent }
    {
        self.awake[agent] = 0;
        self.all = false;
    }

    /// Counts a choice of an agent as asleep, and with it those that share its bit.
    #[inline(always)]
    pub fn rest_choice(&mut self, agent: usize, choice: Choice)
        requires { agent < 192 }
        ensures design { self.new.design ≡ self.old.design }
        ensures flags { (k : ℕ) (c : Choice) → is_choice_awake self.new k c
            ≡ choice_rested agent choice (is_choice_awake self.old) k c }
    {
        self.awake[agent] &= !(1 << bit_of(choice));
        self.all = false;
    }

    /// Counts all choices of an agent as awake.
    #[inline(always)]
    pub fn rouse(&mut self, agent: usize)
        requires { agent < 192 }
        ensures { self.new ≡ roused self.old agent }
    {
        self.awake[agent] = ALL;
        self.all = false;
    }

    /// Counts all choices of all agents as awake.
    pub fn rouse_all(&mut self)
        ensures { self.new ≡ all_roused self.old }
    {
        if self.all {
            return;
        }
        self.awake = [ALL; MOST_AGENTS];
        self.all = true;
    }

    /// After a move of an agent by this operation: all its own choices count as awake, and those that the
    /// operation can enable.
    #[inline(always)]
    pub fn moved(&mut self, agent: usize, op: WordOp)
        requires { agent < 192 }
        ensures { self.new ≡ awake_after self.old agent op }
    {
        if self.all {
            return;
        }
        self.rouse(agent);
        self.wake(op);
    }

    /// Counts those choices as awake that this operation can enable: after a swap at a place of a channel
    /// the sender's look for a credit, after a store there the receiver's take, and after an addition to
    /// the done word the processors' looks.
    #[inline(always)]
    fn wake(&mut self, op: WordOp)
        ensures { self.new ≡ woken self.old op }
    {
        match op {
            WordOp::Swap(word, _) => self.wake_sender(word),
            WordOp::Store(word, _) => self.wake_receiver(word),
            WordOp::Add(word, _) => {
                if word == self.ends.len() + self.words as usize {
                    self.wake_processors();
                }
            }
            _ => {}
        }
    }

    /// Wakes the credit of the agent that sends on the channel of a place; none where the word is no place.
    #[inline(always)]
    fn wake_sender(&mut self, word: usize)
        ensures design { self.new.design ≡ self.old.design }
        ensures flags { self.new.flags ≡ with_bits self.old.flags 4
            (if nat_lt word (wake_places self.old.design)
            then sender_of self.old.design.shape (word / self.old.design.depth) ∷ [] else []) }
    {
        if word < self.ends.len() {
            let agent = self.ends[word].sender as usize;
            self.awake[agent] |= CREDITS;
            self.all = false;
        }
    }

    /// Wakes the take of the agent that receives from the channel of a place; none where the word is no
    /// place.
    #[inline(always)]
    fn wake_receiver(&mut self, word: usize)
        ensures design { self.new.design ≡ self.old.design }
        ensures flags { self.new.flags ≡ with_bits self.old.flags 2
            (if nat_lt word (wake_places self.old.design)
            then receiver_of self.old.design.shape (word / self.old.design.depth) ∷ [] else []) }
    {
        if word < self.ends.len() {
            let agent = self.ends[word].receiver as usize;
            self.awake[agent] |= TAKES;
            self.all = false;
        }
    }

    /// Wakes the looks of the processors of all tiles.
    fn wake_processors(&mut self)
        ensures design { self.new.design ≡ self.old.design }
        ensures flags { self.new.flags
            ≡ with_bits self.old.flags 16 (processors (tiles_of self.old.design.shape)) }
    {
        self.all = false;
        for tile in 0..self.torus.tiles() {
            self.awake[3 * tile as usize] |= LOOKS;
        }
    }
}
