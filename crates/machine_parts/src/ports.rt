//! Which choices of the routers count as awake, kept as a machine moves.

ghost use Rattle.std.specs.Prelude.{◌≡◌, ◌<◌, ◌≤◌, MatchOption, IfOk};
ghost use Rattle.std.specs.Slice.Scan.{HoldsNowhere, IsFirstPlace};
ghost use Rattle.flit_buffer.specs.declared.word_op.WordOp.TheVariants.{Store, Swap};
ghost use Rattle.core_laws.specs.Routers.{ports_woken, router_moved};
ghost use Rattle.machine_parts.specs.Ports.{AwakePorts, flags_of, fresh_ports};
ghost use Rattle.machine_parts.specs.Ports.{take_rested, put_rested, credit_rested, ports_roused};

use crate::port_ends::{PortEnds, all_ports};
use crate::port_set::PortSet;
use flit_buffer::WordOp;
use std::alloc::{AllocError, Allocator, Global};
use std::marker::Model;
use torus::{Choice, Torus};

/// Of the routers of a machine which takes, puts and credits count as awake, and which latches as full.
#[derive(Drop)]
pub struct RouterFlags<A: Allocator = Global> {
    torus: Torus,
    depth: u32,
    words: u32,
    ends: Vec<PortEnds, A>,
    takes: PortSet,
    puts: PortSet,
    credits: PortSet,
    full: PortSet,
    // Only where all takes, puts and credits count as awake: so a move has none to wake.
    all: bool,
}

impl<A: Allocator> Model for RouterFlags<A> {
    ghost use Rattle.machine_parts.specs.Ports.{AwakePorts};

    ghost Value = { AwakePorts };

    ghost use Rattle.machine_parts.specs.InsidePorts.{awake_ports, TellPorts};

    ghost view = { awake_ports };

    ghost invariant = { TellPorts };
}

impl<A: Allocator + Copy> RouterFlags<A> {
    /// The flags of a machine that has made no step, with channels of this depth, 1 to 8, and so many
    /// words, at most 65536: all choices count as awake, and no latch as full.
    ///
    /// Errors: out of memory.
    pub fn new(alloc: A, torus: Torus, depth: u32, words: u32) -> Result<RouterFlags<A>, AllocError>
        requires some { 0 < depth }
        requires few { depth ≤ 8 }
        requires words { words ≤ 65536 }
        ensures { IfOk result
            (λ w. (w.design ≡ record { shape = torus; depth = depth; words = words })
            × (flags_of w ≡ fresh_ports)) }
    {
        let _tiles = torus.tiles();
        let ends = all_ports(alloc, &torus, depth)?;
        Ok(RouterFlags {
            torus,
            depth,
            words,
            ends,
            takes: PortSet::all(),
            puts: PortSet::all(),
            credits: PortSet::all(),
            full: PortSet::none(),
            all: true,
        })
    }
}

impl<A: Allocator> RouterFlags<A> {
    /// The first take of a tile's router, from an input on and below so many, that counts as awake.
    #[inline(always)]
    pub fn next_take(&self, tile: usize, from: u32, ports: u32) -> Option<u32>
        requires tile { tile < 64 }
        requires ports { ports < 32 }
        ensures { MatchOption result (HoldsNowhere ((flags_of self.now).takes tile) from ports)
            (λ i. (i < ports) × IsFirstPlace ((flags_of self.now).takes tile) from ports i) }
    {
        self.takes.next(tile, from, ports)
    }

    /// The first put of a tile's router, from an input on and below so many, that counts as awake.
    #[inline(always)]
    pub fn next_put(&self, tile: usize, from: u32, ports: u32) -> Option<u32>
        requires tile { tile < 64 }
        requires ports { ports < 32 }
        ensures { MatchOption result (HoldsNowhere ((flags_of self.now).puts tile) from ports)
            (λ i. (i < ports) × IsFirstPlace ((flags_of self.now).puts tile) from ports i) }
    {
        self.puts.next(tile, from, ports)
    }

    /// The first credit of a tile's router, from an output on and below so many, that counts as awake.
    #[inline(always)]
    pub fn next_credit(&self, tile: usize, from: u32, ports: u32) -> Option<u32>
        requires tile { tile < 64 }
        requires ports { ports < 32 }
        ensures { MatchOption result (HoldsNowhere ((flags_of self.now).credits tile) from ports)
            (λ o. (o < ports) × IsFirstPlace ((flags_of self.now).credits tile) from ports o) }
    {
        self.credits.next(tile, from, ports)
    }

    /// Counts a take of a tile's router as asleep.
    #[inline(always)]
    pub fn rest_take(&mut self, tile: usize, input: u32)
        requires { tile < 64 }
        ensures design { self.new.design ≡ self.old.design }
        ensures flags { flags_of self.new ≡ take_rested tile input (flags_of self.old) }
    {
        self.takes.lower(tile, input);
        self.all = false;
    }

    /// Counts a put of a tile's router as asleep.
    #[inline(always)]
    pub fn rest_put(&mut self, tile: usize, input: u32)
        requires { tile < 64 }
        ensures design { self.new.design ≡ self.old.design }
        ensures flags { flags_of self.new ≡ put_rested tile input (flags_of self.old) }
    {
        self.puts.lower(tile, input);
        self.all = false;
    }

    /// Counts a credit of a tile's router as asleep.
    #[inline(always)]
    pub fn rest_credit(&mut self, tile: usize, output: u32)
        requires { tile < 64 }
        ensures design { self.new.design ≡ self.old.design }
        ensures flags { flags_of self.new ≡ credit_rested tile output (flags_of self.old) }
    {
        self.credits.lower(tile, output);
        self.all = false;
    }

    /// Counts all takes, puts and credits of all routers as awake.
    pub fn rouse_all(&mut self)
        ensures design { self.new.design ≡ self.old.design }
        ensures flags { flags_of self.new ≡ ports_roused (flags_of self.old) }
    {
        if self.all {
            return;
        }
        self.takes = PortSet::all();
        self.puts = PortSet::all();
        self.credits = PortSet::all();
        self.all = true;
    }

    /// Counts as awake what a move by this operation wakes at the other end of its channel: a swap at a
    /// place the credit of the router that sends on it, a store there the take of the one that receives.
    #[inline(always)]
    pub fn wake(&mut self, op: WordOp)
        ensures design { self.new.design ≡ self.old.design }
        ensures flags { flags_of self.new ≡ ports_woken self.old.design op (flags_of self.old) }
    {
        if self.all {
            return;
        }
        match op {
            WordOp::Swap(word, value) => self.return_credit(word, value),
            WordOp::Store(word, flit) => self.bring_flit(word, flit),
            _ => {}
        }
    }

    /// After a move of a tile's router by this operation: what that wakes, the take whose latch is empty
    /// then, and the puts of latches that count as full, where the move can free them.
    #[inline(always)]
    pub fn router_moved(&mut self, tile: usize, choice: Choice, op: WordOp)
        requires { tile < 64 }
        ensures design { self.new.design ≡ self.old.design }
        ensures flags { flags_of self.new
            ≡ router_moved tile choice (ports_woken self.old.design op (flags_of self.old)) }
    {
        self.wake(op);
        match choice {
            Choice::TakeFrom(input) => {
                self.full.raise(tile, input);
                self.puts.raise(tile, input);
            }
            Choice::Put(input) => {
                self.takes.raise(tile, input);
                self.full.lower(tile, input);
                self.puts.join(tile, &self.full);
            }
            Choice::CreditOf(_) => self.puts.join(tile, &self.full),
            _ => {}
        }
    }

    /// Wakes the credit that a swap at a word returns; nothing where the word is no place.
    #[inline(always)]
    fn return_credit(&mut self, word: usize, value: u64)
        ensures design { self.new.design ≡ self.old.design }
        ensures flags { flags_of self.new
            ≡ ports_woken self.old.design (Swap word value) (flags_of self.old) }
    {
        if word < self.ends.len() {
            match self.ends[word].output {
                Some(port) => {
                    self.credits.raise(port.0 as usize, port.1 as u32);
                    self.all = false;
                }
                None => {}
            }
        }
    }

    /// Wakes the take to which a store at a word brings a flit; nothing where the word is no place.
    #[inline(always)]
    fn bring_flit(&mut self, word: usize, flit: u64)
        ensures design { self.new.design ≡ self.old.design }
        ensures flags { flags_of self.new
            ≡ ports_woken self.old.design (Store word flit) (flags_of self.old) }
    {
        if word < self.ends.len() {
            match self.ends[word].input {
                Some(port) => {
                    self.takes.raise(port.0 as usize, port.1 as u32);
                    self.all = false;
                }
                None => {}
            }
        }
    }
}
