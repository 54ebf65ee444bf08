//! The network of a table, with what stands in its channels.

ghost use Rattle.std.specs.Prelude.{◌≡◌, ◌<◌, ◌≤◌, ◌^◌, ℕ, length, IfOk, Some, IfSome, IfNone};
ghost use Rattle.network_judge.specs.Table.{table_of, joins_of, kind_of, table_next, IsFull};
ghost use Rattle.network_judge.specs.declared.table.Kind.TheVariants.{Ejection};
ghost use Rattle.network_judge.specs.Replies.{AreReplies};
ghost use Rattle.network_judge.specs.Verdicts.{AllArrive};
ghost use Rattle.network_machine.specs.Machine.{IsOpenedNetwork};

use crate::channel::Channel;
use crate::opening::empty_channels;
use crate::owned::Owned;
use crate::pairs::{is_joined, rows_of};
use network_judge::columns::{columns_of, ends_of};
use network_judge::walk::{cell, kind_at};
use network_judge::{Join, Kind, Reply};
use std::alloc::{AllocError, Allocator, Global};
use std::marker::Model;

/// A network of a table as a machine.
#[derive(Drop)]
pub struct Machine<'a, A: Allocator = Global> {
    pub(crate) kinds: &'a [Kind],
    pub(crate) joins: &'a [Join],
    pub(crate) replies: &'a [Reply],
    pub(crate) choices: &'a [u32],
    pub(crate) columns: Vec<usize, A>,
    pub(crate) width: usize,
    pub(crate) channels: Vec<Channel, A>,
    pub(crate) owned: Vec<Owned, A>,
    pub(crate) pairs: Vec<Vec<bool, A>, A>,
}

impl<'a, A: Allocator> Model for Machine<'a, A> {
    ghost use Rattle.network_machine.specs.Machine.{NetworkMachineSpec};

    ghost Value = { NetworkMachineSpec };

    ghost use Rattle.network_machine.specs.Inside.{network_machine_of_fields, IsNetworkMachine};

    ghost view = { network_machine_of_fields };

    ghost invariant = { IsNetworkMachine };
}

impl<'a, A: Allocator + Copy> Machine<'a, A> {
    /// The network of these tables, with no flit in it; a channel holds 1 to 8 flits. Of all calls
    /// this one alone takes memory.
    ///
    /// Errors: out of memory.
    pub fn open(
        alloc: A,
        kinds: &'a [Kind],
        joins: &'a [Join],
        replies: &'a [Reply],
        choices: &'a [u32],
        depth: u64,
    ) -> Result<Machine<'a, A>, AllocError>
        requires full { IsFull (table_of kinds.now joins.now choices.now) }
        requires replies { AreReplies (table_of kinds.now joins.now choices.now) replies.now }
        requires arrive { AllArrive (table_of kinds.now joins.now choices.now) }
        requires depth { depth ≤ 8 }
        ensures { IfOk result (IsOpenedNetwork
            (table_of kinds.now joins.now choices.now) replies.now
            depth) }
    {
        let columns = columns_of(alloc, kinds)?;
        let width = ends_of(alloc, kinds)?.len();
        let channels = empty_channels(alloc, kinds.len(), depth)?;
        let owned = vec![in alloc; Owned::Nothing; kinds.len()]?;
        let pairs = rows_of(alloc, kinds, joins)?;
        Ok(Machine {
            kinds,
            joins,
            replies,
            choices,
            columns,
            width,
            channels,
            owned,
            pairs,
        })
    }
}

impl<'a, A: Allocator> Machine<'a, A> {
    /// Whether packets go from one channel to another.
    pub(crate) fn is_joined(&self, from: usize, to: usize) -> bool
        ensures { result ≡ joins_of self.now.table from to }
    {
        is_joined(&self.pairs, self.joins, from, to)
    }

    /// The kind of a channel, and none beyond the channels.
    pub(crate) fn kind(&self, x: usize) -> Option<Kind>
        ensures { result ≡ kind_of self.now.table x }
    {
        kind_at(self.kinds, x)
    }

    /// The choice behind a channel for packets to an ejection channel, if these are channels.
    pub(crate) fn choice(&self, x: usize, to: usize) -> Option<usize>
        ensures value { IfSome result (λ y. y ≡ table_next self.now.table x to) }
        ensures none { IfNone result (x < length self.now.table.kinds
            → kind_of self.now.table to ≡ Some Ejection → ⊥) }
    {
        if to >= self.columns.len() || x >= self.kinds.len() {
            return None;
        }
        let column = self.columns[to];
        if column >= self.width {
            return None;
        }
        Some(self.choices[cell(self.kinds.len(), self.width, x, column)] as usize)
    }
}
