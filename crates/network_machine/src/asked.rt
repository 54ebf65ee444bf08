//! The output that a head asks for.

ghost use Rattle.std.specs.Prelude.{◌≡◌, ◌<◌, length, true};
ghost use Rattle.network_judge.specs.Table.{is_receiver, kind_of, table_next};
ghost use Rattle.network_machine.specs.Asked.{asked, asked_by_flit, channel_there};

use crate::flit::{is_head, told};
use crate::machine::Machine;
use network_judge::walk::is_receiver;
use std::alloc::Allocator;

impl<'a, A: Allocator> Machine<'a, A> {
    /// The choice behind channel x for packets to an ejection channel, if it is a channel.
    fn choice_for(&self, x: usize, to: usize) -> Option<usize>
        requires x { x < length self.now.channels }
        requires to { is_receiver (kind_of self.now.table to) ≡ true }
        ensures { result ≡ channel_there self.now (table_next self.now.table x to) }
    {
        let count = self.channels();
        let y = self.choice(x, to)?;
        if y < count { Some(y) } else { None }
    }

    /// The output that a flit asks for behind channel x, if it is a head.
    fn asked_by_flit(&self, x: usize, flit: u64) -> Option<usize>
        requires { x < length self.now.channels }
        ensures { result ≡ asked_by_flit self.now x flit }
    {
        let to = told(flit);
        if is_head(flit) && is_receiver(self.kind(to)) {
            self.choice_for(x, to)
        } else {
            None
        }
    }

    /// The output that the head in the latch behind channel x asks for, if one stands there.
    pub fn asked(&self, x: usize) -> Option<usize>
        ensures { result ≡ asked self.now x }
    {
        if x >= self.channels.len() {
            return None;
        }
        self.asked_by_flit(x, self.channels[x].latch?)
    }
}
