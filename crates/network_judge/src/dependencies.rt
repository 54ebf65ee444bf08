//! The graph of dependencies: from each channel in a column for each ejection channel, and behind these
//! in one for each reply.

ghost use Rattle.std.specs.Prelude.{◌≡◌, ◌+◌, ◌*◌, ◌^◌, ◌<◌, ◌≤◌, length};
ghost use Rattle.rising.specs.Search.{LeadsWithin};
ghost use Rattle.rising.specs.Chains.{IsNextColumn};
ghost use Rattle.network_judge.specs.Graph.{leads_of, graph_of};

use crate::table::Reply;
use crate::walk::cell;
use rising::Graph;

/// The choices that packets go by, and the replies.
#[derive(Drop)]
pub struct Dependencies<'a> {
    /// How many channels there are.
    pub count: usize,
    /// How many ejection channels.
    pub width: usize,
    /// The choices: a row for each channel, in it a column for each ejection channel.
    pub choices: &'a [u32],
    /// Which of them packets go by.
    pub used: &'a [bool],
    /// The replies.
    pub replies: &'a [Reply],
    ghost full: { length choices.now ≡ count * width },
    ghost square: { length used.now ≡ count * width },
    ghost room: { width + length replies.now < 2 ^ 64 },
    ghost within: { LeadsWithin (graph_of count width choices.now used.now replies.now) },
}

impl<'a> Dependencies<'a> {
    /// Whether a channel leads on in a column.
    fn leads(&self, x: usize, column: usize) -> bool
        requires x { x < self.now.count }
        requires column { column < self.now.width + length self.now.replies.now }
        ensures { result ≡ leads_of self.now.width self.now.used.now self.now.replies.now x column }
    {
        if column < self.width {
            self.used[cell(self.count, self.width, x, column)]
        } else {
            self.replies[column - self.width].from == x
        }
    }

    /// The first column from one on in which a channel leads on, or the number of columns.
    fn lead_from(&self, x: usize, column: usize) -> usize
        requires x { x < self.now.count }
        requires column { column ≤ self.now.width + length self.now.replies.now }
        ensures { IsNextColumn (graph_of self.now.count self.now.width self.now.choices.now
            self.now.used.now self.now.replies.now) x column result }
    {
        let mut at = column;
        while at < self.width + self.replies.len() && !self.leads(x, at) {
            at += 1;
        }
        at
    }
}

impl<'a> Graph for Dependencies<'a> {
    ghost digraph = { λ d. graph_of d.count d.width d.choices.now d.used.now d.replies.now };

    fn nodes(&self) -> usize {
        self.count
    }

    fn columns(&self) -> usize {
        self.width + self.replies.len()
    }

    fn first(&self, node: usize) -> usize {
        self.lead_from(node, 0)
    }

    fn next(&self, node: usize, column: usize) -> usize {
        self.lead_from(node, column + 1)
    }

    fn end(&self, node: usize, column: usize) -> usize {
        if column < self.width {
            self.choices[cell(self.count, self.width, node, column)] as usize
        } else {
            self.replies[column - self.width].to
        }
    }
}
