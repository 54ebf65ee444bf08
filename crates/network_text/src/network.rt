//! The network of a text.

ghost use Rattle.std.specs.Prelude.{◌≡◌, true};
ghost use Rattle.std.specs.Str.Lines.{lines};
ghost use Rattle.network_judge.specs.Table.{IsFull};
ghost use Rattle.network_judge.specs.Replies.{AreReplies};
ghost use Rattle.lexer.specs.Outcome.{Gives as GivesOrWhy};
ghost use Rattle.lexer.specs.Faults.{Gives};
ghost use Rattle.network_text.specs.Network.{network_of, network_or_why};
ghost use Rattle.network_text.specs.Choosing.{fixed_network};
ghost use Rattle.network_text.specs.ChoosingRead.{choosing_text_of, IsChoosingRead};

use crate::choosing::{Choosing, Routers};
use crate::choosing_text::read_text_or_why;
use crate::reason::NetworkReason;
use lexer::{LineFault, Refusal};
use network_judge::{Join, Kind, Reply};
use std::alloc::{Allocator, Global};
use std::marker::Model;

/// A network as its text gives it.
#[derive(Drop)]
pub struct Network<A: Allocator = Global> {
    kinds: Vec<Kind, A>,
    joins: Vec<Join, A>,
    replies: Vec<Reply, A>,
    choices: Vec<u32, A>,
    flits: Option<u32>,
}

impl<A: Allocator> Model for Network<A> {
    ghost use Rattle.network_text.specs.Network.{NetworkSpec};

    ghost Value = { NetworkSpec };

    ghost use Rattle.network_text.specs.Inside.{network_of_fields, IsNetwork};

    ghost view = { network_of_fields };

    ghost invariant = { IsNetwork };
}

impl<A: Allocator> Network<A> {
    /// The kind of each channel, 1 to 65536 of them.
    pub fn kinds(&self) -> &[Kind]
        ensures value { result.now ≡ self.now.table.kinds }
        ensures full { IsFull self.now.table }
        ensures replies { AreReplies self.now.table self.now.replies }
    {
        &self.kinds
    }

    /// The source-destination pairs that packets go between, in the order of the text.
    pub fn joins(&self) -> &[Join]
        ensures { result.now ≡ self.now.table.joins }
    {
        &self.joins
    }

    /// Which packets are answered where, in the order of the text.
    pub fn replies(&self) -> &[Reply]
        ensures { result.now ≡ self.now.replies }
    {
        &self.replies
    }

    /// The choice behind each channel for each ejection channel, both in channel order; where there
    /// is none, the number of channels.
    pub fn choices(&self) -> &[u32]
        ensures { result.now ≡ self.now.table.choices }
    {
        &self.choices
    }

    /// How many flits each packet has, 1 to 2147483647; none where the text doesn't say so.
    pub fn flits(&self) -> Option<u32>
        ensures { result ≡ self.now.flits }
    {
        self.flits
    }
}

/// The network of a text of fixed routes that is read.
pub fn network_read<A: Allocator>(text: Choosing<A>) -> Network<A>
    requires read { IsChoosingRead text }
    requires begun { text.fixed.begun ≡ true }
    ensures { result ≡ fixed_network (choosing_text_of text) }
{
    let fixed = text.fixed;
    Network {
        kinds: fixed.kinds,
        joins: fixed.joins,
        replies: fixed.replies,
        choices: fixed.choices,
        flits: fixed.flits,
    }
}

/// Reads a network text of fixed routes.
///
/// Errors: where and why its first bad line is refused, or that a request for memory was.
pub fn read_network_or_why<A: Allocator + Copy>(
    alloc: A,
    text: &[u8],
) -> Result<Network<A>, Refusal<NetworkReason>>
    ensures { GivesOrWhy NetworkReason.Memory (λ n. n) result (network_or_why (lines text.now)) }
{
    match read_text_or_why(alloc, text, Routers::OneChoice) {
        Ok(text) => Ok(network_read(text)),
        Err(refusal) => Err(refusal),
    }
}

/// Reads a network text of fixed routes.
///
/// Errors: the first fault and its line, or `Fault::Memory` at line 0.
pub fn read_network<A: Allocator + Copy>(alloc: A, text: &[u8]) -> Result<Network<A>, LineFault>
    ensures { Gives (λ n. n) result (network_of (lines text.now)) }
{
    let network = read_network_or_why(alloc, text)?;
    Ok(network)
}
