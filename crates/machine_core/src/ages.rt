//! The ages of the heads that stand in the latches of routers: the numbers of the issues of their
//! operations.

ghost use Rattle.std.specs.Prelude.{◌≡◌, ◌<◌};
ghost use Rattle.torus.specs.Shape.{tiles_of};
ghost use Rattle.packet.specs.Flit.{field};
ghost use Rattle.one_order.specs.ProcessorRecord.{index_of};
ghost use Rattle.core_laws.specs.Heads.{carries_route};
ghost use Rattle.core_laws.specs.Mirrors.{tile_at};
ghost use Rattle.machine_core.specs.Oldest.{processor_told, issue_of_tag};
ghost use Rattle.machine_core.specs.Ordered.{age_at};

use crate::machine::Machine;
use crate::noting::holder;
use std::alloc::Allocator;
use tag_table::Tag;

/// A bit of a flit.
#[inline(always)]
fn bit(flit: u64, at: u32) -> u64
    requires { at < 64 }
    ensures { result ≡ field flit at 1 }
{
    (flit >> at) % 2
}

/// The tile that stands in a flit from a bit on.
#[inline(always)]
fn tile_told(flit: u64, at: u32) -> u32
    requires { at < 64 }
    ensures { result ≡ field flit at 6 }
{
    ((flit >> at) % 64) as u32
}

/// The tag that a head flit carries.
#[inline(always)]
fn tag_told(flit: u64) -> Tag
    ensures { result.0 ≡ field flit 41 4 }
{
    Tag(((flit >> 41) % 16) as u32)
}

/// Whether a flit is a head flit.
#[inline(always)]
fn is_head(flit: u64) -> bool
    ensures { result ≡ carries_route flit }
{
    bit(flit, 63) == 1 && bit(flit, 61) == 1
}

/// The processor whose operation a head flit is of: the source of a request, the destination of a reply.
#[inline(always)]
fn processor_told(flit: u64) -> u32
    ensures { result ≡ processor_told flit }
{
    if bit(flit, 57) == 0 {
        tile_told(flit, 45)
    } else {
        tile_told(flit, 51)
    }
}

impl<A: Allocator> Machine<A> {
    /// The age of what stands in the latch of an input of a tile's router: of a head the number of the
    /// issue of its operation, and 0 of a flit that follows and of an empty latch.
    #[inline(always)]
    pub fn age(&self, tile: usize, input: u32) -> u32
        requires { tile < tiles_of self.now.shape }
        ensures { result ≡ age_at self.now tile input }
    {
        let Some(flit) = self.tiles[tile].latched(input) else {
            return 0;
        };
        if is_head(flit) {
            self.issue_under(processor_told(flit), tag_told(flit))
        } else {
            0
        }
    }

    /// The number of the issue of the operation that holds a tag of a processor.
    #[inline(always)]
    fn issue_under(&self, processor: u32, tag: Tag) -> u32
        ensures { result ≡ issue_of_tag self.now processor tag.0 }
    {
        let index = self.index_under(processor, tag);
        self.book.issue(processor, index).unwrap_or(0)
    }

    /// The index of the operation that holds a tag of a processor; 0 where none does.
    #[inline(always)]
    fn index_under(&self, processor: u32, tag: Tag) -> u32
        ensures { result ≡ index_of (tile_at self.now.state processor).processor.operations tag.0 }
    {
        let at = processor as usize;
        if at < self.tiles.len() {
            holder(&self.tiles[at], tag)
        } else {
            0
        }
    }
}
