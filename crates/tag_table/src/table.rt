ghost use Rattle.std.specs.Prelude.{◌≡◌, ◌≤◌, ◌<◌, ◌↔◌, length, replicate, IsTrue, IsNone, IfNone, IfSome, slice_set};
ghost use Rattle.tag_table.specs.Tags.{holder_of, free_tag, tag_numbered, out_count, AreAllOut, IsTable};

use arrayvec::ArrayVec;
use std::marker::Model;
use torus::{OpId, Tag};

/// The tags of a processor, numbered from 0, with the operation that holds each tag that is out.
#[derive(Drop)]
pub struct TagTable {
    holders: ArrayVec<Option<OpId>, 16>,
}

impl Model for TagTable {
    ghost use Rattle.std.specs.Prelude.{List, Option};
    ghost use Rattle.torus.specs.declared.step.OpId.{OpId};
    ghost use Rattle.tag_table.specs.Tags.{IsTable};

    ghost Value = { List (Option OpId) };

    ghost view = { λ a. a.holders.items };

    ghost invariant = { λ a. IsTable a.holders.items };
}

impl TagTable {
    /// A table of this many tags, 1 to 16, all free.
    pub fn new(tags: u32) -> TagTable
        requires some { 1 ≤ tags }
        requires few { tags ≤ 16 }
        ensures { result ≡ replicate tags None }
    {
        let mut holders = ArrayVec::new();
        for _ in 0..tags {
            holders.push(None);
        }
        TagTable { holders }
    }

    /// How many tags there are, 1 to 16.
    pub fn tags(&self) -> u32
        ensures count { result ≡ length self.now }
        ensures table { IsTable self.now }
    {
        self.holders.len() as u32
    }

    /// How many tags are out.
    pub fn outstanding(&self) -> u32
        ensures { result ≡ out_count self.now }
    {
        self.holders
            .as_slice()
            .iter()
            .filter(|holder| holder.is_some())
            .count() as u32
    }

    /// The lowest free tag. None exactly when all are out.
    pub fn next_free(&self) -> Option<Tag>
        ensures lowest { result ≡ tag_numbered (free_tag self.now) }
        ensures full { IsNone result ↔ AreAllOut self.now }
        ensures in_range { IfSome result (λ tag. (tag.0 < length self.now) × (tag.0 < 16)) }
    {
        let number = lowest_free(self.holders.as_slice())?;
        Some(Tag(number as u32))
    }

    /// Whether all tags are out.
    pub fn is_full(&self) -> bool
        ensures none { IsTrue result ↔ (free_tag self.now ≡ None) }
        ensures all { IsTrue result ↔ AreAllOut self.now }
    {
        self.next_free().is_none()
    }

    /// The operation that holds the tag. None exactly when the tag isn't out.
    pub fn holder(&self, tag: Tag) -> Option<OpId>
        ensures { result ≡ holder_of self.now tag.0 }
    {
        self.holders
            .as_slice()
            .get(tag.0 as usize)
            .copied()
            .flatten()
    }

    /// Gives the lowest free tag to an operation. None exactly when all are out: then nothing
    /// changes.
    pub fn take(&mut self, id: OpId) -> Option<Tag>
        ensures lowest { result ≡ tag_numbered (free_tag self.old) }
        ensures full { IsNone result ↔ AreAllOut self.old }
        ensures in_range { IfSome result (λ tag. (tag.0 < length self.old) × (tag.0 < 16)) }
        ensures taken { IfSome result (λ tag. self.new ≡ slice_set self.old tag.0 (Some id)) }
        ensures unchanged { IfNone result (self.new ≡ self.old) }
    {
        let tag = self.next_free()?;
        self.holders[tag.0 as usize] = Some(id);
        Some(tag)
    }

    /// Takes a tag back, and answers the operation that held it. None exactly when the tag isn't
    /// out: then nothing changes.
    pub fn give(&mut self, tag: Tag) -> Option<OpId>
        ensures holder { result ≡ holder_of self.old tag.0 }
        ensures given { IfSome result (λ _. self.new ≡ slice_set self.old tag.0 None) }
        ensures unchanged { IfNone result (self.new ≡ self.old) }
    {
        let id = self.holder(tag)?;
        self.holders[tag.0 as usize] = None;
        Some(id)
    }
}

/// The place of the first tag that nobody holds.
fn first_free(holders: &[Option<OpId>]) -> Option<usize>
    ensures first { result ≡ free_tag holders.now }
    ensures exists { IfSome result (λ number. number < length holders.now) }
{
    holders.iter().position(|holder| holder.is_none())
}

/// The number of the lowest free tag. None exactly when all are out.
fn lowest_free(holders: &[Option<OpId>]) -> Option<usize>
    ensures lowest { result ≡ free_tag holders.now }
    ensures exists { IfSome result (λ number. number < length holders.now) }
    ensures full { IsNone result ↔ AreAllOut holders.now }
{
    first_free(holders)
}
