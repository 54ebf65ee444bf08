//! The record that a processor keeps of its operations.

ghost use Rattle.std.specs.Prelude.{◌≡◌, ◌≤◌, ◌<◌, ◌+◌, true, ℕ, [], ◌∷◌, ◌++◌, Some, IfOk, IfSome};
ghost use Rattle.std.specs.Prelude.{IsSome, option_map};
ghost use Rattle.std.specs.Prelude.{replicate, length, OnOk, OnErr};
ghost use Rattle.std.specs.Prelude.{slice_set, vec_len, vec_capacity};
ghost use Rattle.torus.specs.declared.step.OpId.{OpId};
ghost use Rattle.script_lines.specs.Lines.{operation_count, operations_of, mentions_last};
ghost use Rattle.tag_table.specs.Tags.{free_tag, holder_of, out_count};
ghost use Rattle.one_order.specs.Scripts.{IsFollowable};
ghost use Rattle.one_order.specs.Following.{is_finished, left_of};
ghost use Rattle.one_order.specs.ProcessorRecord.{ready, index_of, issued_by, answered_by};
ghost use Rattle.one_order.specs.ProcessorRecord.{record_with};
ghost use Rattle.one_order.specs.ProcessorRecord.{first_record};

use one_order::{Answer, Follower};
use packet::{Operation, Response};
use script_lines::Line;
use std::alloc::{AllocError, Allocator, Global};
use std::marker::Model;
use tag_table::{OpId, Tag, TagTable};

/// What a processor keeps of its operations: how far it has followed its script, which operation
/// holds each of its tags, its operations in the order of issue, and its answers in the order of
/// answering.
#[derive(Drop)]
pub(crate) struct Record<A: Allocator = Global> {
    follower: Follower<A>,
    tags: TagTable,
    issued: Vec<Operation, A>,
    answers: Vec<Answer, A>,
}

impl<A: Allocator> Model for Record<A> {
    ghost use Rattle.one_order.specs.ProcessorRecord.{ProcessorRecord};

    ghost Value = { ProcessorRecord };

    ghost use Rattle.net_interface.specs.Inside.{record_of, IsRecord};

    ghost view = { record_of };

    ghost invariant = { IsRecord };
}

/// The most operations that a script can make.
fn operation_count(lines: &[Line]) -> usize
    requires { operation_count lines.now ≤ 4096 }
    ensures { result ≡ operation_count lines.now }
{
    let mut count = 0;
    for line in lines {
        count += line.operations() as usize;
    }
    count
}

/// Adds an element where there is room for it.
fn push_within<T: Drop, A: Allocator>(items: &mut Vec<T, A>, item: T)
    requires { vec_len items.old < vec_capacity items.old }
    ensures items { items.new.items ≡ items.old.items ++ item ∷ [] }
    ensures capacity { vec_capacity items.old ≤ vec_capacity items.new }
{
    let _ = items.push(item);
}

/// Gives the lowest free tag, which is this one, to an operation.
fn hold(tags: &mut TagTable, tag: Tag, id: OpId)
    requires { free_tag tags.old ≡ Some tag.0 }
    ensures { tags.new ≡ slice_set tags.old tag.0 (Some id) }
{
    let _ = tags.take(id);
}

/// Gives back a tag that is out, and answers the index of the operation that held it.
fn give_back(tags: &mut TagTable, tag: Tag) -> u32
    requires { IsSome (holder_of tags.old tag.0) }
    ensures holder { holder_of tags.old tag.0 ≡ Some (record { 0 = result }) }
    ensures given { tags.new ≡ slice_set tags.old tag.0 None }
{
    match tags.give(tag) {
        Some(OpId(index)) => index,
        None => 0,
    }
}

impl<A: Allocator + Copy> Record<A> {
    /// The record before any operation, with room for all that the script can make.
    pub(crate) fn new(alloc: A, tags: u32, lines: Vec<Line, A>) -> Result<Record<A>, AllocError>
        requires some { 1 ≤ tags }
        requires few { tags ≤ 16 }
        requires followable { IsFollowable lines.items }
        requires count { operation_count lines.items ≤ 4096 }
        ensures { IfOk result (λ r. r ≡ first_record tags lines.items) }
    {
        let room = operation_count(lines.as_slice());
        let issued = Vec::with_capacity(alloc, room)?;
        let answers = Vec::with_capacity(alloc, room)?;
        Ok(Record {
            follower: Follower::new(lines),
            tags: TagTable::new(tags),
            issued,
            answers,
        })
    }
}

impl<A: Allocator> Record<A> {
    /// The operation that is ready, and the lowest free tag; None where there aren't both.
    pub(crate) fn ready(&self) -> Option<(Tag, Operation)>
        ensures value { result ≡ option_map (λ f. (record { 0 = f.0 }, f.1)) (ready self.now) }
        ensures tag { IfSome result (λ f. f.0.0 < 16) }
    {
        match self.follower.next_operation() {
            Some((address, op)) => match self.tags.next_free() {
                Some(tag) => Some((tag, Operation { address, op })),
                None => None,
            },
            None => None,
        }
    }

    /// Issues the operation that is ready, under the tag that is free.
    pub(crate) fn issue(&mut self, tag: Tag, operation: Operation)
        requires { ready self.old ≡ Some (tag.0, operation) }
        ensures { self.new ≡ issued_by self.old tag.0 operation }
    {
        let index = self.follower.issue();
        hold(&mut self.tags, tag, OpId(index));
        push_within(&mut self.issued, operation);
    }

    /// Notes the answer that a response brings to the operation that holds its tag, and gives the tag
    /// back.
    pub(crate) fn answer(&mut self, response: Response)
        requires { IsSome (holder_of self.old.tags response.tag.0) }
        ensures { self.new ≡ answered_by self.old response }
    {
        let index = give_back(&mut self.tags, response.tag);
        let answer = Answer {
            index,
            op: self.issued[index as usize].op,
            reply: response.reply,
            bank: response.source,
            place: response.place,
        };
        self.follower.answer(index, response.reply);
        push_within(&mut self.answers, answer);
    }

    /// Puts a line at the end of the script, with room for so many operations in all, at most 65536. A
    /// spin has loads, and a `last` an operation before it.
    ///
    /// Errors: out of memory; then nothing has changed.
    pub(crate) fn append(&mut self, line: Line, room: usize) -> Result<(), AllocError>
        requires loads { (a v m : ℕ) → line ≡ Line.Spin a v m → 0 < m }
        requires last { mentions_last line ≡ true
            → 0 < length self.old.issued + left_of self.old.following }
        requires room { length self.old.issued + left_of self.old.following + operations_of line
            ≤ room }
        requires few { room ≤ 65536 }
        ensures appended { OnOk result (self.new ≡ record_with line self.old) }
        ensures same { OnErr result (self.new ≡ self.old) }
    {
        self.issued.try_reserve(room - self.issued.len())?;
        self.answers.try_reserve(room - self.answers.len())?;
        self.follower.append(line)?;
        Ok(())
    }

    /// Whether the script is finished.
    pub(crate) fn is_finished(&self) -> bool
        ensures { result ≡ is_finished self.now.following }
    {
        self.follower.finished()
    }

    /// The operation that holds a tag; None exactly where the tag isn't out.
    pub(crate) fn holder(&self, tag: Tag) -> Option<OpId>
        ensures { result ≡ holder_of self.now.tags tag.0 }
    {
        self.tags.holder(tag)
    }

    /// How many tags are out.
    pub(crate) fn outstanding(&self) -> u32
        ensures { result ≡ out_count self.now.tags }
    {
        self.tags.outstanding()
    }

    /// The operations in the order of issue.
    pub(crate) fn issued(&self) -> &[Operation]
        ensures { result.now ≡ self.now.issued }
    {
        self.issued.as_slice()
    }

    /// The answers in the order of answering.
    pub(crate) fn answers(&self) -> &[Answer]
        ensures { result.now ≡ self.now.answers }
    {
        self.answers.as_slice()
    }
}
