//! The search over the events of a trace.

ghost use Rattle.std.specs.Prelude.{◌≡◌, ◌<◌, ◌+◌, ◌∷◌, ℕ, [], true, false, IfOk, IfErr, OnOk};
ghost use Rattle.std.specs.Prelude.{length};
ghost use Rattle.std.specs.Prelude.{slice_index};
ghost use Rattle.packet.specs.declared.kinds.Reply.{Reply};
ghost use Rattle.trace_laws.specs.Traces.{IsTrace, TraceIssuesAt, TraceAnswersAt};
ghost use Rattle.trace_laws.specs.Orders.{IsLinearizable};
ghost use Rattle.trace_laws.specs.Searches.{IsAt, first_branch};
ghost use Rattle.trace_judge.specs.Sets.{lists_of};
ghost use Rattle.trace_judge.specs.Searched.{HasSearched};
ghost use Rattle.trace_judge.specs.Stops.{IsBeginning, IsUndecided, TellsMany};

use crate::closing::{close, keep};
use crate::index::{Index, empty_index};
use crate::nodes::kept;
use crate::reading::{first_slot, is_unanswered_load, issue_of, promise_of};
use crate::slots::{free, put, slot_of};
use crate::stuck::stuck_in;
use crate::undecided::{Undecided, at_event};
use packet::Reply;
use std::alloc::{AllocError, Allocator};
use trace_laws::{Branch, Call, Config, Event, Node, Open};

/// Of each word the open operations and the branches, the nodes on the ways to these, and an index of
/// the configurations of one word.
#[derive(Drop)]
pub struct Search<A: Allocator> {
    pub tables: Vec<Vec<Option<Open>, A>, A>,
    pub words: Vec<Vec<Branch, A>, A>,
    pub nodes: Vec<Node, A>,
    pub index: Index<A>,
    /// Where there are more nodes than these, those are let go that no branch leads back to.
    pub most: usize,
    /// How many configurations were found at answers so far.
    pub found: u64,
    /// Where a word has no branch left, an operation on it that took effect in none, and wasn't answered.
    pub stuck: Option<u64>,
}

/// How many nodes there may be at least.
const NODES: usize = 1 << 12;

/// One branch for each word.
fn first_words<A: Allocator + Copy>(
    alloc: A,
    opening: &[u64],
) -> Result<Vec<Vec<Branch, A>, A>, AllocError>
    ensures sized { IfOk result (λ v. length v.items ≡ length opening.now) }
    ensures first { IfOk result (λ v. (w : ℕ) → w < length opening.now
        → lists_of v.items w ≡ first_branch (slice_index opening.now w) ∷ []) }
{
    let mut words = Vec::new(alloc);
    for word in opening {
        let mut branches = Vec::new(alloc);
        branches.push(Branch {
            config: Config {
                word: *word,
                taken: 0,
            },
            trail: None,
        })?;
        words.push(branches)?;
    }
    Ok(words)
}

/// No operation is open on any word.
fn empty_tables<A: Allocator + Copy>(
    alloc: A,
    count: usize,
) -> Result<Vec<Vec<Option<Open>, A>, A>, AllocError>
    ensures sized { IfOk result (λ v. length v.items ≡ count) }
    ensures empty { IfOk result (λ v. (w : ℕ) → lists_of v.items w ≡ []) }
{
    let mut tables = Vec::new(alloc);
    for _ in 0..count {
        tables.push(Vec::new(alloc))?;
    }
    Ok(tables)
}

/// The search before the first event.
pub fn start<A: Allocator + Copy>(
    alloc: A,
    opening: &[u64],
    events: &[Event],
    whole: &[Event],
) -> Result<Search<A>, AllocError>
    ensures { IfOk result (λ s. HasSearched opening.now events.now whole.now 0 s) }
{
    Ok(Search {
        tables: empty_tables(alloc, opening.len())?,
        words: first_words(alloc, opening)?,
        nodes: Vec::new(alloc),
        index: empty_index(alloc)?,
        most: NODES,
        found: 0,
        stuck: None,
    })
}

impl<A: Allocator + Copy> Search<A> {
    /// An operation is issued. Of a load that is never answered nothing is kept, since it says nothing.
    fn issue(
        &mut self,
        opening: &[u64],
        events: &[Event],
        whole: &[Event],
        k: usize,
        call: Call,
    ) -> Result<(), Undecided>
        requires trace { IsTrace (length opening.now) events.now }
        requires beginning { IsBeginning events.now whole.now }
        requires inside { k < length events.now }
        requires issued { TraceIssuesAt events.now k call }
        requires holds { HasSearched opening.now events.now whole.now k self.old }
        ensures holds { OnOk result (HasSearched opening.now events.now whole.now
            (k + 1) self.new) }
        ensures undecided { IfErr result (IsUndecided whole.now) }
        ensures full { IfErr result (λ why.
            (bound : ℕ) → TellsMany opening.now whole.now bound why) }
    {
        let promise = promise_of(events, k + 1, call.id);
        if is_unanswered_load(call.operation.op, promise) {
            return Ok(());
        }
        let word = call.operation.address as usize;
        let first = first_slot(whole, events.len(), call.id, promise);
        if put(&mut self.tables[word], first, Open { call, promise })? {
            Ok(())
        } else {
            Err(Undecided::Operations { event: k })
        }
    }

    /// The operation of this number, which is answered, and its slot.
    fn place_of(
        &self,
        opening: &[u64],
        events: &[Event],
        whole: &[Event],
        k: usize,
        id: u64,
    ) -> (usize, Open)
        requires trace { IsTrace (length opening.now) events.now }
        requires inside { k < length events.now }
        requires answered { (reply : Reply) × TraceAnswersAt events.now k id reply }
        requires holds { HasSearched opening.now events.now whole.now k self.now }
        ensures there { IsAt (lists_of self.now.tables.items result.1.call.operation.address)
            result.0 result.1 }
        ensures number { result.1.call.id ≡ id }
        ensures inside { result.1.call.operation.address < length opening.now }
    {
        let Some(call) = issue_of(events, k, id) else {
            unreachable!();
        };
        let Some(found) = slot_of(&self.tables[call.operation.address as usize], id) else {
            unreachable!();
        };
        found
    }

    /// The operation of this number is answered. Says whether each word has a branch still.
    fn answer(
        &mut self,
        alloc: A,
        opening: &[u64],
        events: &[Event],
        whole: &[Event],
        k: usize,
        id: u64,
        reply: Reply,
        bound: usize,
    ) -> Result<bool, Undecided>
        requires trace { IsTrace (length opening.now) events.now }
        requires beginning { IsBeginning events.now whole.now }
        requires inside { k < length events.now }
        requires answered { TraceAnswersAt events.now k id reply }
        requires holds { HasSearched opening.now events.now whole.now k self.old }
        ensures yes { IfOk result (λ b. b ≡ true →
            HasSearched opening.now events.now whole.now (k + 1) self.new) }
        ensures no { IfOk result (λ b. b ≡ false → IsLinearizable opening.now events.now → ⊥) }
        ensures undecided { IfErr result (IsUndecided whole.now) }
        ensures full { IfErr result (TellsMany opening.now whole.now bound) }
    {
        let (slot, opened) = self.place_of(opening, events, whole, k, id);
        let address = opened.call.operation.address;
        let word = address as usize;
        let closed = close(
            alloc,
            &self.words[word],
            &mut self.nodes,
            &mut self.index,
            &self.tables[word],
            address,
            slot,
            bound,
        );
        let middle = match closed {
            Ok(middle) => middle,
            Err(full) => return Err(at_event(full, k)),
        };
        let later = keep(alloc, &middle, slot)?;
        let stands = !later.is_empty();
        self.stuck = stuck_in(stands, &self.tables[word], &middle, slot);
        self.found = self.found.saturating_add(middle.len() as u64);
        free(&mut self.tables[word], slot);
        self.words[word] = later;
        Ok(stands)
    }

    /// Lets nodes go, where there are many.
    fn let_go(
        &mut self,
        alloc: A,
        opening: &[u64],
        events: &[Event],
        whole: &[Event],
        k: usize,
    ) -> Result<(), AllocError>
        requires { HasSearched opening.now events.now whole.now k self.old }
        ensures { OnOk result (HasSearched opening.now events.now whole.now k self.new) }
    {
        if self.nodes.len() <= self.most {
            return Ok(());
        }
        let (words, nodes) = kept(alloc, &self.words, &self.nodes)?;
        self.words = words;
        self.nodes = nodes;
        self.most = self.nodes.len().saturating_mul(2).max(NODES);
        Ok(())
    }

    /// Takes event k. Says whether each word has a branch still.
    pub fn step(
        &mut self,
        alloc: A,
        opening: &[u64],
        events: &[Event],
        whole: &[Event],
        k: usize,
        bound: usize,
    ) -> Result<bool, Undecided>
        requires trace { IsTrace (length opening.now) events.now }
        requires beginning { IsBeginning events.now whole.now }
        requires inside { k < length events.now }
        requires holds { HasSearched opening.now events.now whole.now k self.old }
        ensures yes { IfOk result (λ b. b ≡ true →
            HasSearched opening.now events.now whole.now (k + 1) self.new) }
        ensures no { IfOk result (λ b. b ≡ false → IsLinearizable opening.now events.now → ⊥) }
        ensures undecided { IfErr result (IsUndecided whole.now) }
        ensures full { IfErr result (TellsMany opening.now whole.now bound) }
    {
        match events[k] {
            Event::Issue(call) => {
                self.issue(opening, events, whole, k, call)?;
                Ok(true)
            }
            Event::Answer(id, reply) => {
                if !self.answer(alloc, opening, events, whole, k, id, reply, bound)? {
                    return Ok(false);
                }
                self.let_go(alloc, opening, events, whole, k + 1)?;
                Ok(true)
            }
        }
    }
}
