//! A trace that goes on, judged at each event.

ghost use Rattle.std.specs.Prelude.{◌≡◌, ◌∷◌, ◌<◌, ◌≤◌, ℕ, [], Some, true, false, List, IfOk, IfErr, length};
ghost use Rattle.std.specs.Prelude.{slice_index};
ghost use Rattle.trace_laws.specs.declared.event.Event.{Event};
ghost use Rattle.trace_laws.specs.declared.event.Event.TheVariants.{Issue, Answer};
ghost use Rattle.trace_watch.specs.declared.watch.Full.TheVariants.{Memory};
ghost use Rattle.trace_watch.specs.Follows.{AnswersFew, Tracks, TellsFull, TellsSeen, states_of};
ghost use Rattle.trace_watch.specs.States.{configs_of};

use crate::arena::answered;
use crate::pending::{call_of, calls_on, with_call, without_call};
use crate::state::State;
use packet::Reply;
use std::alloc::{AllocError, Allocator};
use trace_laws::{Call, Event};

/// What is seen of an event.
#[derive(Clone, Copy, Debug, PartialEq, Eq)]
pub enum Seen {
    /// It is taken: the trace with it is linearizable.
    Linearizable,
    /// It isn't taken: with it no order explains the trace.
    NotLinearizable,
    /// It isn't taken: with it the events are no trace.
    NoTrace,
}

/// Why an event is not judged. It isn't taken.
#[derive(Clone, Copy, Debug, PartialEq, Eq)]
pub enum Full {
    /// A request for memory was refused.
    Memory,
    /// At this event, an answer, its word has more configurations than were allowed.
    Configurations,
}

impl From<AllocError> for Full {
    ghost from_gives = { λ _ e. e ≡ Memory };

    fn from(_refused: AllocError) -> Full {
        Full::Memory
    }
}

/// What is known of a trace that goes on: of each word what may have become of it, the open
/// operations, and the number of the newest one. Its memory follows what is open.
#[derive(Drop)]
pub struct Watch<A: Allocator> {
    pub words: Vec<Vec<State<A>, A>, A>,
    pub pending: Vec<Call, A>,
    pub last: Option<u64>,
}

/// A word that nothing was done to.
fn first_states<A: Allocator + Copy>(alloc: A, word: u64) -> Result<Vec<State<A>, A>, AllocError>
    ensures { IfOk result (λ v. configs_of v.items
        ≡ record { word = word; effects = []; seen = [] } ∷ []) }
{
    let mut states = Vec::new(alloc);
    states.push(State {
        word,
        effects: Vec::new(alloc),
        seen: Vec::new(alloc),
    })?;
    Ok(states)
}

/// Words that nothing was done to.
fn first_words<A: Allocator + Copy>(
    alloc: A,
    opening: &[u64],
) -> Result<Vec<Vec<State<A>, A>, A>, AllocError>
    ensures sized { IfOk result (λ v. length v.items ≡ length opening.now) }
    ensures first { IfOk result (λ v. (w : ℕ) → w < length opening.now
        → states_of v.items w
        ≡ record { word = slice_index opening.now w; effects = []; seen = [] } ∷ []) }
{
    let mut words = Vec::new(alloc);
    for i in 0..opening.len() {
        let states = first_states(alloc, opening[i])?;
        words.push(states)?;
    }
    Ok(words)
}

/// A watch of a trace over a memory that opens with these words, before its first event.
pub fn begin<A: Allocator + Copy>(alloc: A, opening: &[u64]) -> Result<Watch<A>, AllocError>
    ensures { IfOk result (λ watch. Tracks opening.now [] watch) }
{
    Ok(Watch {
        words: first_words(alloc, opening)?,
        pending: Vec::new(alloc),
        last: None,
    })
}

/// Whether a number is above the last one.
fn is_above(id: u64, last: Option<u64>) -> bool
    ensures yes { result ≡ true → (n : ℕ) → last ≡ Some n → n < id }
    ensures no { result ≡ false → (n : ℕ) × (last ≡ Some n) × (id ≤ n) }
{
    match last {
        Some(number) => number < id,
        None => true,
    }
}

impl<A: Allocator + Copy> Watch<A> {
    /// An operation is issued.
    fn issue(&mut self, alloc: A, call: Call) -> Result<Seen, Full>
        ensures seen { IfOk result (λ seen. (opening : List ℕ) (trace : List Event)
            → Tracks opening trace self.old → TellsSeen opening trace (Issue call) self.new seen) }
        ensures same { IfErr result (λ full. (full ≡ Memory)
            × ((opening : List ℕ) (trace : List Event) → Tracks opening trace self.old
            → Tracks opening trace self.new)) }
    {
        if call.operation.address as usize >= self.words.len() || !is_above(call.id, self.last) {
            return Ok(Seen::NoTrace);
        }
        self.pending = with_call(alloc, &self.pending, call)?;
        self.last = Some(call.id);
        Ok(Seen::Linearizable)
    }

    /// The operation of this number is answered.
    fn answer(&mut self, alloc: A, id: u64, reply: Reply, bound: usize) -> Result<Seen, Full>
        ensures seen { IfOk result (λ seen. (opening : List ℕ) (trace : List Event)
            → Tracks opening trace self.old
            → TellsSeen opening trace (Answer id reply) self.new seen) }
        ensures same { IfErr result (λ full. (opening : List ℕ) (trace : List Event)
            → Tracks opening trace self.old → Tracks opening trace self.new) }
        ensures full { IfErr result (λ full. (opening : List ℕ) (trace : List Event)
            → Tracks opening trace self.old
            → TellsFull opening trace (Answer id reply) bound full) }
        ensures few { IfOk result (λ seen. (opening : List ℕ) (trace : List Event)
            → Tracks opening trace self.old
            → AnswersFew trace (Answer id reply) bound self.old) }
    {
        let Some(call) = call_of(&self.pending, id) else {
            return Ok(Seen::NoTrace);
        };
        let word = call.operation.address as usize;
        if word >= self.words.len() {
            return Ok(Seen::NoTrace);
        }
        let calls = calls_on(alloc, &self.pending, call.operation.address)?;
        let later = answered(alloc, &self.words[word], &calls, call, reply, bound)?;
        if later.is_empty() {
            return Ok(Seen::NotLinearizable);
        }
        self.pending = without_call(alloc, &self.pending, id)?;
        self.words[word] = later;
        Ok(Seen::Linearizable)
    }

    /// Takes the next event, where the trace is linearizable with it, and looks at no more than so many
    /// configurations of its word at once. The watch knows of the trace what it knew, where it isn't
    /// taken.
    pub fn event(&mut self, alloc: A, event: Event, bound: usize) -> Result<Seen, Full>
        ensures seen { IfOk result (λ seen. (opening : List ℕ) (trace : List Event)
            → Tracks opening trace self.old → TellsSeen opening trace event self.new seen) }
        ensures same { IfErr result (λ full. (opening : List ℕ) (trace : List Event)
            → Tracks opening trace self.old → Tracks opening trace self.new) }
        ensures full { IfErr result (λ full. (opening : List ℕ) (trace : List Event)
            → Tracks opening trace self.old → TellsFull opening trace event bound full) }
        ensures few { IfOk result (λ seen. (opening : List ℕ) (trace : List Event)
            → Tracks opening trace self.old → AnswersFew trace event bound self.old) }
    {
        match event {
            Event::Issue(call) => self.issue(alloc, call),
            Event::Answer(id, reply) => self.answer(alloc, id, reply, bound),
        }
    }
}
