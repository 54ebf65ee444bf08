ghost use Rattle.std.specs.Prelude.{◌≡◌, ◌^◌, ◌<◌, ◌≤◌, IsSome, IfSome, is_some, vec_len, if◌then◌else◌};
ghost use Rattle.flit_buffer.specs.Words.{word_of};
ghost use Rattle.flit_buffer.specs.Tries.{tried, performed_by};
ghost use Rattle.flit_buffer.specs.Wants.{HasPort, want_op, outcome, ports_after};

use crate::receiver::Receiver;
use crate::sender::Sender;
use crate::want::Want;
use crate::word_op::{WordOp, perform};
use std::alloc::{Allocator, Global};
use std::marker::Model;

/// The ends of channels by which an agent reaches its surroundings, and the position in the row
/// from which the words of the memory stand.
#[derive(Drop)]
pub struct Ports<A: Allocator = Global> {
    inputs: Vec<Receiver, A>,
    outputs: Vec<Sender, A>,
    words: usize,
}

impl<A: Allocator> Model for Ports<A> {
    ghost use Rattle.std.specs.Prelude.{◌≤◌, ◌^◌};
    ghost use Rattle.flit_buffer.specs.Wants.{PortEnds};

    ghost Value = { PortEnds };

    ghost view = { λ p. record {
      inputs = p.inputs.items;
      outputs = p.outputs.items;
      words = p.words;
    } };

    ghost invariant = { λ p. p.words ≤ 2 ^ 32 };
}

impl<A: Allocator> Ports<A> {
    /// Ports with these ends. The words stand from a position of at most 2^32 on.
    pub fn new(inputs: Vec<Receiver, A>, outputs: Vec<Sender, A>, words: usize) -> Self
        requires { words ≤ 2 ^ 32 }
        ensures { result ≡ record {
          inputs = inputs.items;
          outputs = outputs.items;
          words = words;
        } }
    {
        Ports {
            inputs,
            outputs,
            words,
        }
    }

    /// The operation by which a want is tried; None exactly where it wants to put and no credit is
    /// held, or wants a credit and all are held. The input or output is there.
    #[inline(always)]
    pub fn op(&self, want: Want) -> Option<WordOp>
        requires { HasPort self.now want }
        ensures { result ≡ want_op self.now want }
    {
        match want {
            Want::Take(input) => Some(self.inputs[input as usize].take_op()),
            Want::Put(output, flit) => self.outputs[output as usize].put_op(flit),
            Want::Credit(output) => self.outputs[output as usize].credit_op(),
            Want::Access(word, op) => Some(WordOp::at(self.words + word as usize, op)),
            Want::Await(word, _) => Some(WordOp::Load(self.words + word as usize)),
        }
    }

    /// Whether a try of a want over a row would be granted: it has an operation, and the word that this
    /// finds grants it. Nothing changes.
    #[inline(always)]
    pub fn would_grant<B: Allocator>(&self, want: Want, row: &Vec<u64, B>) -> bool
        requires port { HasPort self.now want }
        requires room { IfSome (want_op self.now want) (λ o. word_of o < vec_len row.now) }
        ensures { result ≡ is_some (tried self.now row.now.items want) }
    {
        match self.op(want) {
            Some(op) => want.outcome(row[op.word()]).is_some(),
            None => false,
        }
    }

    /// Takes the word that the operation of a want found, and answers what the agent learns; None
    /// exactly where the word doesn't grant the want, and then nothing changes. A store learns
    /// nothing, which is 0, and so does a put or a credit.
    #[inline(always)]
    pub fn absorb(&mut self, want: Want, got: u64) -> Option<u64>
        requires port { HasPort self.old want }
        requires tried { IsSome (want_op self.old want) }
        ensures learned { result ≡ outcome want got }
        ensures after { self.new
            ≡ (if is_some (outcome want got) then ports_after self.old want else self.old) }
    {
        match want {
            Want::Take(input) => self.inputs[input as usize].take_got(got),
            Want::Put(output, _) => {
                self.outputs[output as usize].put_done();
                Some(0)
            }
            Want::Credit(output) => {
                if self.outputs[output as usize].credit_got(got) {
                    Some(0)
                } else {
                    None
                }
            }
            Want::Access(_, _) | Want::Await(_, _) => want.outcome(got),
        }
    }

    /// Tries a want over a row: performs its operation, if it has one, and takes the word found.
    /// Answers what the agent learns; None exactly where there is no operation or the word doesn't
    /// grant the want, and then nothing changes.
    #[inline(always)]
    pub fn attempt<B: Allocator>(&mut self, want: Want, row: &mut Vec<u64, B>) -> Option<u64>
        requires port { HasPort self.old want }
        requires room { IfSome (want_op self.old want) (λ o. word_of o < vec_len row.old) }
        ensures learned { result ≡ tried self.old row.old.items want }
        ensures after { self.new
            ≡ (if is_some (tried self.old row.old.items want) then ports_after self.old want
            else self.old) }
        ensures row { row.new.items ≡ performed_by row.old.items (want_op self.old want) }
    {
        match want {
            Want::Take(input) => self.inputs[input as usize].take(row),
            Want::Put(output, flit) => {
                if self.outputs[output as usize].put(flit, row) {
                    Some(0)
                } else {
                    None
                }
            }
            Want::Credit(output) => {
                if self.outputs[output as usize].credit(row) {
                    Some(0)
                } else {
                    None
                }
            }
            Want::Access(word, op) => {
                let found = perform(WordOp::at(self.words + word as usize, op), row);
                want.outcome(found)
            }
            Want::Await(word, _) => want.outcome(row[self.words + word as usize]),
        }
    }
}
