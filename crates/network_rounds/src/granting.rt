//! The attempts of a round, as an arbiter chooses them among the choices that are enabled.

ghost use Rattle.std.specs.Prelude.{◌≡◌, ◌+◌, ◌<◌, ◌≤◌, ◌++◌, length, take, IfOk, None};
ghost use Rattle.std.specs.Prelude.{slice_index_or, option_to_list};
ghost use Rattle.std.specs.List.{flat_map};
ghost use Rattle.network_machine.specs.Machine.{NetworkMachineSpec};
ghost use Rattle.network_rounds.specs.Arbiters.{plain, head_attempt, attempt_by, attempts_by};
ghost use Rattle.network_rounds.specs.Arbiters.{no_grants};
ghost use Rattle.network_rounds.specs.Arbiters.{AreGrants, granted_to};

use crate::arbiter::{Arbiter, Attempt, Grants, note_firsts, output_asked};
use network_machine::{Machine, Move};
use std::alloc::{AllocError, Allocator};

/// A choice that nothing is granted to.
fn plain(of: Move) -> Attempt
    ensures { result ≡ plain of }
{
    Attempt { of, output: None }
}

/// A choice that asks for a channel, if it comes first.
fn head_attempt(firsts: &[Option<usize>], of: Move, y: usize) -> Option<Attempt>
    ensures { result ≡ head_attempt (λ z. slice_index_or firsts.now z None) of (Some y) }
{
    if y >= firsts.len() {
        return None;
    }
    match firsts[y] {
        None => None,
        Some(x) => {
            if x == of.channel() {
                Some(Attempt {
                    of,
                    output: Some(y),
                })
            } else {
                None
            }
        }
    }
}

/// A choice as an arbiter has it attempted, if it does.
fn attempt_by<A: Allocator>(
    machine: &Machine<A>,
    by: Arbiter,
    firsts: &[Option<usize>],
    of: Move,
) -> Option<Attempt>
    ensures { result ≡ attempt_by by machine.now (λ z. slice_index_or firsts.now z None) of }
{
    match by {
        Arbiter::Turn => Some(plain(of)),
        Arbiter::Rotating => match output_asked(machine, of) {
            None => Some(plain(of)),
            Some(y) => head_attempt(firsts, of, y),
        },
    }
}

/// Writes an attempt behind the first `count` of a list, if there is one, and answers how many there
/// are then.
fn put_attempt(attempts: &mut [Attempt], count: usize, of: Option<Attempt>) -> usize
    requires { count < length attempts.old }
    ensures few { result ≤ count + 1 }
    ensures adds { take result attempts.new ≡ take count attempts.old ++ option_to_list of }
{
    match of {
        None => count,
        Some(added) => {
            attempts[count] = added;
            count + 1
        }
    }
}

/// Writes those of some choices that an arbiter has attempted, and answers how many these are.
fn write_attempts<A: Allocator>(
    machine: &Machine<A>,
    by: Arbiter,
    firsts: &[Option<usize>],
    moves: &[Move],
    attempts: &mut [Attempt],
) -> usize
    requires { length moves.now ≤ length attempts.old }
    ensures few { result ≤ length moves.now }
    ensures attempts { take result attempts.new ≡ flat_map (λ of. option_to_list
        (attempt_by by machine.now (λ z. slice_index_or firsts.now z None) of)) moves.now }
{
    let mut count = 0;
    for k in 0..moves.len() {
        count = put_attempt(attempts, count, attempt_by(machine, by, firsts, moves[k]));
    }
    count
}

impl<A: Allocator + Copy> Grants<A> {
    /// Nothing is granted so far, of so many channels.
    ///
    /// Errors: out of memory.
    pub fn none(alloc: A, channels: usize) -> Result<Grants<A>, AllocError>
        ensures lasts { IfOk result (λ g. g.lasts.items ≡ no_grants channels) }
        ensures are { IfOk result (λ g. (m : NetworkMachineSpec) → length m.channels ≡ channels
            → AreGrants m g) }
    {
        Ok(Grants {
            lasts: vec![in alloc; channels; channels]?,
            firsts: vec![in alloc; None; channels]?,
        })
    }
}

impl<A: Allocator> Grants<A> {
    /// Writes those of the choices that are enabled when a round begins which an arbiter has attempted,
    /// and answers how many these are.
    pub(crate) fn choose<B: Allocator>(
        &mut self,
        machine: &Machine<B>,
        by: Arbiter,
        enabled: &[Move],
        attempts: &mut [Attempt],
    ) -> usize
        requires grants { AreGrants machine.now self.old }
        requires room { length enabled.now ≤ length attempts.old }
        ensures few { result ≤ length enabled.now }
        ensures lasts { self.new.lasts ≡ self.old.lasts }
        ensures grants { AreGrants machine.now self.new }
        ensures attempts { take result attempts.new
            ≡ attempts_by by machine.now self.old.lasts.items enabled.now }
    {
        let lasts = self.lasts.as_slice();
        let firsts = self.firsts.as_mut_slice();
        note_firsts(machine, lasts, firsts, enabled);
        write_attempts(machine, by, firsts, enabled, attempts)
    }

    /// Notes the input that an output is granted to by an attempt that is made, if one is.
    pub(crate) fn note(&mut self, attempt: Attempt)
        ensures lasts { self.new.lasts.items ≡ granted_to self.old.lasts.items attempt }
        ensures firsts { self.new.firsts ≡ self.old.firsts }
    {
        if let Some(y) = attempt.output {
            if y < self.lasts.len() {
                self.lasts[y] = attempt.of.channel();
            }
        }
    }
}
