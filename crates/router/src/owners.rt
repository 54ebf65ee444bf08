//! Which input owns which output.

ghost use Rattle.std.specs.Prelude.{◌≡◌, ◌<◌, ◌≤◌, ◌^◌, ℕ, if◌then◌else◌, length, replicate};
ghost use Rattle.std.specs.Prelude.{slice_index_or, slice_set};
ghost use Rattle.std.specs.Prelude.{Some, None, false, IfSome};
ghost use Rattle.router.specs.Table.{is_among, is_output};
ghost use Rattle.router.specs.Owned.{MayPass};

use crate::ports::{ByPort, filled};
use std::marker::Model;

/// By input or output the number of an output or input, or none.
#[derive(Drop)]
struct PortNumbers {
    numbers: ByPort<Option<u8>>,
}

impl Model for PortNumbers {
    ghost use Rattle.std.specs.Prelude.{ℕ, List, Option};

    ghost Value = { List (Option ℕ) };

    ghost view = { λ a. a.numbers.items };
}

impl PortNumbers {
    /// So many, all none.
    fn new(count: usize) -> PortNumbers
        requires { count ≤ 26 }
        ensures { result ≡ replicate count None }
    {
        PortNumbers {
            numbers: filled(None, count),
        }
    }

    /// The number at a port.
    #[inline(always)]
    fn of(&self, port: u32) -> Option<u32>
        requires { port < length self.now }
        ensures { result ≡ slice_index_or self.now port None }
    {
        match self.numbers[port as usize] {
            Some(number) => Some(u32::from(number)),
            None => None,
        }
    }

    /// Writes a number at a port.
    #[inline(always)]
    fn set(&mut self, port: u32, number: u32)
        requires port { port < length self.old }
        requires number { number < 26 }
        ensures { self.new ≡ slice_set self.old port (Some number) }
    {
        self.numbers[port as usize] = Some(number as u8);
    }

    /// Takes the number at a port away.
    #[inline(always)]
    fn clear(&mut self, port: u32)
        requires { port < length self.old }
        ensures { self.new ≡ slice_set self.old port None }
    {
        self.numbers[port as usize] = None;
    }
}

/// The output that each input owns: no two own the same one.
#[derive(Drop)]
pub(crate) struct Owners {
    /// By input the output that it owns.
    owned: PortNumbers,
    /// By output the input that owns it, so that no search is needed.
    owner: PortNumbers,
}

impl Model for Owners {
    ghost use Rattle.std.specs.Prelude.{ℕ, List, Option};

    ghost Value = { List (Option ℕ) };

    ghost use Rattle.router.specs.Owned.{AreFewInverse};

    ghost view = { λ a. a.owned };

    ghost invariant = { λ a. AreFewInverse a.owned a.owner };
}

impl Owners {
    /// Of as many inputs and outputs, none of which is owned.
    pub(crate) fn new(count: usize) -> Owners
        requires { count ≤ 26 }
        ensures { result ≡ replicate count None }
    {
        Owners {
            owned: PortNumbers::new(count),
            owner: PortNumbers::new(count),
        }
    }

    /// The output that an input owns.
    #[inline(always)]
    pub(crate) fn output_of(&self, input: u32) -> Option<u32>
        requires { input < length self.now }
        ensures value { result ≡ slice_index_or self.now input None }
        ensures within { IfSome result (λ output. output < length self.now) }
    {
        self.owned.of(input)
    }

    /// Whether some input owns an output.
    #[inline(always)]
    pub(crate) fn is_owned(&self, output: u32) -> bool
        requires { output < length self.now }
        ensures { result ≡ is_among self.now output }
    {
        self.owner.of(output).is_some()
    }

    /// An input gives its output back, if it owns one.
    #[inline(always)]
    pub(crate) fn free(&mut self, input: u32)
        requires { input < length self.old }
        ensures { self.new ≡ slice_set self.old input None }
    {
        if let Some(output) = self.owned.of(input) {
            self.owner.clear(output);
            self.owned.clear(input);
        }
    }

    /// An input becomes the owner of an output that no input owns.
    #[inline(always)]
    pub(crate) fn give(&mut self, input: u32, output: u32)
        requires input { input < length self.old }
        requires output { output < length self.old }
        requires free { is_among self.old output ≡ false }
        ensures { self.new ≡ slice_set self.old input (Some output) }
    {
        self.free(input);
        self.owner.set(output, input);
        self.owned.set(input, output);
    }

    /// Whether an input owns an output.
    #[inline(always)]
    fn owns(&self, input: u32, output: u32) -> bool
        requires { input < length self.now }
        ensures { result ≡ is_output (slice_index_or self.now input None) output }
    {
        match self.owned.of(input) {
            Some(owned) => owned == output,
            None => false,
        }
    }

    /// A flit of an input goes to an output, which this input owns or none does. Afterwards it owns
    /// the output, or after a tail none.
    #[inline(always)]
    pub(crate) fn pass(&mut self, input: u32, output: u32, tail: bool)
        requires input { input < length self.old }
        requires output { output < length self.old }
        requires open { MayPass self.old input output }
        ensures { self.new ≡ slice_set self.old input (if tail then None else Some output) }
    {
        if tail {
            self.free(input);
        } else if !self.owns(input, output) {
            self.give(input, output);
        }
    }
}
