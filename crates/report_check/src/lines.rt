//! One more line: the first line, the shape, the opening and last words, and the end.

ghost use Rattle.std.specs.Prelude.{◌≡◌, ℕ, IfOk};
ghost use Rattle.torus.specs.Shape.{product};
ghost use Rattle.report_lines.specs.Line.{radix_list};
ghost use Rattle.report_check.specs.Seen.{Seen};
ghost use Rattle.report_check.specs.Good.{AreRadices};
ghost use Rattle.report_check.specs.Shows.{KeepsSeen, Checks};

use crate::checker::Checker;
use crate::looks::write_at;
use crate::making::shaped;
use crate::rule::Rule;
use report_lines::{Radices, ReportLine};
use std::alloc::{AllocError, Allocator};

impl<A: Allocator> Checker<A> {
    /// Takes the first line.
    pub fn take_header(&mut self, version: u32) -> Option<Rule>
        ensures { (s : Seen) → KeepsSeen s self.old
            → Checks s (ReportLine.Header version) result self.new }
    {
        if let Some(rule) = self.header_broken(version) {
            return Some(rule);
        }
        self.section = 1;
        self.version = version;
        None
    }

    /// Takes an `init` line.
    pub fn take_init(&mut self, address: u32, value: u64) -> Option<Rule>
        ensures { (s : Seen) → KeepsSeen s self.old
            → Checks s (ReportLine.Init address value) result self.new }
    {
        if let Some(rule) = self.init_broken(address, value) {
            return Some(rule);
        }
        self.section = 3;
        self.next_init = u64::from(address) + 1;
        write_at(&mut self.memory, address, value);
        None
    }

    /// Takes a `word` line.
    pub fn take_word(&mut self, address: u32, value: u64) -> Option<Rule>
        ensures { (s : Seen) → KeepsSeen s self.old
            → Checks s (ReportLine.Word address value) result self.new }
    {
        if let Some(rule) = self.told_broken(address, value) {
            return Some(rule);
        }
        self.section = 6;
        self.next_word = u64::from(address) + 1;
        None
    }

    /// Takes the last line.
    pub fn take_end(&mut self, complete: bool) -> Option<Rule>
        ensures { (s : Seen) → KeepsSeen s self.old
            → Checks s (ReportLine.End complete) result self.new }
    {
        if let Some(rule) = self.end_broken(complete) {
            return Some(rule);
        }
        self.section = 8;
        None
    }
}

impl<A: Allocator + Copy> Checker<A> {
    /// Takes the shape, and makes room for the words and the banks.
    pub fn take_shape(
        &mut self,
        alloc: A,
        radices: Radices,
        words: u32,
    ) -> Result<Option<Rule>, AllocError>
        ensures { IfOk result
            (λ rule. (s : Seen) → KeepsSeen s self.old
            → Checks s (ReportLine.Shape radices words) rule self.new) }
    {
        if let Some(rule) = self.shape_broken(radices, words) {
            return Ok(Some(rule));
        }
        *self = shaped(alloc, self.version, tiles_of(radices), words)?;
        Ok(None)
    }
}

/// The number of tiles.
fn tiles_of(radices: Radices) -> u32
    requires { AreRadices (radix_list radices) }
    ensures { result ≡ product (radix_list radices) }
{
    match radices {
        Radices::One(k) => k,
        Radices::Two(j, k) => j * k,
        Radices::Three(j, k, l) => j * k * l,
    }
}
