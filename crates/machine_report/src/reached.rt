//! What a report is made of: a machine, or whatever else is reached by steps from a load.

ghost use Rattle.std.specs.Prelude.{◌≡◌, length, slice_get};
ghost use Rattle.std.specs.Option.{option_copied};
ghost use Rattle.core_laws.specs.Machine.{Core, all_finished, shown};
ghost use Rattle.core_laws.specs.Reported.{ReportsWell};

use core_laws::machine_laws::reached_machines_report_well;
use machine_core::{Answer, Entry, Machine};
use std::alloc::Allocator;
use torus::Torus;

/// What some steps lead to from an accepted load.
pub trait Reached {
    /// The machine that stands there.
    ghost core: { Self → Core };

    /// The torus that was loaded.
    fn torus(&self) -> &Torus
        ensures { result.now ≡ (core self.now).shape };

    /// The number of words.
    fn words(&self) -> u32
        ensures { result ≡ length (core self.now).opening };

    /// The word that an address held at first; `None` exactly where there is no such address.
    fn opening(&self, address: u32) -> Option<u64>
        ensures { result ≡ slice_get (core self.now).opening address };

    /// A processor's answers; `None` exactly where there is no such processor.
    fn answers(&self, processor: u32) -> Option<&[Answer]>
        ensures { option_copied result ≡ slice_get (shown (core self.now)).answers processor };

    /// A bank's entries; `None` exactly where there is no such bank.
    fn bank(&self, bank: u32) -> Option<&[Entry]>
        ensures { option_copied result ≡ slice_get (shown (core self.now)).entries bank };

    /// The word of an address; `None` exactly where there is no such address.
    fn word(&self, address: u32) -> Option<u64>
        ensures { result ≡ slice_get (shown (core self.now)).memory address };

    /// Whether every script is finished.
    fn finished(&self) -> bool
        ensures { result ≡ all_finished (core self.now).state };

    /// What is shown goes with the rows of the one order.
    fn reports_well(&self)
        ensures { ReportsWell (core self.now) };
}

impl<B: Allocator> Reached for Machine<B> {
    ghost core = { λ machine. machine };

    fn torus(&self) -> &Torus {
        Machine::torus(self)
    }

    fn words(&self) -> u32 {
        Machine::words(self)
    }

    fn opening(&self, address: u32) -> Option<u64> {
        Machine::opening(self, address)
    }

    fn answers(&self, processor: u32) -> Option<&[Answer]> {
        Machine::answers(self, processor)
    }

    fn bank(&self, bank: u32) -> Option<&[Entry]> {
        Machine::bank(self, bank)
    }

    fn word(&self, address: u32) -> Option<u64> {
        Machine::word(self, address)
    }

    fn finished(&self) -> bool {
        Machine::finished(self)
    }

    fn reports_well(&self) {
        self.reached();
        reached_machines_report_well();
    }
}
