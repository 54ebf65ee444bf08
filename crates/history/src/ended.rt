//! The end of a run of threads, as what is reached.

ghost use Rattle.core_laws.specs.Machine.{core_after_load};

use core_laws::machine_laws::steps_lead_to_a_machine;
use machine_report::{Answer, Entry, Reached};
use std::alloc::Allocator;
use torus::Torus;
use worker_run::Final;

/// A closed fabric, as what its run reached.
#[derive(Clone, Copy)]
pub struct Ended<'a, B: Allocator> {
    pub last: &'a Final<B>,
}

impl<B: Allocator> Reached for Ended<'_, B> {
    ghost core = { λ ended. core_after_load ended.last.now.load ended.last.now.run };

    fn torus(&self) -> &Torus {
        self.last.torus()
    }

    fn words(&self) -> u32 {
        self.last.words()
    }

    fn opening(&self, address: u32) -> Option<u64> {
        self.last.opening(address)
    }

    fn answers(&self, processor: u32) -> Option<&[Answer]> {
        self.last.answers(processor)
    }

    fn bank(&self, bank: u32) -> Option<&[Entry]> {
        self.last.bank(bank)
    }

    fn word(&self, address: u32) -> Option<u64> {
        self.last.word(address)
    }

    fn finished(&self) -> bool {
        self.last.finished()
    }

    fn reports_well(&self) {
        self.last.reached();
        steps_lead_to_a_machine();
    }
}
