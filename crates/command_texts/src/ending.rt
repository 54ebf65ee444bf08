//! Who is shown the end of a run.

use crate::in_rounds::Silent;
use machine_report::Reached;

/// Is shown what a run has reached, before its report is written. Whatever it does, the run and its
/// report are the same.
pub trait Ending {
    ghost use Rattle.core_laws.specs.Machine.{Core};

    // What is true once it has been shown this machine: nothing, unless an `impl` says more.
    ghost saw: { Self → Core → Type 0 } = { λ ending end. Unit {0} };

    /// The run has ended, and reached this.
    fn shown<S: Reached>(&mut self, reached: &S)
        ensures { saw self.new (S.core reached.now) };
}

impl Ending for Silent {
    fn shown<S: Reached>(&mut self, _reached: &S) {}
}
