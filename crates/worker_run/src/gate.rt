ghost use Rattle.std.specs.Prelude.{◌≡◌, false};

use torus::Step;

/// Lets workers begin and go on, or not.
pub trait Gate: Sync {
    ghost use Rattle.std.specs.Prelude.{ℕ};
    ghost use Rattle.torus.specs.declared.step.Step.{Step};

    // Which workers it may hold back, and before which step it may stop one: any, unless an `impl` says less.
    ghost holds: { Self → ℕ → Type 0 } = { λ gate worker. Unit {0} };

    ghost stops: { Self → ℕ → Step → Type 0 } = { λ gate worker step. Unit {0} };

    /// Whether a worker may begin. It asks once a run, before all else.
    fn begin(&self, worker: usize) -> bool
        ensures { result ≡ false → holds self.now worker };

    /// Whether a worker may attempt a step. It asks ahead of each attempt.
    fn before(&self, worker: usize, step: Step) -> bool
        ensures { result ≡ false → stops self.now worker step };
}

/// Lets every worker begin and go on.
pub struct Open;

impl Gate for Open {
    ghost holds = { λ gate worker. ⊥ };

    ghost stops = { λ gate worker step. ⊥ };

    fn begin(&self, _worker: usize) -> bool {
        true
    }

    fn before(&self, _worker: usize, _step: Step) -> bool {
        true
    }
}
