//! Who watches workers.

/// Watches workers. Whatever it does, what they make of their seats is the same.
pub trait Watch: Sync {
    ghost use Rattle.std.specs.Prelude.{ℕ, List, [], ◌∷◌, ◌++◌};
    ghost use Rattle.worker_run.specs.Calls.{Call, Passed, Ended, HearsOfWorkers};

    /// What it keeps of one worker during a run.
    type Kept;

    // Which lists of calls may be all that it has heard of a worker so far, in order, by what it keeps of
    // that one: any, unless an `impl` says more.
    ghost heard: { Self → ℕ → Self.Kept → List Call → Type 0 } = { λ watch worker kept calls. Unit {0} };

    // Which lists of calls may be all that it hears of a worker in a run.
    ghost over: { Self → ℕ → List Call → Type 0 } = { λ watch worker calls. Unit {0} };

    /// A worker comes. It is told once a run, before all else.
    fn begun(&self, worker: usize) -> Self::Kept
        ensures { heard self.now worker result [] };

    /// A pass over a worker's tiles is over, with so many turns made in all: an attempt of each choice of
    /// their agents. It is told after each pass, so it is to cost little.
    fn passed(&self, worker: usize, kept: &mut Self::Kept, turns: u64)
        ensures { HearsOfWorkers (heard self.now worker kept.old) (heard self.now worker kept.new)
            (Passed turns ∷ []) };

    /// A worker has ended, with so many turns made in all.
    fn ended(&self, worker: usize, kept: Self::Kept, turns: u64)
        ensures { HearsOfWorkers (heard self.now worker kept) (over self.now worker)
            (Ended turns ∷ []) };
}

/// Watches nothing.
pub struct Unwatched;

impl Watch for Unwatched {
    type Kept = ();

    fn begun(&self, _worker: usize) {}

    fn passed(&self, _worker: usize, _kept: &mut (), _turns: u64) {}

    fn ended(&self, _worker: usize, _kept: (), _turns: u64) {}
}
