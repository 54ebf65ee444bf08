//! The shape of a report.

ghost use Rattle.std.specs.Prelude.{◌≡◌, ◌≤◌, Ok};
ghost use Rattle.trace_answer.specs.Fitting.{shape_for};

use torus::{Fault, Torus};

/// The torus of the report of so many processors.
pub(crate) fn torus_for(processors: u32) -> Result<Torus, Fault>
    ensures { result ≡ Ok (shape_for processors) }
{
    if processors <= 2 {
        return Torus::new(2, 1);
    }
    if processors <= 4 {
        return Torus::new(4, 1);
    }
    if processors <= 8 {
        return Torus::new(8, 1);
    }
    if processors <= 16 {
        return Torus::new(4, 2);
    }
    if processors <= 32 {
        return Torus::mixed(&[4, 8], &[3, 7]);
    }
    Torus::new(8, 2)
}
