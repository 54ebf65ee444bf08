// The key of the shared row is made: a value that tells proofs what is loaded, and how it is dealt.
ghost use Rattle.std.specs.Prelude.{◌≡◌, IfOk};

use crate::view::{Dealing, Picked};
use atomic_table::{Play, Table, TableRule};
use std::alloc::{AllocError, Allocator};
use std::marker::{Brand, PhantomData};

// Of the one-word table nothing is asked.
struct Anything;

impl TableRule<(), Picked, ()> for Anything {
    ghost use Rattle.fabric.specs.Key.{no_opening};

    ghost holds = { λ key state. Unit {0} };

    ghost first = { λ key. no_opening };
}

/// What is loaded, and how its tiles are dealt. Each call picks it.
pub(crate) trait Naming {
    ghost use Rattle.fabric.specs.Key.{Opening};

    ghost opening: { Opening };
}

impl Naming for Brand {
    ghost use Rattle.fabric.specs.Key.{no_opening};

    ghost opening = { no_opening };
}

struct Pick<B> {
    of: PhantomData<B>,
}

impl<B: Naming> Play<(), Picked> for Pick<B> {
    ghost use Rattle.fabric.specs.Naming.{picked};

    ghost then = { picked B.opening };
}

// The key: the seat at a table of one word, after a look that tells it what was picked. The table is
// given back.
pub(crate) fn named<A: Allocator, B: Naming>(alloc: A) -> Result<Dealing, AllocError>
    ensures { IfOk result (λ dealing. dealing ≡ B.opening) }
{
    let (table, mut picked) = Table::<(), Picked, (), Anything, A>::of_words(alloc, &[0], &())?;
    table.shared.load::<Pick<B>>(&mut picked, 0);
    Ok(Dealing { picked })
}
