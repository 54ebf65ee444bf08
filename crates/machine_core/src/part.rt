//! The parts of a tile's attempts in a round, and marks of those that are enabled when it begins.

ghost use Rattle.std.specs.Prelude.{◌≡◌, ◌<◌, ℕ};
ghost use Rattle.machine_core.specs.Marked.{choice_in, IsClear};
ghost use Rattle.machine_core.specs.declared.part.Part.TheVariants.{Processor, Bank};

use machine_parts::PortSet;
use torus::Choice;

/// A part of a tile's attempts: those of its processor, the takes, the puts and the credits of its router,
/// and those of its bank.
#[derive(Clone, Copy)]
pub enum Part {
    Processor,
    Takes,
    Puts,
    Credits,
    Bank,
}

/// The choice of a part by its number.
#[inline(always)]
pub(crate) fn choice_in(part: Part, number: u32) -> Choice
    ensures { result ≡ choice_in part number }
{
    match part {
        Part::Processor => choice_of_processor(number),
        Part::Takes => Choice::TakeFrom(number),
        Part::Puts => Choice::Put(number),
        Part::Credits => Choice::CreditOf(number),
        Part::Bank => choice_of_bank(number),
    }
}

/// The choice of a processor by its number in the order of a round.
#[inline(always)]
fn choice_of_processor(number: u32) -> Choice
    ensures { result ≡ choice_in Processor number }
{
    match number {
        0 => Choice::Send,
        1 => Choice::Take,
        2 => Choice::Credit,
        3 => Choice::Done,
        _ => Choice::Look,
    }
}

/// The choice of a bank by its number in the order of a round.
#[inline(always)]
fn choice_of_bank(number: u32) -> Choice
    ensures { result ≡ choice_in Bank number }
{
    match number {
        0 => Choice::Take,
        1 => Choice::Serve,
        2 => Choice::Send,
        _ => Choice::Credit,
    }
}

/// Of the attempts of all tiles which are marked, by part.
#[derive(Drop)]
pub struct Marks {
    pub(crate) processors: PortSet,
    pub(crate) takes: PortSet,
    pub(crate) puts: PortSet,
    pub(crate) credits: PortSet,
    pub(crate) banks: PortSet,
}

impl Marks {
    /// Nothing is marked.
    pub(crate) fn none() -> Marks
        ensures { (t : ℕ) → t < 64 → IsClear result t }
    {
        Marks {
            processors: PortSet::none(),
            takes: PortSet::none(),
            puts: PortSet::none(),
            credits: PortSet::none(),
            banks: PortSet::none(),
        }
    }
}
