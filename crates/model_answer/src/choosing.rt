//! The models whose cycle and whose order are printed.

ghost use Rattle.std.specs.Prelude.{◌≡◌, ◌+◌, OnOk};
ghost use Rattle.memory_models.specs.Trace.{IsMemoryTrace};
ghost use Rattle.model_answer.specs.Answer.{AddsPart, IsAskedPart, IsCyclePart, is_no, is_yes, obeys_of};
ghost use Rattle.model_answer.specs.Answer.{IsOrderPart, strongest_told, weakest_told};
ghost use Rattle.model_answer.specs.Judged.{AreVerdicts};
ghost use Rattle.model_answer.specs.Weak.{weak_answer_of};

use crate::cycle::put_verdict_of as put_cycle_of;
use crate::judged::{Obeys, Verdicts};
use crate::model::{AskedModel, MemoryModel};
use crate::order::{put_verdict_of as put_order_of, strongest_obeyed};
use crate::text::is_told;
use crate::weak::{Weak, WeakAnswer};
use crate::weak_cycle::{put_weak_cycle, put_weak_order};
use model_text::LogTrace;
use std::alloc::{AllocError, Allocator};

/// Whether there is a no.
fn is_no(obeyed: Option<bool>) -> bool
    ensures { result ≡ is_no obeyed }
{
    match obeyed {
        None => false,
        Some(yes) => !yes,
    }
}

/// Whether there is a yes.
fn is_yes(obeyed: Option<bool>) -> bool
    ensures { result ≡ is_yes obeyed }
{
    match obeyed {
        None => false,
        Some(yes) => yes,
    }
}

/// The weakest model of which a no is told. RISC-V's stands behind `fenced`.
pub fn weakest_told(obeys: Obeys, weak: WeakAnswer) -> Option<AskedModel>
    ensures { result ≡ weakest_told obeys weak }
{
    if !obeys.coherent {
        return Some(AskedModel::Rules(MemoryModel::Coherent));
    }
    if !obeys.fenced && is_told(weak.doubts, obeys, MemoryModel::Fenced) {
        return Some(AskedModel::Rules(MemoryModel::Fenced));
    }
    if is_no(weak.obeyed) {
        return Some(AskedModel::Rvwmo);
    }
    if !obeys.pso && is_told(weak.doubts, obeys, MemoryModel::Pso) {
        return Some(AskedModel::Rules(MemoryModel::Pso));
    }
    if !obeys.tso && is_told(weak.doubts, obeys, MemoryModel::Tso) {
        return Some(AskedModel::Rules(MemoryModel::Tso));
    }
    if !obeys.sc {
        return Some(AskedModel::Rules(MemoryModel::Sc));
    }
    None
}

/// The strongest model of which a yes is told: RISC-V's where the models by rules leave out what forbids.
fn strongest_told(fences: bool, obeys: Obeys, weak: WeakAnswer) -> Option<AskedModel>
    ensures { result ≡ strongest_told fences obeys weak }
{
    let more = weak.doubts.more;
    if fences && more && !obeys.sc && is_yes(weak.obeyed) {
        return Some(AskedModel::Rvwmo);
    }
    match strongest_obeyed(!more, obeys) {
        None => None,
        Some(model) => Some(AskedModel::Rules(model)),
    }
}

/// Adds the cycle of the weakest model of which a no is told; nothing where there is none.
///
/// Errors: out of memory.
pub(crate) fn put_failing<A: Allocator + Copy>(
    alloc: A,
    text: &mut Vec<u8, A>,
    trace: &LogTrace<A>,
    verdicts: &Verdicts<A>,
    weak: &Weak<A>,
) -> Result<(), AllocError>
    requires trace { IsMemoryTrace (trace.now.openings + 1) trace.now.operations.items
        trace.now.writes.items }
    requires verdicts { AreVerdicts trace.now.operations.items trace.now.writes.items
        verdicts.now }
    ensures { OnOk result (AddsPart text.old.items text.new.items
        (IsCyclePart trace.now verdicts.now weak.now
        (weakest_told (obeys_of verdicts.now) (weak_answer_of weak.now)))) }
{
    match weakest_told(verdicts.obeys(), weak.answer()) {
        None => Ok(()),
        Some(AskedModel::Rules(model)) => {
            put_cycle_of(alloc, text, trace, model, verdicts.by(model))?;
            Ok(())
        }
        Some(AskedModel::Rvwmo) => {
            put_weak_cycle(text, trace, &weak.verdict)?;
            Ok(())
        }
    }
}

/// Adds the order of the strongest model of which a yes is told; nothing where there is none.
///
/// Errors: out of memory.
fn put_strongest<A: Allocator + Copy>(
    alloc: A,
    text: &mut Vec<u8, A>,
    trace: &LogTrace<A>,
    verdicts: &Verdicts<A>,
    weak: &Weak<A>,
    fences: bool,
) -> Result<(), AllocError>
    ensures { OnOk result (AddsPart text.old.items text.new.items
        (IsOrderPart trace.now verdicts.now weak.now
        (strongest_told fences (obeys_of verdicts.now) (weak_answer_of weak.now)))) }
{
    match strongest_told(fences, verdicts.obeys(), weak.answer()) {
        None => Ok(()),
        Some(AskedModel::Rules(model)) => {
            put_order_of(alloc, text, trace, model, verdicts.by(model))?;
            Ok(())
        }
        Some(AskedModel::Rvwmo) => {
            put_weak_order(alloc, text, trace, &weak.verdict)?;
            Ok(())
        }
    }
}

/// Adds the order of the strongest model of which a yes is told, where it is asked for.
///
/// Errors: out of memory.
pub(crate) fn put_asked<A: Allocator + Copy>(
    alloc: A,
    text: &mut Vec<u8, A>,
    trace: &LogTrace<A>,
    verdicts: &Verdicts<A>,
    weak: &Weak<A>,
    fences: bool,
    order: bool,
) -> Result<(), AllocError>
    ensures { OnOk result (AddsPart text.old.items text.new.items
        (IsAskedPart trace.now verdicts.now weak.now fences order)) }
{
    if !order {
        return Ok(());
    }
    put_strongest(alloc, text, trace, verdicts, weak, fences)?;
    Ok(())
}
