//! The order of a model by rules that a trace obeys.

ghost use Rattle.std.specs.Prelude.{◌≡◌, ◌++◌, OnOk};
ghost use Rattle.model_answer.specs.Answer.{AddsPart, IsOrderOfLog, strongest_obeyed};
ghost use Rattle.model_answer.specs.Answer.{order_heading};
ghost use Rattle.model_answer.specs.Texts.{turn_line, turns_text};

use crate::judged::Obeys;
use crate::model::MemoryModel;
use crate::text::{put, put_step};
use memory_models::Verdict;
use model_text::finals::is_final;
use model_text::placing::places_in;
use model_text::trace::logged_at;
use model_text::{LogTrace, Logged};
use std::alloc::{AllocError, Allocator};

/// The strongest model that a trace obeys. What a fence may forbid counts only where the log has its
/// fences.
pub fn strongest_obeyed(fences: bool, obeys: Obeys) -> Option<MemoryModel>
    ensures { result ≡ strongest_obeyed fences obeys }
{
    if obeys.sc {
        return Some(MemoryModel::Sc);
    }
    if obeys.tso && fences {
        return Some(MemoryModel::Tso);
    }
    if obeys.pso && fences {
        return Some(MemoryModel::Pso);
    }
    if obeys.fenced && fences {
        return Some(MemoryModel::Fenced);
    }
    if obeys.coherent {
        return Some(MemoryModel::Coherent);
    }
    None
}

/// Adds the line of an operation; none of an opening store or a final word.
fn put_order_line<A: Allocator>(
    text: &mut Vec<u8, A>,
    openings: usize,
    steps: &[Logged],
    x: usize,
) -> Result<(), AllocError>
    ensures { OnOk result (text.new.items ≡ text.old.items
        ++ turn_line openings steps.now x) }
{
    let step = logged_at(steps, x);
    if x < openings || is_final(step) {
        return Ok(());
    }
    put_step(text, step)
}

/// Adds the operations by their turns, behind so many opening stores.
///
/// Errors: out of memory.
pub fn put_order<A: Allocator + Copy>(
    alloc: A,
    text: &mut Vec<u8, A>,
    openings: usize,
    steps: &[Logged],
    turns: &[usize],
) -> Result<(), AllocError>
    ensures { OnOk result (text.new.items ≡ text.old.items
        ++ turns_text openings steps.now turns.now) }
{
    let order = places_in(alloc, turns, turns.len())?;
    for k in 0..order.len() {
        put_order_line(text, openings, steps, order[k])?;
    }
    Ok(())
}

/// Adds the line before an order.
///
/// Errors: out of memory.
pub fn put_heading<A: Allocator>(
    text: &mut Vec<u8, A>,
    model: MemoryModel,
) -> Result<(), AllocError>
    ensures { OnOk result (text.new.items ≡ text.old.items ++ order_heading model) }
{
    put(text, b"an order of ")?;
    put(text, model.word().as_bytes())?;
    put(text, b":\n")?;
    Ok(())
}

/// Adds the order of a model, if its verdict is one.
pub(crate) fn put_verdict_of<A: Allocator + Copy>(
    alloc: A,
    text: &mut Vec<u8, A>,
    trace: &LogTrace<A>,
    model: MemoryModel,
    verdict: &Verdict<A>,
) -> Result<(), AllocError>
    ensures { OnOk result (AddsPart text.old.items text.new.items
        (IsOrderOfLog trace.now model verdict.now)) }
{
    match verdict {
        Verdict::Cycle(_) => Ok(()),
        Verdict::Ordered(turns) => {
            put_heading(text, model)?;
            put_order(alloc, text, trace.openings, &trace.steps, turns)?;
            Ok(())
        }
    }
}
