//! The text of an answer.

ghost use Rattle.std.specs.Prelude.{◌≡◌, ◌++◌, OnOk, decimal, codes};
ghost use Rattle.model_answer.specs.Texts.{model_line, obeys_text, told_line, operation_text, values_text};
ghost use Rattle.model_answer.specs.Texts.{is_certain, is_told, is_rvwmo_told, rvwmo_line, rvwmo_text, untold_text};
ghost use Rattle.packet.specs.Names.{values_listed};
ghost use Rattle.model_answer.specs.Texts.{step_text, fence_or_operation};

use crate::judged::Obeys;
use crate::model::MemoryModel;
use crate::weak::{Doubts, WeakAnswer};
use itoa::Buffer;
use model_text::Logged;
use packet::{Operation, Values};
use std::alloc::{AllocError, Allocator};

/// Adds bytes.
pub fn put<A: Allocator>(text: &mut Vec<u8, A>, bytes: &[u8]) -> Result<(), AllocError>
    ensures { OnOk result (text.new.items ≡ text.old.items ++ bytes.now) }
{
    text.extend_from_slice(bytes)?;
    Ok(())
}

/// Adds a number.
pub fn put_number<A: Allocator>(text: &mut Vec<u8, A>, n: u64) -> Result<(), AllocError>
    ensures { OnOk result (text.new.items ≡ text.old.items ++ decimal n) }
{
    let mut buffer = Buffer::new();
    put(text, buffer.format(n).as_bytes())
}

/// Adds a space and a number.
fn put_value<A: Allocator>(text: &mut Vec<u8, A>, n: u64) -> Result<(), AllocError>
    ensures { OnOk result (text.new.items ≡ text.old.items ++ (codes " " ++ decimal n)) }
{
    put(text, b" ")?;
    put_number(text, n)
}

/// Adds the line of a model: its name, and whether the trace obeys it.
pub fn put_verdict<A: Allocator>(
    text: &mut Vec<u8, A>,
    model: MemoryModel,
    yes: bool,
) -> Result<(), AllocError>
    ensures { OnOk result (text.new.items ≡ text.old.items ++ model_line model yes) }
{
    put(text, model.word().as_bytes())?;
    if yes {
        put(text, b" yes\n")
    } else {
        put(text, b" no\n")
    }
}

/// Whether a yes or a no of a model by rules is certain. What these models leave out may turn a yes into
/// a no, but not where the log is sequentially consistent; what they count as too strong may turn a no
/// into a yes, but not where the log isn't coherent.
fn is_certain(doubts: Doubts, obeys: Obeys, obeyed: bool) -> bool
    ensures { result ≡ is_certain doubts obeys obeyed }
{
    if obeyed {
        !doubts.more || obeys.sc
    } else {
        !doubts.less || !obeys.coherent
    }
}

/// Whether there is a yes or a no of a model, by what the models leave out of a log.
pub fn is_told(doubts: Doubts, obeys: Obeys, model: MemoryModel) -> bool
    ensures { result ≡ is_told doubts obeys model }
{
    match model {
        MemoryModel::Coherent => true,
        MemoryModel::Fenced => is_certain(doubts, obeys, obeys.fenced),
        MemoryModel::Pso => is_certain(doubts, obeys, obeys.pso),
        MemoryModel::Tso => is_certain(doubts, obeys, obeys.tso),
        MemoryModel::Sc => true,
    }
}

/// Adds why there is neither a yes nor a no of a model.
pub fn put_untold<A: Allocator>(text: &mut Vec<u8, A>, fences: bool) -> Result<(), AllocError>
    ensures { OnOk result (text.new.items ≡ text.old.items ++ untold_text fences) }
{
    if fences {
        put(
            text,
            b" not told: the log has annotations or weaker fences\n",
        )
    } else {
        put(text, b" not told: a report has no fences\n")
    }
}

/// Adds the line of a model, with a yes or a no or neither.
fn put_told<A: Allocator>(
    text: &mut Vec<u8, A>,
    fences: bool,
    model: MemoryModel,
    told: bool,
    yes: bool,
) -> Result<(), AllocError>
    ensures { OnOk result (text.new.items ≡ text.old.items ++ told_line fences model told yes) }
{
    if told {
        put_verdict(text, model, yes)
    } else {
        put(text, model.word().as_bytes())?;
        put_untold(text, fences)
    }
}

/// Whether there is a yes or a no of RISC-V's model, where a log says where its fences stand or not.
pub fn is_rvwmo_told(fences: bool, obeys: Obeys, obeyed: bool) -> bool
    ensures { result ≡ is_rvwmo_told fences obeys obeyed }
{
    fences || obeys.sc || !obeyed
}

/// Adds the line of RISC-V's model.
fn put_rvwmo_line<A: Allocator>(
    text: &mut Vec<u8, A>,
    told: bool,
    yes: bool,
) -> Result<(), AllocError>
    ensures { OnOk result (text.new.items ≡ text.old.items ++ rvwmo_line told yes) }
{
    if !told {
        put(text, b"rvwmo")?;
        return put_untold(text, false);
    }
    if yes {
        put(text, b"rvwmo yes\n")
    } else {
        put(text, b"rvwmo no\n")
    }
}

/// Adds the line of RISC-V's model, where it is asked.
fn put_rvwmo<A: Allocator>(
    text: &mut Vec<u8, A>,
    fences: bool,
    obeys: Obeys,
    obeyed: Option<bool>,
) -> Result<(), AllocError>
    ensures { OnOk result (text.new.items ≡ text.old.items ++ rvwmo_text fences obeys obeyed) }
{
    match obeyed {
        None => Ok(()),
        Some(yes) => put_rvwmo_line(text, is_rvwmo_told(fences, obeys, yes), yes),
    }
}

/// Adds the lines of the models, weakest first.
pub(crate) fn put_obeys<A: Allocator>(
    text: &mut Vec<u8, A>,
    fences: bool,
    obeys: Obeys,
    weak: WeakAnswer,
) -> Result<(), AllocError>
    ensures { OnOk result (text.new.items ≡ text.old.items ++ obeys_text fences obeys weak) }
{
    put_verdict(text, MemoryModel::Coherent, obeys.coherent)?;
    let fenced_told = is_told(weak.doubts, obeys, MemoryModel::Fenced);
    put_told(text, fences, MemoryModel::Fenced, fenced_told, obeys.fenced)?;
    put_rvwmo(text, fences, obeys, weak.obeyed)?;
    let pso_told = is_told(weak.doubts, obeys, MemoryModel::Pso);
    put_told(text, fences, MemoryModel::Pso, pso_told, obeys.pso)?;
    let tso_told = is_told(weak.doubts, obeys, MemoryModel::Tso);
    put_told(text, fences, MemoryModel::Tso, tso_told, obeys.tso)?;
    put_verdict(text, MemoryModel::Sc, obeys.sc)
}

/// Adds the values of an operation.
fn put_values<A: Allocator>(text: &mut Vec<u8, A>, values: Values) -> Result<(), AllocError>
    ensures { OnOk result (text.new.items ≡ text.old.items ++ values_text (values_listed values)) }
{
    match values {
        Values::None => Ok(()),
        Values::One(value) => put_value(text, value),
        Values::Two(first, second) => {
            put_value(text, first)?;
            put_value(text, second)
        }
    }
}

/// Adds an operation, its address and its values.
fn put_operation<A: Allocator>(
    text: &mut Vec<u8, A>,
    operation: Operation,
) -> Result<(), AllocError>
    ensures { OnOk result (text.new.items ≡ text.old.items ++ operation_text operation) }
{
    put(text, operation.op.code().word().as_bytes())?;
    put_value(text, u64::from(operation.address))?;
    put_values(text, operation.op.values())
}

/// Adds an operation, or a fence.
pub(crate) fn put_fence_or_operation<A: Allocator>(
    text: &mut Vec<u8, A>,
    operation: Option<Operation>,
) -> Result<(), AllocError>
    ensures { OnOk result (text.new.items ≡ text.old.items ++ fence_or_operation operation) }
{
    match operation {
        None => put(text, b"fence"),
        Some(operation) => put_operation(text, operation),
    }
}

/// Adds the line of an operation: the line that made it, its processor and what it is.
pub(crate) fn put_step<A: Allocator>(text: &mut Vec<u8, A>, step: Logged) -> Result<(), AllocError>
    ensures { OnOk result (text.new.items ≡ text.old.items ++ step_text step) }
{
    if step.line == 0 {
        put(text, b"opening: ")?;
    } else {
        put(text, b"line ")?;
        put_number(text, step.line)?;
        put(text, b": ")?;
        put_number(text, u64::from(step.processor))?;
        put(text, b" ")?;
    }
    put_fence_or_operation(text, step.operation)?;
    put(text, b"\n")
}
