//! A cycle of a model by rules that a trace breaks, in words.

ghost use Rattle.std.specs.Prelude.{◌≡◌, ◌⊎◌, ◌++◌, ◌+◌, ◌<◌, ℕ, IfOk, OnOk, length};
ghost use Rattle.memory_models.specs.Trace.{IsMemoryTrace, rule_at, operation_at};
ghost use Rattle.memory_models.specs.Arcs.{IsChained};
ghost use Rattle.memory_models.specs.Following.{IsChainedOn};
ghost use Rattle.memory_models.specs.Verdict.{AreAround, IsModelVerdict};
ghost use Rattle.model_text.specs.Traces.{logged_at};
ghost use Rattle.model_answer.specs.Answer.{AreWhys, TellsCycle, IsCycleOf, AddsPart};
ghost use Rattle.model_answer.specs.Answer.{cycle_heading};
ghost use Rattle.model_answer.specs.Model.{rules_of_model};
ghost use Rattle.model_answer.specs.Texts.{cycle_text, reason_text, step_text};

use crate::model::MemoryModel;
use crate::shorten::short_cycle;
use crate::text::{put, put_step};
use memory_models::{Kind, Rule, Step, Verdict, Why, why_of};
use model_text::LogTrace;
use model_text::trace::logged_at;
use std::alloc::{AllocError, Allocator};

/// The reason of each step of a cycle.
///
/// Errors: out of memory.
fn whys_of<A: Allocator + Copy>(
    alloc: A,
    rules: &[Rule],
    trace: &LogTrace<A>,
    steps: &[Step],
) -> Result<Vec<Why, A>, AllocError>
    requires { AreAround rules.now trace.now.operations.items trace.now.writes.items steps.now }
    ensures { IfOk result (λ whys. AreWhys rules.now trace.now.operations.items
        trace.now.writes.items steps.now whys.items) }
{
    let mut whys = Vec::new(alloc);
    for k in 0..steps.len() {
        let step = steps[k];
        whys.push(why_of(rules, &trace.operations, &trace.writes, step.from, step.to))?;
    }
    Ok(whys)
}

/// Adds the words of a reason, behind an operation of a kind.
pub(crate) fn put_reason<A: Allocator>(
    text: &mut Vec<u8, A>,
    why: Why,
    kind: Kind,
) -> Result<(), AllocError>
    ensures { OnOk result (text.new.items ≡ text.old.items ++ reason_text why kind) }
{
    match why {
        Why::Program => put(text, b"  before, in program order\n"),
        Why::Read => put(text, b"  was read by\n"),
        Why::Overwritten => match kind {
            Kind::Load => put(text, b"  read a word that was overwritten by\n"),
            _ => put(text, b"  was overwritten by\n"),
        },
        Why::Stale => put(text, b"  was missed by the later load\n"),
    }
}

/// Adds the lines of a step.
fn put_arc<A: Allocator>(
    text: &mut Vec<u8, A>,
    trace: &LogTrace<A>,
    step: Step,
    why: Why,
) -> Result<(), AllocError>
    requires { step.from < length trace.now.operations.items }
    ensures { OnOk result (text.new.items ≡ text.old.items
        ++ (step_text (logged_at trace.now.steps.items step.from)
        ++ reason_text why (operation_at trace.now.operations.items step.from).kind)) }
{
    put_step(text, logged_at(&trace.steps, step.from))?;
    put_reason(text, why, trace.operations[step.from].kind)
}

/// Adds the lines of a cycle.
fn put_cycle<A: Allocator>(
    text: &mut Vec<u8, A>,
    rules: &[Rule],
    trace: &LogTrace<A>,
    steps: &[Step],
    whys: &[Why],
) -> Result<(), AllocError>
    requires around { AreAround rules.now trace.now.operations.items trace.now.writes.items
        steps.now }
    requires whys { AreWhys rules.now trace.now.operations.items trace.now.writes.items steps.now
        whys.now }
    ensures { OnOk result (text.new.items ≡ text.old.items
        ++ cycle_text trace.now.steps.items trace.now.operations.items steps.now whys.now) }
{
    for k in 0..steps.len() {
        put_arc(text, trace, steps[k], whys[k])?;
    }
    put_step(text, logged_at(&trace.steps, steps[0].from))?;
    Ok(())
}

/// Adds a cycle of a model, as short as it is found.
fn put_short<A: Allocator + Copy>(
    alloc: A,
    text: &mut Vec<u8, A>,
    rules: &[Rule],
    trace: &LogTrace<A>,
    first: &[Step],
) -> Result<(), AllocError>
    requires trace { IsMemoryTrace (trace.now.openings + 1) trace.now.operations.items
        trace.now.writes.items }
    requires chained { (k : ℕ) → k < length rules.now
        → IsChained (rule_at rules.now k) ⊎ IsChainedOn (rule_at rules.now k) }
    requires around { AreAround rules.now trace.now.operations.items trace.now.writes.items
        first.now }
    ensures { OnOk result (AddsPart text.old.items text.new.items
        (TellsCycle rules.now trace.now.operations.items trace.now.writes.items
        trace.now.steps.items)) }
{
    let steps = short_cycle(alloc, rules, trace, first)?;
    let whys = whys_of(alloc, rules, trace, &steps)?;
    put_cycle(text, rules, trace, &steps, &whys)?;
    Ok(())
}

/// Adds the line before a cycle.
fn put_heading<A: Allocator>(text: &mut Vec<u8, A>, model: MemoryModel) -> Result<(), AllocError>
    ensures { OnOk result (text.new.items ≡ text.old.items ++ cycle_heading model) }
{
    put(text, b"no order of ")?;
    put(text, model.word().as_bytes())?;
    put(text, b":\n")?;
    Ok(())
}

/// Adds the cycle of a model, behind its heading.
fn put_cycle_of<A: Allocator + Copy>(
    alloc: A,
    text: &mut Vec<u8, A>,
    trace: &LogTrace<A>,
    model: MemoryModel,
    first: &[Step],
) -> Result<(), AllocError>
    requires trace { IsMemoryTrace (trace.now.openings + 1) trace.now.operations.items
        trace.now.writes.items }
    requires around { AreAround (rules_of_model model) trace.now.operations.items
        trace.now.writes.items first.now }
    ensures { OnOk result (AddsPart text.old.items text.new.items
        (λ part. AddsPart (cycle_heading model) part (TellsCycle (rules_of_model model)
        trace.now.operations.items trace.now.writes.items trace.now.steps.items))) }
{
    put_heading(text, model)?;
    let rules = model.rules(alloc)?;
    put_short(alloc, text, &rules, trace, first)?;
    Ok(())
}

/// Adds the cycle of a model, if its verdict is one.
pub(crate) fn put_verdict_of<A: Allocator + Copy>(
    alloc: A,
    text: &mut Vec<u8, A>,
    trace: &LogTrace<A>,
    model: MemoryModel,
    verdict: &Verdict<A>,
) -> Result<(), AllocError>
    requires trace { IsMemoryTrace (trace.now.openings + 1) trace.now.operations.items
        trace.now.writes.items }
    requires verdict { IsModelVerdict (rules_of_model model) trace.now.operations.items
        trace.now.writes.items verdict.now }
    ensures { OnOk result (AddsPart text.old.items text.new.items
        (IsCycleOf trace.now model verdict.now)) }
{
    match verdict {
        Verdict::Ordered(_) => Ok(()),
        Verdict::Cycle(steps) => {
            put_cycle_of(alloc, text, trace, model, steps)?;
            Ok(())
        }
    }
}
