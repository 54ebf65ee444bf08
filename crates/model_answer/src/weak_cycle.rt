//! A cycle and an order of RISC-V's memory model, in words.

ghost use Rattle.std.specs.Prelude.{◌≡◌, ◌++◌, OnOk, codes};
ghost use Rattle.memory_models.specs.Trace.{operation_at};
ghost use Rattle.weak_models.specs.Arcs.{reasoned_at};
ghost use Rattle.model_text.specs.Traces.{logged_at};
ghost use Rattle.model_answer.specs.Answer.{weak_cycle_of, weak_order_of};
ghost use Rattle.model_answer.specs.Texts.{rule_text, step_text, weak_cycle_text, weak_reason_text};
ghost use Rattle.model_answer.specs.Texts.{turns_text};

use crate::cycle::put_reason;
use crate::order::put_order;
use crate::text::{put, put_step};
use memory_models::{Kind, Operation, Why};
use model_text::LogTrace;
use model_text::trace::logged_at;
use std::alloc::{AllocError, Allocator};
use weak_models::{PreservedRule, Reason, ReasonedStep, RvwmoVerdict};

/// The kind of an operation; a load beyond the list.
fn kind_at(operations: &[Operation], x: usize) -> Kind
    ensures { result ≡ (operation_at operations.now x).kind }
{
    if x < operations.len() {
        operations[x].kind
    } else {
        Kind::Load
    }
}

/// Adds the words of a rule of preserved program order, with its number in the RISC-V Instruction Set
/// Manual.
fn put_rule<A: Allocator>(text: &mut Vec<u8, A>, rule: PreservedRule) -> Result<(), AllocError>
    ensures { OnOk result (text.new.items ≡ text.old.items ++ rule_text rule) }
{
    match rule {
        PreservedRule::SameWordStore => {
            put(text, b"  before, by rule 1: a store on the same word\n")
        }
        PreservedRule::DifferentReads => put(
            text,
            b"  before, by rule 2: loads on one word that read different writes\n",
        ),
        PreservedRule::AtomicSource => put(
            text,
            b"  before, by rule 3: a load of what an atomic or a conditional store wrote\n",
        ),
        PreservedRule::Fenced => put(text, b"  before, by rule 4: a fence between them\n"),
        PreservedRule::Acquire => put(text, b"  before, by rule 5: an acquire\n"),
        PreservedRule::Release => put(text, b"  before, by rule 6: a release\n"),
        PreservedRule::BothRcsc => { put(text, b"  before, by rule 7: RCsc annotations on both\n") }
        PreservedRule::Paired => put(
            text,
            b"  before, by rule 8: a load reserved and its conditional store\n",
        ),
        PreservedRule::AddressDependency => {
            put(text, b"  before, by rule 9: an address dependency\n")
        }
        PreservedRule::DataDependency => { put(text, b"  before, by rule 10: a data dependency\n") }
        PreservedRule::ControlDependency => put(
            text,
            b"  before, by rule 11: a control dependency of a store\n",
        ),
        PreservedRule::ThroughStore => put(
            text,
            b"  before, by rule 12: a load of what a dependent store wrote\n",
        ),
        PreservedRule::BehindAddress => put(
            text,
            b"  before, by rule 13: a store behind an address dependency\n",
        ),
    }
}

/// Adds the words of a reason, behind an operation of a kind.
fn put_weak_reason<A: Allocator>(
    text: &mut Vec<u8, A>,
    why: Reason,
    kind: Kind,
) -> Result<(), AllocError>
    ensures { OnOk result (text.new.items ≡ text.old.items ++ weak_reason_text why kind) }
{
    match why {
        Reason::Preserved(rule) => put_rule(text, rule),
        Reason::Read => put_reason(text, Why::Read, kind),
        Reason::Overwritten => put_reason(text, Why::Overwritten, kind),
        Reason::Stale => put_reason(text, Why::Stale, kind),
        Reason::Atomicity => put(text, b"  ends its pair before\n"),
    }
}

/// Adds the lines of a step.
fn put_weak_arc<A: Allocator>(
    text: &mut Vec<u8, A>,
    trace: &LogTrace<A>,
    step: ReasonedStep,
) -> Result<(), AllocError>
    ensures { OnOk result (text.new.items ≡ text.old.items
        ++ (step_text (logged_at trace.now.steps.items step.from)
        ++ weak_reason_text step.why (operation_at trace.now.operations.items step.from).kind)) }
{
    put_step(text, logged_at(&trace.steps, step.from))?;
    put_weak_reason(text, step.why, kind_at(&trace.operations, step.from))
}

/// The first step of a cycle.
fn first_of(steps: &[ReasonedStep]) -> ReasonedStep
    ensures { result ≡ reasoned_at steps.now 0 }
{
    if steps.is_empty() {
        return ReasonedStep {
            from: 0,
            to: 0,
            why: Reason::Read,
        };
    }
    steps[0]
}

/// Adds the lines of a cycle.
fn put_weak_steps<A: Allocator>(
    text: &mut Vec<u8, A>,
    trace: &LogTrace<A>,
    steps: &[ReasonedStep],
) -> Result<(), AllocError>
    ensures { OnOk result (text.new.items ≡ text.old.items
        ++ weak_cycle_text trace.now.steps.items trace.now.operations.items steps.now) }
{
    for k in 0..steps.len() {
        put_weak_arc(text, trace, steps[k])?;
    }
    put_step(text, logged_at(&trace.steps, first_of(steps).from))?;
    Ok(())
}

/// Adds the cycle of RISC-V's model behind its heading, if its verdict is one.
pub(crate) fn put_weak_cycle<A: Allocator>(
    text: &mut Vec<u8, A>,
    trace: &LogTrace<A>,
    verdict: &Option<RvwmoVerdict<A>>,
) -> Result<(), AllocError>
    ensures { OnOk result (text.new.items ≡ text.old.items
        ++ weak_cycle_of trace.now verdict.now) }
{
    match verdict {
        None => Ok(()),
        Some(RvwmoVerdict::Ordered(_)) => Ok(()),
        Some(RvwmoVerdict::Cycle(steps)) => {
            put(text, b"no order of rvwmo:\n")?;
            put_weak_steps(text, trace, steps)?;
            Ok(())
        }
    }
}

/// Adds the operations by their turns, behind a heading.
///
/// Errors: out of memory.
fn put_turns<A: Allocator + Copy>(
    alloc: A,
    text: &mut Vec<u8, A>,
    trace: &LogTrace<A>,
    turns: &[usize],
) -> Result<(), AllocError>
    ensures { OnOk result (text.new.items ≡ text.old.items ++ (codes "an order of rvwmo:\n"
        ++ turns_text trace.now.openings trace.now.steps.items turns.now)) }
{
    put(text, b"an order of rvwmo:\n")?;
    put_order(alloc, text, trace.openings, &trace.steps, turns)?;
    Ok(())
}

/// Adds the order of RISC-V's model behind its heading, if its verdict is one.
///
/// Errors: out of memory.
pub(crate) fn put_weak_order<A: Allocator + Copy>(
    alloc: A,
    text: &mut Vec<u8, A>,
    trace: &LogTrace<A>,
    verdict: &Option<RvwmoVerdict<A>>,
) -> Result<(), AllocError>
    ensures { OnOk result (text.new.items ≡ text.old.items
        ++ weak_order_of trace.now verdict.now) }
{
    match verdict {
        None => Ok(()),
        Some(RvwmoVerdict::Cycle(_)) => Ok(()),
        Some(RvwmoVerdict::Ordered(turns)) => {
            put_turns(alloc, text, trace, turns)?;
            Ok(())
        }
    }
}
