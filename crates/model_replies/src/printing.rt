//! The text of an answer by words alone.

ghost use Rattle.std.specs.Prelude.{◌≡◌, ◌++◌, IfOk, OnOk, codes, decimal};
ghost use Rattle.model_replies.specs.Printed.{asked_model, asked_text, decision_line, decisions_text};
ghost use Rattle.model_replies.specs.Printed.{order_text, verdicts_text};

use crate::decision::{Decision, Decisions};
use crate::judging::ValueVerdicts;
use model_answer::order::{put_heading, put_order, strongest_obeyed};
use model_answer::text::{put, put_number, put_untold, put_verdict};
use model_answer::{Doubts, MemoryModel};
use model_text::Logged;
use model_values::OrderVerdict;
use std::alloc::{AllocError, Allocator};

/// Adds that more nodes would have to be looked at.
fn put_limit<A: Allocator>(text: &mut Vec<u8, A>, nodes: usize) -> Result<(), AllocError>
    ensures { OnOk result (text.new.items ≡ text.old.items
        ++ (codes " undecided: more than " ++ (decimal nodes ++ codes " nodes\n"))) }
{
    put(text, b" undecided: more than ")?;
    put_number(text, nodes as u64)?;
    put(text, b" nodes\n")?;
    Ok(())
}

/// Adds the line of a model.
fn put_decision<A: Allocator>(
    text: &mut Vec<u8, A>,
    nodes: usize,
    model: MemoryModel,
    decision: Decision,
) -> Result<(), AllocError>
    ensures { OnOk result (text.new.items ≡ text.old.items
        ++ decision_line nodes model decision) }
{
    match decision {
        Decision::Obeys => put_verdict(text, model, true),
        Decision::Breaks => put_verdict(text, model, false),
        Decision::Undecided => {
            put(text, model.word().as_bytes())?;
            put_limit(text, nodes)
        }
        Decision::NotTold => {
            put(text, model.word().as_bytes())?;
            put_untold(text, true)
        }
    }
}

/// Adds the lines of the models, weakest first.
fn put_decisions<A: Allocator>(
    text: &mut Vec<u8, A>,
    nodes: usize,
    all: Decisions,
) -> Result<(), AllocError>
    ensures { OnOk result (text.new.items ≡ text.old.items ++ decisions_text nodes all) }
{
    put_decision(text, nodes, MemoryModel::Coherent, all.coherent)?;
    put_decision(text, nodes, MemoryModel::Fenced, all.fenced)?;
    put_decision(text, nodes, MemoryModel::Pso, all.pso)?;
    put_decision(text, nodes, MemoryModel::Tso, all.tso)?;
    put_decision(text, nodes, MemoryModel::Sc, all.sc)
}

/// Adds the order of a model behind a heading, where its verdict has one.
fn put_order_of<A: Allocator + Copy>(
    alloc: A,
    text: &mut Vec<u8, A>,
    openings: usize,
    steps: &[Logged],
    model: MemoryModel,
    verdict: &OrderVerdict<A>,
) -> Result<(), AllocError>
    ensures { OnOk result (text.new.items ≡ text.old.items
        ++ order_text openings steps.now model verdict.now) }
{
    match verdict {
        OrderVerdict::Obeys(explanation) => {
            put_heading(text, model)?;
            put_order(alloc, text, openings, steps, &explanation.turns)?;
            Ok(())
        }
        OrderVerdict::Breaks => Ok(()),
        OrderVerdict::Undecided => Ok(()),
    }
}

/// The model of which an order is asked for: the strongest that is obeyed for certain.
fn asked_model(order: bool, all: Decisions) -> Option<MemoryModel>
    ensures { result ≡ asked_model order all }
{
    if order {
        strongest_obeyed(true, all.obeyed())
    } else {
        None
    }
}

/// Adds the order of a model, if there is one.
fn put_order_by<A: Allocator + Copy>(
    alloc: A,
    text: &mut Vec<u8, A>,
    openings: usize,
    steps: &[Logged],
    all: &ValueVerdicts<A>,
    model: Option<MemoryModel>,
) -> Result<(), AllocError>
    ensures { OnOk result (text.new.items ≡ text.old.items
        ++ asked_text openings steps.now all.now model) }
{
    match model {
        None => Ok(()),
        Some(model) => {
            put_order_of(alloc, text, openings, steps, model, all.by(model))?;
            Ok(())
        }
    }
}

/// What is printed of the verdicts, as far as they are certain, by searches of at most so many nodes.
///
/// Errors: out of memory.
pub(crate) fn text_of<A: Allocator + Copy>(
    alloc: A,
    nodes: usize,
    order: bool,
    openings: usize,
    steps: &[Logged],
    doubts: Doubts,
    all: &ValueVerdicts<A>,
) -> Result<Vec<u8, A>, AllocError>
    ensures { IfOk result (λ text.
        text.items ≡ verdicts_text nodes order openings steps.now doubts all.now) }
{
    let mut text = Vec::new(alloc);
    let decisions = all.decisions().told(doubts);
    put_decisions(&mut text, nodes, decisions)?;
    let model = asked_model(order, decisions);
    put_order_by(alloc, &mut text, openings, steps, all, model)?;
    Ok(text)
}
