//! The operations of a log, with the words that they left and found.

ghost use Rattle.std.specs.Prelude.{◌≡◌, ◌++◌, ◌<◌, ◌≤◌, ℕ, true, false, IfNone, IfOk, IfSome, OnOk, length, map};
ghost use Rattle.std.specs.List.{range_with_len};
ghost use Rattle.model_text.specs.Finals.{is_final};
ghost use Rattle.model_text.specs.Traces.{logged_at, numbers_of_log, opening_step, steps_of_log};
ghost use Rattle.model_text.specs.Views.{log_so_far};
ghost use Rattle.model_replies.specs.Steps.{AreFinalsFrom, found_word, left_word, made_unplaced, opening_unplaced};
ghost use Rattle.model_replies.specs.Steps.{old_word, unplaced, unplaced_operations, TellsValues};

use memory_models::Operation;
use model_text::finals::is_final;
use model_text::trace::{kind_of_step, logged_at, opening_step};
use model_text::values::op_of_step;
use model_text::{Log, Logged};
use packet::{Reply, apply};
use std::alloc::{AllocError, Allocator, Global};

/// The operations of a log, with the words that they left and found: opening stores, behind them the
/// operations of each processor.
#[derive(Drop)]
pub struct ValuedLog<A: Allocator = Global> {
    /// How many words occur; so many opening stores stand in front.
    pub openings: usize,
    /// What stands at each place.
    pub steps: Vec<Logged, A>,
    /// The operations, to a model. No order of writes is known, so all places are 0.
    pub operations: Vec<Operation, A>,
    /// The words that the operations left.
    pub left: Vec<u64, A>,
    /// The words that they found.
    pub found: Vec<u64, A>,
    /// The number of the first final word, behind all operations.
    pub closing: usize,
}

/// The word of a reply; 0 where it has none.
fn old_word(reply: Reply) -> u64
    ensures { result ≡ old_word reply }
{
    match reply {
        Reply::Ok => 0,
        Reply::Old(word) => word,
    }
}

/// The word that an operation found, by its reply; 0 where it has none.
pub(crate) fn found_word(step: Logged) -> u64
    ensures { result ≡ found_word step }
{
    match step.told {
        None => 0,
        Some(told) => old_word(told.reply),
    }
}

/// The word that an operation left.
fn left_word(step: Logged) -> u64
    ensures { result ≡ left_word step }
{
    let (left, _) = apply(op_of_step(step.operation), found_word(step));
    left
}

/// An operation of a processor, to a model, without a place.
fn unplaced(processor: usize, step: Logged) -> Operation
    ensures { result ≡ unplaced processor step }
{
    Operation {
        processor,
        kind: kind_of_step(step.operation),
        word: step.word,
        place: 0,
    }
}

/// Adds the opening stores.
///
/// Errors: out of memory.
fn push_openings<A: Allocator>(
    log: &Log<A>,
    steps: &mut Vec<Logged, A>,
    operations: &mut Vec<Operation, A>,
) -> Result<(), AllocError>
    ensures steps { OnOk result (steps.new.items ≡ steps.old.items
        ++ map (opening_step (log_so_far log.now))
        (range_with_len 0 (length log.now.addresses.items))) }
    ensures operations { OnOk result (operations.new.items ≡ operations.old.items
        ++ map (opening_unplaced (log_so_far log.now))
        (range_with_len 0 (length log.now.addresses.items))) }
{
    for w in 0..log.addresses.len() {
        let step = opening_step(log, w);
        steps.push(step)?;
        operations.push(unplaced(w, step))?;
    }
    Ok(())
}

/// Adds the operations of the log.
///
/// Errors: out of memory.
fn push_made<A: Allocator>(
    log: &Log<A>,
    numbers: &[usize],
    steps: &mut Vec<Logged, A>,
    operations: &mut Vec<Operation, A>,
) -> Result<(), AllocError>
    ensures steps { OnOk result (steps.new.items
        ≡ steps.old.items ++ map (logged_at log.now.made.items) numbers.now) }
    ensures operations { OnOk result (operations.new.items
        ≡ operations.old.items ++ map (made_unplaced (log_so_far log.now)) numbers.now) }
{
    for i in 0..numbers.len() {
        let step = logged_at(&log.made, numbers[i]);
        steps.push(step)?;
        operations.push(unplaced(log.addresses.len() + step.processor as usize, step))?;
    }
    Ok(())
}

/// The words that operations left.
///
/// Errors: out of memory.
fn words_left<A: Allocator>(alloc: A, steps: &[Logged]) -> Result<Vec<u64, A>, AllocError>
    ensures { IfOk result (λ words. words.items ≡ map left_word steps.now) }
{
    let mut words = Vec::new(alloc);
    for i in 0..steps.len() {
        words.push(left_word(steps[i]))?;
    }
    Ok(words)
}

/// The words that operations found.
///
/// Errors: out of memory.
fn words_found<A: Allocator>(alloc: A, steps: &[Logged]) -> Result<Vec<u64, A>, AllocError>
    ensures { IfOk result (λ words. words.items ≡ map found_word steps.now) }
{
    let mut words = Vec::new(alloc);
    for i in 0..steps.len() {
        words.push(found_word(steps[i]))?;
    }
    Ok(words)
}

/// The number of the first final word; the number of steps where there is none.
fn first_final(steps: &[Logged]) -> usize
    ensures within { result ≤ length steps.now }
    ensures before { (k : ℕ) → k < result → is_final (logged_at steps.now k) ≡ false }
    ensures found { result < length steps.now → is_final (logged_at steps.now result) ≡ true }
{
    for x in 0..steps.len() {
        if is_final(logged_at(steps, x)) {
            return x;
        }
    }
    steps.len()
}

/// The number from which on all steps are final words, and before which none is.
fn closing_of(steps: &[Logged]) -> Option<usize>
    ensures some { IfSome result (AreFinalsFrom steps.now) }
    ensures none { IfNone result ((closing : ℕ) → AreFinalsFrom steps.now closing → ⊥) }
{
    let closing = first_final(steps);
    for x in closing..steps.len() {
        if !is_final(logged_at(steps, x)) {
            return None;
        }
    }
    Some(closing)
}

/// The operations of a log, with the words that they left and found.
///
/// Errors: out of memory.
pub fn values_of_log<A: Allocator + Copy>(
    alloc: A,
    log: &Log<A>,
) -> Result<ValuedLog<A>, AllocError>
    ensures { IfOk result (TellsValues (log_so_far log.now)) }
{
    let numbers = log.rows.joined(alloc)?;
    let mut steps = Vec::new(alloc);
    let mut operations = Vec::new(alloc);
    push_openings(log, &mut steps, &mut operations)?;
    push_made(log, &numbers, &mut steps, &mut operations)?;
    let left = words_left(alloc, &steps)?;
    let found = words_found(alloc, &steps)?;
    let Some(closing) = closing_of(&steps) else {
        return Err(AllocError);
    };
    Ok(ValuedLog {
        openings: log.addresses.len(),
        steps,
        operations,
        left,
        found,
        closing,
    })
}
