//! The trace of a log.

ghost use Rattle.std.specs.Prelude.{◌≡◌, ◌+◌, ◌<◌, ◌^◌, ◌++◌, ◌∷◌, false, IfOk, IfErr, OnOk, length, map};
ghost use Rattle.std.specs.Prelude.{slice_index, unwrap_or};
ghost use Rattle.std.specs.List.{range_with_len};
ghost use Rattle.model_text.specs.Traces.{ArePlaces, logged_at, kind_of_step, opening_step};
ghost use Rattle.model_text.specs.Traces.{trace_spot};
ghost use Rattle.model_text.specs.Traces.{writes_of_word, writes_of_log, write_place, source_spot};
ghost use Rattle.model_text.specs.Traces.{opening_operation, operation_of_log, numbers_of_log};
ghost use Rattle.model_text.specs.Traces.{steps_of_log, operations_of_log, TellsLog, IsTraceOfLog};
ghost use Rattle.model_text.specs.Rows.{numbers_of_row};
ghost use Rattle.model_text.specs.Views.{log_so_far};

use crate::finals::last_spot;
use crate::kinds::kind_of_op;
use crate::log::Log;
use crate::logged::{Logged, Source};
use crate::opened::are_opened;
use crate::placing::{place_of, places_in};
use memory_models::{Kind, Operation, is_trace};
use packet::{Op, Operation as Asked};
use std::alloc::{AllocError, Allocator, Global};

/// The trace of a log: opening stores, behind them the operations of each processor.
#[derive(Drop)]
pub struct LogTrace<A: Allocator = Global> {
    /// How many words occur; so many opening stores stand in front.
    pub openings: usize,
    /// What stands at each place of the trace.
    pub steps: Vec<Logged, A>,
    /// The operations, to a model.
    pub operations: Vec<Operation, A>,
    /// Each word's writes together, in the word's order.
    pub writes: Vec<usize, A>,
}

/// The operation of a number; a fence where there is none.
pub fn logged_at(made: &[Logged], n: usize) -> Logged
    ensures { result ≡ logged_at made.now n }
{
    if n < made.len() {
        return made[n];
    }
    Logged {
        line: 0,
        processor: 0,
        operation: None,
        word: 0,
        source: Source::Own,
        told: None,
    }
}

/// What an operation is to a model.
pub fn kind_of_step(operation: Option<Asked>) -> Kind
    ensures { result ≡ kind_of_step operation }
{
    match operation {
        None => Kind::Fence,
        Some(asked) => kind_of_op(asked.op),
    }
}

/// The opening store of a word.
pub fn opening_step<A: Allocator>(log: &Log<A>, w: usize) -> Logged
    requires { w < length log.now.addresses.items }
    ensures { result ≡ opening_step (log_so_far log.now) w }
{
    let address = log.addresses[w];
    let word = log.head.opening(address);
    Logged {
        line: 0,
        processor: 0,
        operation: Some(Asked {
            address,
            op: Op::Store(word),
        }),
        word: w,
        source: Source::Own,
        told: None,
    }
}

/// The place in the trace of the operation of a number.
pub(crate) fn trace_spot<A: Allocator>(
    log: &Log<A>,
    numbers: &[usize],
    places: &[usize],
    n: usize,
) -> usize
    requires numbers { numbers.now ≡ numbers_of_log (log_so_far log.now) }
    requires places { ArePlaces numbers.now (length log.now.made.items) places.now }
    ensures { result ≡ trace_spot (log_so_far log.now) n }
{
    log.addresses.len() + place_of(numbers, places, n)
}

/// Adds the writes of a word: its opening store, then those of the `wrote` lines.
///
/// Errors: out of memory.
fn push_writes<A: Allocator + Copy>(
    log: &Log<A>,
    numbers: &[usize],
    places: &[usize],
    w: usize,
    writes: &mut Vec<usize, A>,
) -> Result<(), AllocError>
    requires numbers { numbers.now ≡ numbers_of_log (log_so_far log.now) }
    requires places { ArePlaces numbers.now (length log.now.made.items) places.now }
    ensures { OnOk result
        (writes.new.items ≡ writes.old.items ++ writes_of_word (log_so_far log.now) w) }
{
    writes.push(w)?;
    let order = log.orders.row(w);
    for i in 0..order.len() {
        let spot = trace_spot(log, numbers, places, order[i]);
        writes.push(spot)?;
    }
    Ok(())
}

/// The writes of all words.
///
/// Errors: out of memory.
fn writes_of_log<A: Allocator + Copy>(
    alloc: A,
    log: &Log<A>,
    numbers: &[usize],
    places: &[usize],
) -> Result<Vec<usize, A>, AllocError>
    requires numbers { numbers.now ≡ numbers_of_log (log_so_far log.now) }
    requires places { ArePlaces numbers.now (length log.now.made.items) places.now }
    ensures { IfOk result (λ writes. writes.items ≡ writes_of_log (log_so_far log.now)) }
{
    let mut writes = Vec::new(alloc);
    for w in 0..log.addresses.len() {
        push_writes(log, numbers, places, w, &mut writes)?;
    }
    Ok(writes)
}

/// The place in the trace of what the operation of a number read.
fn source_spot<A: Allocator>(
    log: &Log<A>,
    numbers: &[usize],
    places: &[usize],
    n: usize,
    logged: Logged,
) -> usize
    requires numbers { numbers.now ≡ numbers_of_log (log_so_far log.now) }
    requires places { ArePlaces numbers.now (length log.now.made.items) places.now }
    ensures { result ≡ source_spot (log_so_far log.now) n logged logged.source }
{
    match logged.source {
        Source::Untold => trace_spot(log, numbers, places, n),
        Source::Own => trace_spot(log, numbers, places, n),
        Source::Opening => logged.word,
        Source::Write(m) => trace_spot(log, numbers, places, m),
        Source::Last => last_spot(log, numbers, places, logged.word),
    }
}

/// Adds the opening stores.
///
/// Errors: out of memory.
fn push_openings<A: Allocator + Copy>(
    log: &Log<A>,
    writes: &[usize],
    orders: &[usize],
    steps: &mut Vec<Logged, A>,
    operations: &mut Vec<Operation, A>,
) -> Result<(), AllocError>
    requires writes { writes.now ≡ writes_of_log (log_so_far log.now) }
    requires orders { ArePlaces writes.now
        (length log.now.addresses.items + length (numbers_of_log (log_so_far log.now))) orders.now }
    ensures steps { OnOk result (steps.new.items ≡ steps.old.items
        ++ map (opening_step (log_so_far log.now))
        (range_with_len 0 (length log.now.addresses.items))) }
    ensures operations { OnOk result (operations.new.items ≡ operations.old.items
        ++ map (opening_operation (log_so_far log.now))
        (range_with_len 0 (length log.now.addresses.items))) }
{
    for w in 0..log.addresses.len() {
        steps.push(opening_step(log, w))?;
        let place = place_of(writes, orders, w);
        operations.push(Operation {
            processor: w,
            kind: Kind::Store,
            word: w,
            place,
        })?;
    }
    Ok(())
}

/// The operation of a number, to a model.
fn operation_of_log<A: Allocator>(
    log: &Log<A>,
    numbers: &[usize],
    places: &[usize],
    writes: &[usize],
    orders: &[usize],
    n: usize,
) -> Operation
    requires numbers { numbers.now ≡ numbers_of_log (log_so_far log.now) }
    requires places { ArePlaces numbers.now (length log.now.made.items) places.now }
    requires writes { writes.now ≡ writes_of_log (log_so_far log.now) }
    requires orders { ArePlaces writes.now
        (length log.now.addresses.items + length (numbers_of_log (log_so_far log.now))) orders.now }
    ensures { result ≡ operation_of_log (log_so_far log.now) n }
{
    let logged = logged_at(&log.made, n);
    let source = source_spot(log, numbers, places, n, logged);
    Operation {
        processor: log.addresses.len() + logged.processor as usize,
        kind: kind_of_step(logged.operation),
        word: logged.word,
        place: place_of(writes, orders, source),
    }
}

/// Adds the operations of the log.
///
/// Errors: out of memory.
fn push_operations<A: Allocator + Copy>(
    log: &Log<A>,
    numbers: &[usize],
    places: &[usize],
    writes: &[usize],
    orders: &[usize],
    steps: &mut Vec<Logged, A>,
    operations: &mut Vec<Operation, A>,
) -> Result<(), AllocError>
    requires numbers { numbers.now ≡ numbers_of_log (log_so_far log.now) }
    requires places { ArePlaces numbers.now (length log.now.made.items) places.now }
    requires writes { writes.now ≡ writes_of_log (log_so_far log.now) }
    requires orders { ArePlaces writes.now
        (length log.now.addresses.items + length (numbers_of_log (log_so_far log.now))) orders.now }
    ensures steps { OnOk result (steps.new.items
        ≡ steps.old.items ++ map (logged_at log.now.made.items) numbers.now) }
    ensures operations { OnOk result (operations.new.items
        ≡ operations.old.items ++ map (operation_of_log (log_so_far log.now)) numbers.now) }
{
    for i in 0..numbers.len() {
        let n = numbers[i];
        steps.push(logged_at(&log.made, n))?;
        operations.push(operation_of_log(log, numbers, places, writes, orders, n))?;
    }
    Ok(())
}

/// What stands at each place of the trace of a log.
///
/// Errors: out of memory.
fn filled<A: Allocator + Copy>(alloc: A, log: &Log<A>) -> Result<LogTrace<A>, AllocError>
    ensures { IfOk result (TellsLog (log_so_far log.now)) }
{
    let openings = log.addresses.len();
    let numbers = log.rows.joined(alloc)?;
    let places = places_in(alloc, &numbers, log.made.len())?;
    let writes = writes_of_log(alloc, log, &numbers, &places)?;
    let orders = places_in(alloc, &writes, openings + numbers.len())?;
    let mut steps = Vec::new(alloc);
    let mut operations = Vec::new(alloc);
    push_openings(log, &writes, &orders, &mut steps, &mut operations)?;
    push_operations(
        log,
        &numbers,
        &places,
        &writes,
        &orders,
        &mut steps,
        &mut operations,
    )?;
    Ok(LogTrace {
        openings,
        steps,
        operations,
        writes,
    })
}

/// The trace of a log.
///
/// Errors: out of memory.
pub fn trace_of_log<A: Allocator + Copy>(alloc: A, log: &Log<A>) -> Result<LogTrace<A>, AllocError>
    ensures { IfOk result (IsTraceOfLog (log_so_far log.now)) }
{
    let trace = filled(alloc, log)?;
    if !is_trace(&trace.operations, &trace.writes, trace.openings + 1) {
        return Err(AllocError);
    }
    if !are_opened(&trace.operations, &trace.writes, trace.openings) {
        return Err(AllocError);
    }
    Ok(trace)
}
