//! The services of the operations of an order.

ghost use Rattle.std.specs.Prelude.{◌≡◌, ◌≤◌, ◌<◌, ℕ, IfOk, Some, length, map, slice_get};
ghost use Rattle.std.specs.List.{range_with_len};
ghost use Rattle.packet.specs.Memory.{replies};
ghost use Rattle.trace_laws.specs.declared.event.Call.{Call};
ghost use Rattle.trace_laws.specs.Orders.{memory_of, operations_of};
ghost use Rattle.trace_text.specs.Traced.{opening_of};
ghost use Rattle.trace_answer.specs.Times.{AreLowTimes};
ghost use Rattle.trace_answer.specs.Numbers.{waits_of, NeverFalls};
ghost use Rattle.trace_answer.specs.Services.{issued_call, service_place, service_with};
ghost use Rattle.trace_answer.specs.Services.{services_told};

use crate::numbers::{answer_number, number_behind};
use crate::service::Service;
use crate::times::{Times, time_of};
use packet::{Op, Operation, Reply, apply};
use std::alloc::{AllocError, Allocator};
use trace_laws::Call;
use trace_text::{Issued, TraceText};

/// The operation of a number, as its trace issues it.
fn issued_call(issued: &[Issued], id: u64) -> Issued
    ensures { result ≡ issued_call issued.now id }
{
    if id >= issued.len() as u64 {
        return Issued {
            processor: 0,
            index: 0,
            operation: Operation {
                address: 0,
                op: Op::Load,
            },
            reply: None,
        };
    }
    issued[id as usize]
}

/// The replies of the one memory to the operations of an order, which leaves its words.
pub(crate) fn served<A: Allocator + Copy>(
    alloc: A,
    words: &mut Vec<u64, A>,
    order: &[Call],
) -> Result<Vec<Reply, A>, AllocError>
    requires { (x : ℕ) (c : Call) → slice_get order.now x ≡ Some c
        → c.operation.address < length words.old.items }
    ensures replies { IfOk result
        (λ told. told.items ≡ replies (operations_of order.now) words.old.items) }
    ensures words { IfOk result (λ _. words.new.items ≡ memory_of words.old.items order.now) }
{
    let mut told = Vec::new(alloc);
    for i in 0..order.len() {
        let operation = order[i].operation;
        let address = operation.address as usize;
        let (word, reply) = apply(operation.op, words[address]);
        words[address] = word;
        told.push(reply)?;
    }
    Ok(told)
}

/// How many operations of the same bank stand before each operation of an order.
pub(crate) fn places<A: Allocator + Copy>(
    alloc: A,
    tiles: u32,
    order: &[Call],
) -> Result<Vec<u32, A>, AllocError>
    requires some { 0 < tiles }
    requires few { length order.now ≤ 65536 }
    ensures { IfOk result
        (λ places. places.items
        ≡ map (service_place tiles order.now) (range_with_len 0 (length order.now))) }
{
    let mut counts = vec![in alloc; 0u32; tiles as usize]?;
    let mut places = Vec::new(alloc);
    for i in 0..order.len() {
        let bank = (order[i].operation.address % tiles) as usize;
        let place = counts[bank];
        places.push(place)?;
        counts[bank] = place + 1;
    }
    Ok(places)
}

/// The service of one operation, of the bank, the place and the number of the service.
fn service<A: Allocator>(
    trace: &TraceText<A>,
    times: &[Times],
    waits: &[u32],
    call: Call,
    reply: Reply,
    bank: u32,
    place: u32,
    served: u32,
) -> Service
    requires rising { NeverFalls waits.now }
    requires few { length waits.now ≤ 65536 }
    requires low { AreLowTimes times.now }
    ensures { result
        ≡ service_with trace.now.issued times.now waits.now call bank reply place served }
{
    let issued = issued_call(trace.issued(), call.id);
    let time = time_of(times, call.id);
    Service {
        processor: issued.processor,
        index: issued.index,
        operation: call.operation,
        reply,
        bank,
        place,
        issued: number_behind(waits, time.issued),
        served,
        answered: answer_number(waits, time.answered),
    }
}

/// The services of an order, from the replies, the places and the waits of its operations.
pub(crate) fn services_with<A: Allocator + Copy>(
    alloc: A,
    trace: &TraceText<A>,
    tiles: u32,
    times: &[Times],
    order: &[Call],
    told: &[Reply],
    places: &[u32],
    waits: &[u32],
) -> Result<Vec<Service, A>, AllocError>
    requires some { 0 < tiles }
    requires few { length order.now ≤ 65536 }
    requires low { AreLowTimes times.now }
    requires replies { told.now ≡ replies (operations_of order.now) (opening_of trace.now) }
    requires places { places.now
        ≡ map (service_place tiles order.now) (range_with_len 0 (length order.now)) }
    requires waits { waits.now ≡ waits_of times.now order.now }
    ensures { IfOk result
        (λ services. services.items ≡ services_told trace.now tiles times.now order.now) }
{
    let mut services = Vec::new(alloc);
    for i in 0..order.len() {
        let call = order[i];
        let bank = call.operation.address % tiles;
        let number = waits[i] + i as u32 + 1;
        let made = service(trace, times, waits, call, told[i], bank, places[i], number);
        services.push(made)?;
    }
    Ok(services)
}
