//! The contents of the report of some services.

ghost use Rattle.std.specs.Prelude.{◌≡◌, ◌<◌, ◌≤◌, ℕ, IfOk, Some, map, slice_get};
ghost use Rattle.report_lines.specs.Contents.{items_of};
ghost use Rattle.trace_answer.specs.Contents.{answer_of_service, answers_at, answers_of_services};
ghost use Rattle.trace_answer.specs.Contents.{is_answered_to};
ghost use Rattle.trace_answer.specs.Contents.{entries_of_bank, entries_of, entry_of_service};
ghost use Rattle.trace_answer.specs.Contents.{is_at_bank};
ghost use Rattle.trace_answer.specs.Contents.{all_answered, service_line};
ghost use Rattle.trace_answer.specs.declared.service.Service.{Service};
ghost use Rattle.trace_text.specs.Traced.{opening_of};

use crate::service::Service;
use crate::times::Times;
use report_lines::{AnswerRow, EntryRow, OrderLine};
use std::alloc::{AllocError, Allocator};
use trace_text::TraceText;

/// The words that a trace opens with, by address.
pub(crate) fn opening_words<A: Allocator + Copy>(
    alloc: A,
    trace: &TraceText<A>,
) -> Result<Vec<u64, A>, AllocError>
    requires { trace.now.words ≤ 65536 }
    ensures { IfOk result (λ words. words.items ≡ opening_of trace.now) }
{
    let mut words = Vec::new(alloc);
    for address in 0..trace.words() as u32 {
        words.push(trace.opening(address))?;
    }
    Ok(words)
}

/// The entry of a service.
fn entry_of_service(service: &Service) -> EntryRow
    ensures { result ≡ entry_of_service service.now }
{
    EntryRow {
        source: service.processor,
        tag: 0,
        address: service.operation.address,
        op: service.operation.op,
        reply: service.reply,
    }
}

/// Whether a service is one of a bank.
fn is_at_bank(bank: u32, service: &Service) -> bool
    ensures { result ≡ is_at_bank bank service.now }
{
    service.bank == bank
}

/// The entries of a bank.
fn entries_of_bank<A: Allocator + Copy>(
    alloc: A,
    services: &[Service],
    bank: u32,
) -> Result<Vec<EntryRow, A>, AllocError>
    ensures { IfOk result (λ rows. rows.items ≡ entries_of_bank services.now bank) }
{
    let mut rows = Vec::new(alloc);
    for i in 0..services.len() {
        let service = services[i];
        if is_at_bank(bank, &service) {
            rows.push(entry_of_service(&service))?;
        }
    }
    Ok(rows)
}

/// The entries of each of so many banks.
pub(crate) fn entries_of<A: Allocator + Copy>(
    alloc: A,
    services: &[Service],
    tiles: u32,
) -> Result<Vec<Vec<EntryRow, A>, A>, AllocError>
    ensures { IfOk result (λ banks. items_of banks.items ≡ entries_of tiles services.now) }
{
    let mut banks = Vec::new(alloc);
    for bank in 0..tiles {
        banks.push(entries_of_bank(alloc, services, bank)?)?;
    }
    Ok(banks)
}

/// The answer to a service.
fn answer_of_service(service: &Service) -> AnswerRow
    requires { service.now.index < 4096 }
    ensures { result ≡ answer_of_service service.now }
{
    AnswerRow {
        index: service.index as u32,
        bank: service.bank,
        place: service.place,
        reply: service.reply,
    }
}

/// Whether a service is one of a processor, and answered.
fn is_answered_to(processor: u32, service: &Service) -> bool
    ensures { result ≡ is_answered_to processor service.now }
{
    service.processor == processor && service.answered.is_some()
}

/// The answers of a processor.
fn answers_at<A: Allocator + Copy>(
    alloc: A,
    services: &[Service],
    processor: u32,
) -> Result<Vec<AnswerRow, A>, AllocError>
    requires { (k : ℕ) (s : Service) → slice_get services.now k ≡ Some s → s.index < 4096 }
    ensures { IfOk result (λ rows. rows.items ≡ answers_at services.now processor) }
{
    let mut rows = Vec::new(alloc);
    for i in 0..services.len() {
        let service = services[i];
        if is_answered_to(processor, &service) {
            rows.push(answer_of_service(&service))?;
        }
    }
    Ok(rows)
}

/// The answers of each of so many processors.
pub(crate) fn answers_of_services<A: Allocator + Copy>(
    alloc: A,
    services: &[Service],
    tiles: u32,
) -> Result<Vec<Vec<AnswerRow, A>, A>, AllocError>
    requires { (k : ℕ) (s : Service) → slice_get services.now k ≡ Some s → s.index < 4096 }
    ensures { IfOk result (λ all. items_of all.items ≡ answers_of_services tiles services.now) }
{
    let mut all = Vec::new(alloc);
    for processor in 0..tiles {
        all.push(answers_at(alloc, services, processor)?)?;
    }
    Ok(all)
}

/// The events of a service.
fn service_line(service: &Service) -> OrderLine
    ensures { result ≡ service_line service.now }
{
    OrderLine {
        bank: service.bank,
        place: service.place,
        issued: service.issued,
        served: service.served,
        answered: service.answered,
    }
}

/// The events of each service.
pub(crate) fn order_lines<A: Allocator + Copy>(
    alloc: A,
    services: &[Service],
) -> Result<Vec<OrderLine, A>, AllocError>
    ensures { IfOk result (λ lines. lines.items ≡ map service_line services.now) }
{
    let mut lines = Vec::new(alloc);
    for service in services {
        lines.push(service_line(service))?;
    }
    Ok(lines)
}

/// Whether each operation has an answer.
pub(crate) fn all_answered(times: &[Times]) -> bool
    ensures { result ≡ all_answered times.now }
{
    for i in 0..times.len() {
        if times[i].answered.is_none() {
            return false;
        }
    }
    true
}
