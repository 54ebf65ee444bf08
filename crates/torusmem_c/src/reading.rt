//! What there is to tell of the machine that a handle holds: nothing of it changes.

ghost use Rattle.std.specs.Prelude.{◌≡◌, None, length};
ghost use Rattle.core_laws.specs.Row.{row_of};
ghost use Rattle.c_handles.specs.HeldMachine.{held};
ghost use Rattle.core_laws.specs.Machine.{built_to};
ghost use Rattle.torusmem_c.specs.Room.{put_over, put_outcome};
ghost use Rattle.torusmem_c.specs.Held.{OfHeld, OnHeld, HandleTells};
ghost use Rattle.torusmem_c.specs.Records.{no_answer, no_entry};
ghost use Rattle.torusmem_c.specs.Shown.{PutsRow, answer_of_told, answer_told, answers_told};
ghost use Rattle.torusmem_c.specs.Shown.{entries_told, entry_told, next_told};
ghost use Rattle.torusmem_c.specs.Shown.{number_outcome, row_told, tiles_told, memory_word_told, words_told};
ghost use Rattle.torusmem_c.specs.declared.outcome.Code.TheVariants as code;

use crate::outcome::{Code, Outcome};
use crate::ports::next_number;
use crate::records::{AnswerRecord, EntryRecord};
use c_handles::MachineHandle;
use machine_asked::AskedMachine;
use machine_report::Machine;

/// A number, or that there is none such.
fn number_outcome(found: Option<u64>) -> Outcome
    ensures { result ≡ number_outcome found }
{
    match found {
        Some(number) => Outcome::done(number),
        None => Outcome::no_such(),
    }
}

/// How many tiles there are.
#[unsafe(no_mangle)]
pub extern "C" fn torusmem_tiles(handle: &mut MachineHandle) -> Outcome
    ensures { OnHeld (HandleTells tiles_told) (held handle.old) (held handle.new) result }
{
    match handle.machine() {
        Some(machine) => Outcome::done(u64::from(machine.machine().torus().tiles())),
        None => Outcome::empty(),
    }
}

/// How many words there are.
#[unsafe(no_mangle)]
pub extern "C" fn torusmem_words(handle: &mut MachineHandle) -> Outcome
    ensures { OnHeld (HandleTells words_told) (held handle.old) (held handle.new) result }
{
    match handle.machine() {
        Some(machine) => Outcome::done(u64::from(machine.machine().words())),
        None => Outcome::empty(),
    }
}

/// The word of an address.
#[unsafe(no_mangle)]
pub extern "C" fn torusmem_word(handle: &mut MachineHandle, address: u32) -> Outcome
    ensures { OnHeld (HandleTells (memory_word_told address)) (held handle.old) (held handle.new)
        result }
{
    match handle.machine() {
        Some(machine) => number_outcome(machine.machine().word(address)),
        None => Outcome::empty(),
    }
}

/// The word at a place of the row: the places of the channels, the memory, the done word.
#[unsafe(no_mangle)]
pub extern "C" fn torusmem_row(handle: &mut MachineHandle, at: u32) -> Outcome
    ensures { OnHeld (HandleTells (row_told at)) (held handle.old) (held handle.new) result }
{
    match handle.machine() {
        Some(machine) => number_outcome(machine.machine().row(at)),
        None => Outcome::empty(),
    }
}

/// Puts the whole row into a buffer, and answers how many words it has.
#[unsafe(no_mangle)]
pub extern "C" fn torusmem_rows(handle: &mut MachineHandle, out: &mut [u64]) -> Outcome
    ensures held { OnHeld (PutsRow out.old out.new) (held handle.old) (held handle.new) result }
    ensures empty { held handle.old ≡ None → out.new ≡ out.old }
{
    match handle.machine() {
        Some(machine) => put_row(machine.machine(), out),
        None => Outcome::empty(),
    }
}

/// Puts the words of the row at the front of a buffer, and answers how many they are; where the buffer
/// is too short for all, it stays as it was.
fn put_row(machine: &Machine, out: &mut [u64]) -> Outcome
    ensures buffer { out.new ≡ put_over (row_of (built_to machine.now) machine.now.state) out.old }
    ensures value { result ≡ put_outcome (row_of (built_to machine.now) machine.now.state) out.old }
{
    let count = row_length(machine);
    if count as usize > out.len() {
        return Outcome::of(Code::Short, u64::from(count));
    }
    for at in 0..count {
        out[at as usize] = machine.row(at).unwrap_or(0);
    }
    Outcome::done(u64::from(count))
}

/// How many words the row has: the first place at which it has none.
fn row_length(machine: &Machine) -> u32
    ensures { result ≡ length (row_of (built_to machine.now) machine.now.state) }
{
    machine.reached();
    let mut count = 0;
    while machine.row(count).is_some() {
        count += 1;
    }
    count
}

/// How many answers a processor has.
#[unsafe(no_mangle)]
pub extern "C" fn torusmem_answers(handle: &mut MachineHandle, processor: u32) -> Outcome
    ensures { OnHeld (HandleTells (answers_told processor)) (held handle.old) (held handle.new) result }
{
    match handle.machine() {
        Some(machine) => match machine.machine().answers(processor) {
            Some(answers) => Outcome::done(answers.len() as u64),
            None => Outcome::no_such(),
        },
        None => Outcome::empty(),
    }
}

/// Answer i of a processor, from 0 in the order of answering.
#[unsafe(no_mangle)]
pub extern "C" fn torusmem_answer_at(
    handle: &mut MachineHandle,
    processor: u32,
    i: u32,
) -> AnswerRecord
    ensures { OfHeld (no_answer code.Empty) (HandleTells (answer_told processor i)) (held handle.old)
        (held handle.new) result }
{
    match handle.machine() {
        Some(machine) => answer_of(machine.machine(), processor, i),
        None => AnswerRecord::none(Code::Empty),
    }
}

/// What C sees of answer i of a processor.
fn answer_of(machine: &Machine, processor: u32, i: u32) -> AnswerRecord
    ensures { result ≡ answer_told processor i machine.now }
{
    match machine.answers(processor) {
        Some(answers) => AnswerRecord::of_found(answers.get(i as usize).copied()),
        None => AnswerRecord::none(Code::NoSuch),
    }
}

/// The answer of a processor to its operation of this index, from 0 in the order of issue.
#[unsafe(no_mangle)]
pub extern "C" fn torusmem_answer_of(
    handle: &mut MachineHandle,
    processor: u32,
    index: u32,
) -> AnswerRecord
    ensures { OfHeld (no_answer code.Empty) (HandleTells (answer_of_told processor index))
        (held handle.old) (held handle.new) result }
{
    match handle.machine() {
        Some(machine) => answer_or_wait(machine.asked(), processor, index),
        None => AnswerRecord::none(Code::Empty),
    }
}

/// What C sees of the answer to an operation, or that there is none yet.
fn answer_or_wait(machine: &AskedMachine, processor: u32, index: u32) -> AnswerRecord
    ensures { result ≡ answer_of_told processor index machine.now.core }
{
    if let Some(answer) = machine.answer_to(processor, index) {
        return AnswerRecord::of_found(Some(answer));
    }
    match machine.operations(processor) {
        Some(most) if index < most => AnswerRecord::none(Code::NotYet),
        _ => AnswerRecord::none(Code::NoSuch),
    }
}

/// How many entries a bank has.
#[unsafe(no_mangle)]
pub extern "C" fn torusmem_entries(handle: &mut MachineHandle, bank: u32) -> Outcome
    ensures { OnHeld (HandleTells (entries_told bank)) (held handle.old) (held handle.new) result }
{
    match handle.machine() {
        Some(machine) => match machine.machine().bank(bank) {
            Some(entries) => Outcome::done(entries.len() as u64),
            None => Outcome::no_such(),
        },
        None => Outcome::empty(),
    }
}

/// Entry i of a bank, from 0 in the order of its services.
#[unsafe(no_mangle)]
pub extern "C" fn torusmem_entry_at(handle: &mut MachineHandle, bank: u32, i: u32) -> EntryRecord
    ensures { OfHeld (no_entry code.Empty) (HandleTells (entry_told bank i)) (held handle.old)
        (held handle.new) result }
{
    match handle.machine() {
        Some(machine) => entry_of(machine.machine(), bank, i),
        None => EntryRecord::none(Code::Empty),
    }
}

/// What C sees of entry i of a bank.
fn entry_of(machine: &Machine, bank: u32, i: u32) -> EntryRecord
    ensures { result ≡ entry_told bank i machine.now }
{
    match machine.bank(bank) {
        Some(entries) => EntryRecord::of_found(entries.get(i as usize).copied()),
        None => EntryRecord::none(Code::NoSuch),
    }
}

/// The number of the output at tile `at` by which a packet for tile `dst` goes on that came by this
/// input.
#[unsafe(no_mangle)]
pub extern "C" fn torusmem_next(
    handle: &mut MachineHandle,
    at: u32,
    input: u32,
    dst: u32,
) -> Outcome
    ensures { OnHeld (HandleTells (next_told at input dst)) (held handle.old) (held handle.new) result }
{
    match handle.machine() {
        Some(machine) => match next_number(machine.machine().torus(), at, input, dst) {
            Some(output) => Outcome::done(u64::from(output)),
            None => Outcome::no_such(),
        },
        None => Outcome::empty(),
    }
}
