//! What a machine does for a line of a dialogue.

ghost use Rattle.std.specs.Prelude.{◌≡◌, ◌⊎◌, ◌∷◌, ◌++◌, [], IfOk, Ok, codes, drop, slice_get};
ghost use Rattle.std.specs.String.{string_bytes};
ghost use Rattle.hex.specs.Hex.{decode_of, encode_lower};
ghost use Rattle.core_laws.specs.Machine.{RunsOn, core_after, shown};
ghost use Rattle.machine_asked.specs.Rounds.{rounds_of};
ghost use Rattle.command_live.specs.Records.{IsTheText, LoadsRecord, SavesKept, told_unrestored};
ghost use Rattle.command_live.specs.Records.{told_unspelled};
ghost use Rattle.command_live.specs.Obeying.{AsksMachine, MakesKeptFair, MakesKeptRounds};
ghost use Rattle.command_live.specs.Obeying.{MakesStep, Obeys};
ghost use Rattle.command_live.specs.Obeying.{ReopensMachine, Reports, TellsOrder, WaitsFor};
ghost use Rattle.command_live.specs.Obeying.{is_move, told_word};

use crate::rows::{rows_from, rows_text};
use crate::said::Said;
use crate::{Command, Told};
use hex::FromHexError;
use machine_asked::laws::reopened_machines_go_on;
use machine_record::{RecordedMachine, Unrestored};
use machine_report::of_run;
use script::Line;
use std::alloc::{AllocError, Allocator};
use torus::{Fault, Step, Stepped};

/// Hands a processor a line.
fn asked<A: Allocator>(machine: &mut RecordedMachine<A>, processor: u32, line: Line) -> Told
    ensures { AsksMachine processor line machine.old machine.new result }
{
    match machine.ask(processor, line) {
        Ok(index) => Told::Asked(processor, index),
        Err(fault) => Told::Refused(fault),
    }
}

/// Whether a step moved.
fn is_move(stepped: Stepped) -> bool
    ensures { result ≡ is_move stepped }
{
    match stepped {
        Stepped::Moved => true,
        Stepped::Idle => false,
    }
}

/// Attempts one choice of one agent.
fn stepped<A: Allocator>(machine: &mut RecordedMachine<A>, step: Step) -> Told
    ensures { MakesStep step machine.old machine.new result }
{
    Told::Moved(is_move(machine.step(step)))
}

/// Makes so many rounds.
fn made<A: Allocator>(machine: &mut RecordedMachine<A>, count: u32) -> Told
    ensures { MakesKeptRounds count machine.old machine.new result }
{
    machine.rounds(count);
    Told::Rounds(u64::from(count))
}

/// Makes fair rounds until every script is finished, at most so many.
fn clocked<A: Allocator>(machine: &mut RecordedMachine<A>, most: u32) -> Told
    ensures { MakesKeptFair most machine.old machine.new result }
{
    Told::Rounds(machine.fair_rounds(u64::from(most)))
}

/// Makes rounds until an operation has its answer, or every script is finished.
fn waited<A: Allocator>(machine: &mut RecordedMachine<A>, processor: u32, index: u32) -> Told
    ensures { WaitsFor processor index machine.old machine.new result }
{
    let Some(count) = machine.asked().operations(processor) else {
        return Told::Refused(Fault::Processor);
    };
    if index >= count {
        return Told::Refused(Fault::Range);
    }
    machine.wait(processor, index);
    match machine.asked().answer_to(processor, index) {
        Some(answer) => Told::Answered(processor, index, answer.reply),
        None => Told::Idle,
    }
}

/// Makes rounds until every script is finished, and puts a machine that goes on there in the place of this one.
fn reopened<A: Allocator + Copy>(alloc: A, machine: &mut RecordedMachine<A>) -> Told
    ensures { ReopensMachine machine.old machine.new result }
{
    let rounds = machine.finish();
    reopened_machines_go_on();
    match machine.reopened(alloc) {
        Ok(next) => {
            *machine = next;
            Told::Rounds(rounds)
        }
        Err(AllocError) => Told::Refused(Fault::Memory),
    }
}

/// The word at an address, or that the memory has none there.
fn word_at<A: Allocator>(machine: &RecordedMachine<A>, address: u32) -> Told
    ensures { result ≡ told_word address (slice_get (shown machine.now.asked.core).memory address) }
{
    match machine.machine().word(address) {
        Some(word) => Told::Word(address, word),
        None => Told::Refused(Fault::Address),
    }
}

/// The rows of the order of operations, from the one of a number on.
fn ordered<A: Allocator + Copy>(alloc: A, machine: &RecordedMachine<A>, from: u32) -> Said<A>
    ensures { TellsOrder from machine.now.asked result }
{
    match rows_text(alloc, rows_from(machine.machine().rows(), from)) {
        Ok(lines) => Said::Lines(lines),
        Err(AllocError) => Said::Told(Told::Refused(Fault::Memory)),
    }
}

/// The report of the run so far.
fn reported<A: Allocator + Copy>(alloc: A, machine: &RecordedMachine<A>) -> Said<A>
    ensures { Reports machine.now.asked result }
{
    match of_run(alloc, machine.machine()) {
        Ok(report) => Said::Report(report),
        Err(_) => Said::Told(Told::Refused(Fault::Memory)),
    }
}

/// The line of a record's bytes.
fn saved_line<A: Allocator + Copy>(alloc: A, bytes: &[u8]) -> Result<String<A>, AllocError>
    ensures { IfOk result (λ line. string_bytes line
        ≡ codes "saved " ++ encode_lower bytes.now ++ 10 ∷ []) }
{
    let digits = hex::encode(alloc, bytes)?;
    let mut line = String::from_str(alloc, "saved ")?;
    line.push_str(digits.as_str())?;
    line.push_str("\n")?;
    Ok(line)
}

/// Digits that are made of bytes spell these bytes.
fn digits_spell(bytes: &[u8])
    ensures { decode_of (encode_lower bytes.now) ≡ Ok bytes.now }
{}

/// The line of a record, whose bytes make the machine again.
fn told_record<A: Allocator + Copy>(alloc: A, bytes: &[u8]) -> Said<A>
    ensures line { IsTheText (codes "saved " ++ encode_lower bytes.now ++ 10 ∷ []) result
        ⊎ (result ≡ Said.Told (Told.Refused Fault.Memory)) }
    ensures back { decode_of (encode_lower bytes.now) ≡ Ok bytes.now }
{
    digits_spell(bytes);
    match saved_line(alloc, bytes) {
        Ok(line) => Said::Lines(line),
        Err(AllocError) => Said::Told(Told::Refused(Fault::Memory)),
    }
}

/// The machine's record.
#[tactic(auto, using(crate::proofs::Saved::tells_kept, crate::proofs::Saved::tells_none))]
fn saved<A: Allocator + Copy>(alloc: A, machine: &RecordedMachine<A>) -> Said<A>
    ensures { SavesKept machine.now result }
{
    match machine.saved(alloc) {
        Ok(Some(bytes)) => told_record(alloc, &bytes),
        Ok(None) => Said::Told(Told::NoRecord),
        Err(AllocError) => Said::Told(Told::Refused(Fault::Memory)),
    }
}

/// Why bytes make no machine.
fn told_unrestored(why: Unrestored) -> Told
    ensures { result ≡ told_unrestored why }
{
    match why {
        Unrestored::Memory => Told::Refused(Fault::Memory),
        Unrestored::At(place) => Told::BadByte(place),
        Unrestored::Action(number) => Told::BadAction(number),
        Unrestored::Text(fault) => Told::BadText(fault),
    }
}

/// Why digits, of which there are so many, spell no bytes.
fn told_unspelled(count: usize, why: FromHexError) -> Told
    ensures { result ≡ told_unspelled count why }
{
    match why {
        FromHexError::InvalidHexCharacter { index, .. } => Told::BadByte(index as u64 / 2),
        FromHexError::OutOfMemory => Told::Refused(Fault::Memory),
        FromHexError::OddLength => Told::BadByte(count as u64 / 2),
        FromHexError::InvalidStringLength => Told::BadByte(count as u64 / 2),
    }
}

/// Puts the machine of a record's digits in the place of this one.
fn loaded<A: Allocator + Copy>(alloc: A, machine: &mut RecordedMachine<A>, digits: &[u8]) -> Told
    ensures { LoadsRecord digits.now machine.old machine.new result }
{
    let bytes = match hex::decode(alloc, digits) {
        Ok(bytes) => bytes,
        Err(why) => return told_unspelled(digits.len(), why),
    };
    match RecordedMachine::restore(alloc, &bytes) {
        Ok(made) => {
            *machine = made;
            Told::Loaded
        }
        Err(why) => told_unrestored(why),
    }
}

/// Does what a line asks for, which may come with the digits of a record, and tells what is answered.
pub fn obey<A: Allocator + Copy>(
    alloc: A,
    machine: &mut RecordedMachine<A>,
    command: Command,
    digits: &[u8],
) -> Said<A>
    ensures { Obeys command digits.now machine.old machine.new result }
{
    match command {
        Command::Nothing => Said::Told(Told::Nothing),
        Command::Ask(processor, line) => Said::Told(asked(machine, processor, line)),
        Command::Step(step) => Said::Told(stepped(machine, step)),
        Command::Rounds(count) => Said::Told(made(machine, count)),
        Command::Clocked(most) => Said::Told(clocked(machine, most)),
        Command::Wait(processor, index) => Said::Told(waited(machine, processor, index)),
        Command::Finish => Said::Told(Told::Rounds(machine.finish())),
        Command::Finished => Said::Told(Told::Finished(machine.machine().finished())),
        Command::Word(address) => Said::Told(word_at(machine, address)),
        Command::Order(from) => ordered(alloc, machine, from),
        Command::Report => reported(alloc, machine),
        Command::Reopen => Said::Told(reopened(alloc, machine)),
        Command::Save => saved(alloc, machine),
        Command::Load => Said::Told(loaded(alloc, machine, digits)),
        Command::Quit => Said::Told(Told::Nothing),
        Command::Refused(fault) => Said::Told(Told::Refused(fault)),
        Command::Bad => Said::Told(Told::BadLine),
    }
}
