//! What a line of a log says, and what it makes of what the lines before it gave.

ghost use Rattle.std.specs.Prelude.{◌≡◌, ◌==◌, length, not};
ghost use Rattle.lexer.specs.Outcome.{Makes};
ghost use Rattle.trace_lines.specs.Head.{init_read};
ghost use Rattle.model_text.specs.Lines.{head_logged};
ghost use Rattle.model_text.specs.Views.{log_so_far};
ghost use Rattle.report_model.specs.LogEntries.{after_entry, fence_made, operation_made};
ghost use Rattle.report_model.specs.LogEntries.{found_named, wrote, read_from, opening_read, entry_served, entry_replied};
ghost use Rattle.report_model.specs.LogEntries.{reply_told};

use model_text::sources::Found;
use model_text::{Log, LogReason, Logged, Source};
use packet::{Operation, Reply};
use std::alloc::Allocator;
use trace_lines::LineReason;

/// An operation, by who made it.
#[derive(Clone, Copy)]
pub struct Named {
    /// The processor that made it, below 4096.
    pub processor: u32,
    /// Which of the processor's operations it is, from 0, fences too.
    pub index: u32,
}

/// What a line of a log says.
#[derive(Clone, Copy)]
pub enum LogEntry {
    /// An address and its opening word. All of these stand in front.
    Init(u32, u64),
    /// The next operation in a processor's program; `None` for a fence.
    Made(u32, Option<Operation>),
    /// An operation wrote next on its word.
    Wrote(Named),
    /// A load read what an operation wrote.
    Read(Named, Named),
    /// A load read the opening word.
    ReadOpening(Named),
    /// A load read what the last operation above wrote on its word.
    Served(Named),
    /// An operation replied.
    Replied(Named, Reply),
}

/// An entry with the line that says it, where entries are those of a text.
#[derive(Clone, Copy)]
pub struct LineEntry {
    /// The line, from 1.
    pub line: u64,
    pub entry: LogEntry,
}

/// The number that a reply carries; none for `ok`.
fn reply_told(reply: Reply) -> Option<u128>
    ensures { result ≡ reply_told reply }
{
    match reply {
        Reply::Ok => None,
        Reply::Old(word) => Some(u128::from(word)),
    }
}

/// The operation that is named.
fn found_named<A: Allocator + Copy>(log: &Log<A>, name: Named) -> Result<Found, LogReason>
    ensures { result ≡ found_named (log_so_far log.now) name }
{
    log.found(u128::from(name.processor), u128::from(name.index))
}

/// Takes an opening word.
fn take_init<A: Allocator + Copy>(
    log: &mut Log<A>,
    address: u32,
    word: u64,
) -> Result<(), LogReason>
    ensures { Makes (LogReason.Line LineReason.Memory) (log_so_far log.new) result
        (head_logged (log_so_far log.old) (init_read log.old.head
        (not (length log.old.made.items == 0)) address word)) }
{
    let late = !log.made.is_empty();
    log.head
        .set_word(late, u128::from(address), u128::from(word))?;
    Ok(())
}

/// Takes a fence.
fn take_fence<A: Allocator + Copy>(log: &mut Log<A>, line: u64, p: u32) -> Result<(), LogReason>
    ensures { Makes (LogReason.Line LineReason.Memory) (log_so_far log.new) result
        (fence_made (log_so_far log.old) line p) }
{
    let processor = log.head.processor(u128::from(p))?;
    log.add_logged(Logged {
        line,
        processor,
        operation: None,
        word: 0,
        source: Source::Own,
        told: None,
    })
}

/// Takes an operation.
fn take_operation<A: Allocator + Copy>(
    log: &mut Log<A>,
    alloc: A,
    line: u64,
    p: u32,
    operation: Operation,
) -> Result<(), LogReason>
    ensures { Makes (LogReason.Line LineReason.Memory) (log_so_far log.new) result
        (operation_made (log_so_far log.old) line p operation) }
{
    let processor = log.head.processor(u128::from(p))?;
    if u64::from(operation.address) >= log.head.words() {
        let words = log.head.words();
        return Err(LogReason::Line(LineReason::AddressLimits(3, words)));
    }
    log.add_operation(alloc, line, processor, operation)
}

/// Takes a write.
fn take_wrote<A: Allocator + Copy>(log: &mut Log<A>, name: Named) -> Result<(), LogReason>
    ensures { Makes (LogReason.Line LineReason.Memory) (log_so_far log.new) result
        (wrote (log_so_far log.old) name) }
{
    let found = found_named(log, name)?;
    log.add_write(found)
}

/// Takes a load and the write that it read.
fn take_read<A: Allocator + Copy>(
    log: &mut Log<A>,
    load: Named,
    write: Named,
) -> Result<(), LogReason>
    ensures { Makes (LogReason.Line LineReason.Memory) (log_so_far log.new) result
        (read_from (log_so_far log.old) load write) }
{
    let load = found_named(log, load)?;
    let write = found_named(log, write)?;
    log.read_write(load, write)
}

/// Takes a load that read the opening word.
fn take_opening<A: Allocator + Copy>(log: &mut Log<A>, name: Named) -> Result<(), LogReason>
    ensures { Makes (LogReason.Line LineReason.Memory) (log_so_far log.new) result
        (opening_read (log_so_far log.old) name) }
{
    let found = found_named(log, name)?;
    log.add_source(found, Source::Opening)
}

/// Takes a load that comes behind the writes of its word so far.
fn take_served<A: Allocator + Copy>(log: &mut Log<A>, name: Named) -> Result<(), LogReason>
    ensures { Makes (LogReason.Line LineReason.Memory) (log_so_far log.new) result
        (entry_served (log_so_far log.old) name) }
{
    let found = found_named(log, name)?;
    log.add_served(found)
}

/// Takes a reply.
fn take_replied<A: Allocator + Copy>(
    log: &mut Log<A>,
    line: u64,
    name: Named,
    reply: Reply,
) -> Result<(), LogReason>
    ensures { Makes (LogReason.Line LineReason.Memory) (log_so_far log.new) result
        (entry_replied (log_so_far log.old) line name reply) }
{
    let found = found_named(log, name)?;
    log.add_reply(line, found, reply_told(reply))
}

/// Takes an entry, the one of this number.
pub(crate) fn take<A: Allocator + Copy>(
    log: &mut Log<A>,
    alloc: A,
    line: u64,
    entry: LogEntry,
) -> Result<(), LogReason>
    ensures { Makes (LogReason.Line LineReason.Memory) (log_so_far log.new) result
        (after_entry (log_so_far log.old) line entry) }
{
    match entry {
        LogEntry::Init(address, word) => take_init(log, address, word),
        LogEntry::Made(p, None) => take_fence(log, line, p),
        LogEntry::Made(p, Some(operation)) => take_operation(log, alloc, line, p, operation),
        LogEntry::Wrote(name) => take_wrote(log, name),
        LogEntry::Read(load, write) => take_read(log, load, write),
        LogEntry::ReadOpening(name) => take_opening(log, name),
        LogEntry::Served(name) => take_served(log, name),
        LogEntry::Replied(name, reply) => take_replied(log, line, name, reply),
    }
}
