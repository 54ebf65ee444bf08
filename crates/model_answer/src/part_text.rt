//! The log text of a part of a log.

ghost use Rattle.std.specs.Prelude.{◌≡◌, ◌++◌, IfOk, OnOk};
ghost use Rattle.std.specs.List.{concat, flat_map};
ghost use Rattle.model_text.specs.declared.logged.Source.TheVariants.{Write};
ghost use Rattle.model_text.specs.InsideRows.{rows_now};
ghost use Rattle.model_text.specs.Views.{log_so_far};
ghost use Rattle.model_answer.specs.PartText.{depends_line, head_text, index_of, kind_text, log_text};
ghost use Rattle.model_answer.specs.PartText.{made_line, read_line, source_line, wrote_line};

use crate::part_words::{index_of, put_behind, put_named};
use crate::text::{put, put_fence_or_operation, put_number};
use model_text::trace::logged_at;
use model_text::{Log, Source};
use std::alloc::{AllocError, Allocator};
use weak_models::{Dependency, DependencyKind};

/// Adds the line of an operation.
fn put_made<A: Allocator>(text: &mut Vec<u8, A>, log: &Log<A>, n: usize) -> Result<(), AllocError>
    ensures { OnOk result (text.new.items ≡ text.old.items ++ made_line (log_so_far log.now) n) }
{
    let logged = logged_at(&log.made, n);
    let note = log.notes.get(&n).copied();
    put(text, b"made ")?;
    put_number(text, u64::from(logged.processor))?;
    put(text, b" ")?;
    put_fence_or_operation(text, logged.operation)?;
    put_behind(text, log, n, note, logged.operation)?;
    put(text, b"\n")
}

/// Adds the line of the next write of its word.
fn put_wrote<A: Allocator>(text: &mut Vec<u8, A>, log: &Log<A>, n: usize) -> Result<(), AllocError>
    ensures { OnOk result (text.new.items ≡ text.old.items ++ wrote_line (log_so_far log.now) n) }
{
    put(text, b"wrote ")?;
    put_named(text, log, n)?;
    put(text, b"\n")
}

/// Adds the line that says that a load read what an operation wrote.
fn put_from<A: Allocator>(
    text: &mut Vec<u8, A>,
    log: &Log<A>,
    n: usize,
    write: usize,
) -> Result<(), AllocError>
    ensures { OnOk result (text.new.items ≡ text.old.items
        ++ source_line (log_so_far log.now) n (Write write)) }
{
    put(text, b"read ")?;
    put_named(text, log, n)?;
    put(text, b" from ")?;
    put_named(text, log, write)?;
    put(text, b"\n")
}

/// Adds the line that says what a load read; nothing of other operations.
fn put_read<A: Allocator>(text: &mut Vec<u8, A>, log: &Log<A>, n: usize) -> Result<(), AllocError>
    ensures { OnOk result (text.new.items ≡ text.old.items ++ read_line (log_so_far log.now) n) }
{
    match logged_at(&log.made, n).source {
        Source::Untold => Ok(()),
        Source::Own => Ok(()),
        Source::Last => Ok(()),
        Source::Opening => {
            put(text, b"read ")?;
            put_named(text, log, n)?;
            put(text, b" opening\n")
        }
        Source::Write(write) => put_from(text, log, n, write),
    }
}

/// Adds the words of a kind of dependency.
fn put_kind<A: Allocator>(text: &mut Vec<u8, A>, kind: DependencyKind) -> Result<(), AllocError>
    ensures { OnOk result (text.new.items ≡ text.old.items ++ kind_text kind) }
{
    match kind {
        DependencyKind::Address => put(text, b" address\n"),
        DependencyKind::Data => put(text, b" data\n"),
        DependencyKind::Control => put(text, b" control\n"),
    }
}

/// Adds the line of a dependency.
fn put_depends<A: Allocator>(
    text: &mut Vec<u8, A>,
    log: &Log<A>,
    dependency: Dependency,
) -> Result<(), AllocError>
    ensures { OnOk result (text.new.items ≡ text.old.items
        ++ depends_line (log_so_far log.now) dependency) }
{
    put(text, b"depends ")?;
    put_named(text, log, dependency.operation)?;
    put(text, b" on ")?;
    put_number(text, index_of(log, dependency.on) as u64)?;
    put_kind(text, dependency.kind)
}

/// Adds the lines of operations.
fn put_all_made<A: Allocator>(
    text: &mut Vec<u8, A>,
    log: &Log<A>,
    numbers: &[usize],
) -> Result<(), AllocError>
    ensures { OnOk result (text.new.items ≡ text.old.items
        ++ flat_map (made_line (log_so_far log.now)) numbers.now) }
{
    for i in 0..numbers.len() {
        put_made(text, log, numbers[i])?;
    }
    Ok(())
}

/// Adds the lines of writes, each of which is the next one of its word.
fn put_all_wrote<A: Allocator>(
    text: &mut Vec<u8, A>,
    log: &Log<A>,
    numbers: &[usize],
) -> Result<(), AllocError>
    ensures { OnOk result (text.new.items ≡ text.old.items
        ++ flat_map (wrote_line (log_so_far log.now)) numbers.now) }
{
    for i in 0..numbers.len() {
        put_wrote(text, log, numbers[i])?;
    }
    Ok(())
}

/// Adds the lines that say what loads read.
fn put_all_read<A: Allocator>(
    text: &mut Vec<u8, A>,
    log: &Log<A>,
    numbers: &[usize],
) -> Result<(), AllocError>
    ensures { OnOk result (text.new.items ≡ text.old.items
        ++ flat_map (read_line (log_so_far log.now)) numbers.now) }
{
    for i in 0..numbers.len() {
        put_read(text, log, numbers[i])?;
    }
    Ok(())
}

/// Adds the lines of dependencies.
fn put_all_depends<A: Allocator>(
    text: &mut Vec<u8, A>,
    log: &Log<A>,
    dependencies: &[Dependency],
) -> Result<(), AllocError>
    ensures { OnOk result (text.new.items ≡ text.old.items
        ++ flat_map (depends_line (log_so_far log.now)) dependencies.now) }
{
    for i in 0..dependencies.len() {
        put_depends(text, log, dependencies[i])?;
    }
    Ok(())
}

/// Adds the lines of a head with so many words.
fn put_head<A: Allocator>(text: &mut Vec<u8, A>, words: u64) -> Result<(), AllocError>
    ensures { OnOk result (text.new.items ≡ text.old.items ++ head_text words) }
{
    put(text, b"log 1\nwords ")?;
    put_number(text, words)?;
    put(text, b"\n")?;
    Ok(())
}

/// The text of a log over so many words: its operations, the order of each word's writes, what loads read,
/// and dependencies; neither replies nor opening words, of which models say nothing.
///
/// Errors: memory.
pub(crate) fn log_text<A: Allocator + Copy>(
    alloc: A,
    words: u64,
    log: &Log<A>,
) -> Result<Vec<u8, A>, AllocError>
    ensures { IfOk result (λ text. text.items ≡ log_text words (log_so_far log.now)) }
{
    let mut text = Vec::new(alloc);
    let numbers = log.rows.joined(alloc)?;
    let writes = log.orders.joined(alloc)?;
    put_head(&mut text, words)?;
    put_all_made(&mut text, log, &numbers)?;
    put_all_wrote(&mut text, log, &writes)?;
    put_all_read(&mut text, log, &numbers)?;
    put_all_depends(&mut text, log, &log.dependencies)?;
    Ok(text)
}
