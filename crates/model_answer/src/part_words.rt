//! What the log text of a part of a log says of an operation: its name, and its annotations.

ghost use Rattle.std.specs.Prelude.{◌≡◌, ◌++◌, OnOk};
ghost use Rattle.model_text.specs.Traces.{place_in};
ghost use Rattle.model_text.specs.Views.{log_so_far};
ghost use Rattle.model_answer.specs.PartText.{accesses_text, annotation_text, behind_text, fence_text};
ghost use Rattle.model_answer.specs.PartText.{has_pair, index_of, is_paired_in, is_reserved};
ghost use Rattle.model_answer.specs.PartText.{named_text, program_of, word_if};

use crate::text::{put, put_number};
use model_text::Log;
use model_text::trace::logged_at;
use packet::Operation;
use std::alloc::{AllocError, Allocator};
use weak_models::notes::{is_conditional, note_of};
use weak_models::{Accesses, FenceOrder, Note};

/// The first place of a number in a list, the list's length where it has none.
fn place_in(list: &[usize], n: usize) -> usize
    ensures { result ≡ place_in list.now n }
{
    for k in 0..list.len() {
        if list[k] == n {
            return k;
        }
    }
    list.len()
}

/// The operations of the processor of one, in program order.
fn program_of<A: Allocator>(log: &Log<A>, n: usize) -> &[usize]
    ensures { result.now ≡ program_of (log_so_far log.now) n }
{
    log.rows.row(logged_at(&log.made, n).processor as usize)
}

/// Which operation of its processor one is, from 0.
pub(crate) fn index_of<A: Allocator>(log: &Log<A>, n: usize) -> usize
    ensures { result ≡ index_of (log_so_far log.now) n }
{
    place_in(program_of(log, n), n)
}

/// Adds the processor and the index of an operation.
pub(crate) fn put_named<A: Allocator>(
    text: &mut Vec<u8, A>,
    log: &Log<A>,
    n: usize,
) -> Result<(), AllocError>
    ensures { OnOk result (text.new.items ≡ text.old.items ++ named_text (log_so_far log.now) n) }
{
    put_number(text, u64::from(logged_at(&log.made, n).processor))?;
    put(text, b" ")?;
    put_number(text, index_of(log, n) as u64)
}

/// Adds a word where it is wanted.
fn put_if<A: Allocator>(text: &mut Vec<u8, A>, wanted: bool, word: &[u8]) -> Result<(), AllocError>
    ensures { OnOk result (text.new.items ≡ text.old.items ++ word_if wanted word.now) }
{
    if wanted {
        return put(text, word);
    }
    Ok(())
}

/// Adds the word for some accesses.
fn put_accesses<A: Allocator>(text: &mut Vec<u8, A>, accesses: Accesses) -> Result<(), AllocError>
    ensures { OnOk result (text.new.items ≡ text.old.items ++ accesses_text accesses) }
{
    if !accesses.reads {
        return put(text, b" w");
    }
    if accesses.writes {
        put(text, b" rw")
    } else {
        put(text, b" r")
    }
}

/// Adds what a fence keeps in order.
fn put_fence<A: Allocator>(text: &mut Vec<u8, A>, order: FenceOrder) -> Result<(), AllocError>
    ensures { OnOk result (text.new.items ≡ text.old.items ++ fence_text order) }
{
    match order {
        FenceOrder::Tso => put(text, b" tso"),
        FenceOrder::Sets(before, behind) => {
            put_accesses(text, before)?;
            put_accesses(text, behind)
        }
    }
}

/// Whether an operation is a store conditional that is paired with a load.
fn is_paired_in<A: Allocator>(log: &Log<A>, n: usize, m: usize) -> bool
    ensures { result ≡ is_paired_in (log_so_far log.now) n m }
{
    let note = log.notes.get(&m).copied().unwrap_or(note_of(&[], 0));
    match note.pair {
        None => false,
        Some(load) => load == n,
    }
}

/// Whether one of some operations is a store conditional that is paired with a load.
fn has_pair<A: Allocator>(log: &Log<A>, n: usize, program: &[usize]) -> bool
    ensures { result ≡ has_pair (log_so_far log.now) n program.now }
{
    for i in 0..program.len() {
        if is_paired_in(log, n, program[i]) {
            return true;
        }
    }
    false
}

/// Whether a store conditional is paired with a load.
fn is_reserved<A: Allocator>(log: &Log<A>, n: usize) -> bool
    ensures { result ≡ is_reserved (log_so_far log.now) n }
{
    has_pair(log, n, program_of(log, n))
}

/// Adds what the line of an operation on a word says of it beside its kind.
fn put_annotation<A: Allocator>(
    text: &mut Vec<u8, A>,
    reserved: bool,
    note: Note,
) -> Result<(), AllocError>
    ensures { OnOk result (text.new.items ≡ text.old.items ++ annotation_text reserved note) }
{
    put_if(text, reserved, b" reserved")?;
    put_if(text, is_conditional(note), b" conditional")?;
    put_if(text, note.acquire, b" acquire")?;
    put_if(text, note.release, b" release")?;
    put_if(text, note.rcpc, b" rcpc")?;
    Ok(())
}

/// Adds what the line of an operation or a fence says of it beside its kind.
pub(crate) fn put_behind<A: Allocator>(
    text: &mut Vec<u8, A>,
    log: &Log<A>,
    n: usize,
    note: Option<Note>,
    step: Option<Operation>,
) -> Result<(), AllocError>
    ensures { OnOk result (text.new.items ≡ text.old.items
        ++ behind_text (log_so_far log.now) n note step) }
{
    match (note, step) {
        (None, _) => Ok(()),
        (Some(note), None) => put_fence(text, note.fence),
        (Some(note), Some(_)) => put_annotation(text, is_reserved(log, n), note),
    }
}
