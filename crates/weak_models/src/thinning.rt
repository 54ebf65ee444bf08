//! The thin graph of a trace: a guess, which is checked.

ghost use Rattle.std.specs.Prelude.{◌≡◌, ◌<◌, true, length};

use crate::lists::{at, set_at};
use crate::notes::{Dependency, Note, is_rcsc, note_of, reads};
use crate::rules::{is_atomic_source, read_of};
use crate::thin::{by_dependency, by_note, follow, helpers_of, through, when};
use memory_models::kinds::{is_write, uses_word};
use memory_models::{Kind, Operation};
use rising::Edge;
use std::alloc::{AllocError, Allocator};

/// How many edges of the thin graph an operation is the reason of, at most.
const MOST_OF_OPERATION: usize = 18;

/// How many a dependency is the reason of, at most.
const MOST_OF_DEPENDENCY: usize = 3;

/// How many edges the thin graph has at most, with so many edges that are there already.
fn most_edges(edges: usize, operations: usize, dependencies: usize) -> usize {
    edges
        .saturating_add(operations.saturating_mul(MOST_OF_OPERATION))
        .saturating_add(dependencies.saturating_mul(MOST_OF_DEPENDENCY))
}

/// Puts the edges that are wanted into a list, from a place on, as far as the list has places. The place
/// behind them is answered.
fn put(list: &mut [Edge], end: usize, found: &[Option<Edge>]) -> usize {
    let mut end = end;
    for k in 0..found.len() {
        if let Some(edge) = found[k]
            && end < list.len()
        {
            list[end] = edge;
            end += 1;
        }
    }
    end
}

/// Puts edges at the front of a list. The place behind them is answered.
fn put_all(list: &mut [Edge], edges: &[Edge]) -> usize {
    let mut end = 0;
    for k in 0..edges.len() {
        end = put(list, end, &[Some(edges[k])]);
    }
    end
}

/// Whether two operations are of one processor, the first one before the other; not so beyond the list.
fn is_own(operations: &[Operation], x: usize, y: usize) -> bool
    ensures { result ≡ true → x < length operations.now }
{
    x < y && y < operations.len() && operations[x].processor == operations[y].processor
}

/// Leads to what reads by the write that it read, and by the last operation on its word before it.
fn by_read(
    notes: &[Note],
    operations: &[Operation],
    writes: &[usize],
    last: usize,
    y: usize,
) -> [Option<Edge>; 3]
    requires { y < length operations.now }
{
    if !reads(operations[y].kind) {
        return [None, None, None];
    }
    let source = read_of(operations, writes, y);
    let is_source = is_own(operations, source, y);
    let is_kept = is_own(operations, source, y)
        && is_atomic_source(notes, operations, writes, source, y);
    let is_other = is_own(operations, last, y)
        && reads(operations[last].kind)
        && read_of(operations, writes, last) != source;
    [
        when(is_source, helpers_of(operations.len(), source).through, y),
        when(is_kept, source, y),
        when(is_other, last, y),
    ]
}

/// Leads to what reads. Of each word the last operation is kept, of which there is none yet.
fn add_reads(
    list: &mut [Edge],
    end: usize,
    notes: &[Note],
    operations: &[Operation],
    writes: &[usize],
    lasts: &mut [usize],
) -> usize {
    let mut end = end;
    for y in 0..operations.len() {
        let Operation { kind, word, .. } = operations[y];
        end = put(
            list,
            end,
            &by_read(notes, operations, writes, at(lasts, word), y),
        );
        if uses_word(kind) {
            set_at(lasts, word, y);
        }
    }
    end
}

/// Leads from an operation to a write of its program on its word behind it.
fn to_write(operations: &[Operation], x: usize, next: usize) -> [Option<Edge>; 1]
    requires { x < length operations.now }
{
    [when(
        uses_word(operations[x].kind) && is_own(operations, x, next),
        x,
        next,
    )]
}

/// Leads from each operation to the next write of its program on its word. Of each word the first write
/// is kept, of which there is none yet.
fn add_next_writes(
    list: &mut [Edge],
    end: usize,
    operations: &[Operation],
    nexts: &mut [usize],
) -> usize {
    let mut end = end;
    for k in 0..operations.len() {
        let x = operations.len() - 1 - k;
        let Operation { kind, word, .. } = operations[x];
        end = put(list, end, &to_write(operations, x, at(nexts, word)));
        if is_write(kind) {
            set_at(nexts, word, x);
        }
    }
    end
}

/// Joins an operation to the one before it in its program.
fn by_program(operations: &[Operation], y: usize) -> [Option<Edge>; 6] {
    let count = operations.len();
    let x = y.saturating_sub(1);
    if !is_own(operations, x, y) {
        return [None, None, None, None, None, None];
    }
    follow(
        operations[x].kind,
        x,
        helpers_of(count, x),
        helpers_of(count, y),
    )
}

/// Leads to an operation by the fences and the annotations of its program.
fn by_notes(notes: &[Note], operations: &[Operation], rcsc: usize, y: usize) -> [Option<Edge>; 8]
    requires { y < length operations.now }
{
    let kind = operations[y].kind;
    let note = note_of(notes, y);
    let here = helpers_of(operations.len(), y);
    if kind == Kind::Fence {
        return through(note.fence, here);
    }
    let is_last = is_rcsc(note) && is_own(operations, rcsc, y);
    let next = y.saturating_add(1);
    by_note(
        kind,
        note,
        y,
        when(is_last, rcsc, y),
        here,
        helpers_of(operations.len(), next),
        is_own(operations, y, next),
    )
}

/// Leads by fences and annotations.
fn add_notes(list: &mut [Edge], end: usize, notes: &[Note], operations: &[Operation]) -> usize {
    let mut end = end;
    let mut rcsc = usize::MAX;
    for y in 0..operations.len() {
        end = put(list, end, &by_program(operations, y));
        end = put(list, end, &by_notes(notes, operations, rcsc, y));
        if is_rcsc(note_of(notes, y)) {
            rcsc = y;
        }
    }
    end
}

/// Leads from what an operation depends on.
fn by_input(operations: &[Operation], dependency: Dependency) -> [Option<Edge>; 3] {
    let y = dependency.operation;
    let next = y.saturating_add(1);
    let count = operations.len();
    by_dependency(
        dependency,
        helpers_of(count, y),
        helpers_of(count, next),
        is_own(operations, y, next),
    )
}

/// Leads by dependencies.
fn add_dependencies(
    list: &mut [Edge],
    end: usize,
    dependencies: &[Dependency],
    operations: &[Operation],
) -> usize {
    let mut end = end;
    for k in 0..dependencies.len() {
        end = put(list, end, &by_input(operations, dependencies[k]));
    }
    end
}

/// Puts edges, and those for preserved program order, into a list. The place behind them is answered.
fn add_program(
    list: &mut [Edge],
    lasts: &mut [usize],
    notes: &[Note],
    dependencies: &[Dependency],
    operations: &[Operation],
    writes: &[usize],
    edges: &[Edge],
) -> usize {
    let end = put_all(list, edges);
    let end = add_reads(list, end, notes, operations, writes, lasts);
    lasts.fill(usize::MAX);
    let end = add_next_writes(list, end, operations, lasts);
    let end = add_notes(list, end, notes, operations);
    add_dependencies(list, end, dependencies, operations)
}

/// The edges of the thin graph: these, and those for preserved program order.
///
/// Errors: out of memory.
pub fn thin_edges<A: Allocator + Copy>(
    alloc: A,
    notes: &[Note],
    dependencies: &[Dependency],
    operations: &[Operation],
    writes: &[usize],
    words: usize,
    edges: &[Edge],
) -> Result<Vec<Edge, A>, AllocError> {
    let most = most_edges(edges.len(), operations.len(), dependencies.len());
    let mut lasts = vec![in alloc; usize::MAX; words]?;
    let mut list = vec![in alloc; Edge { from: 0, to: 0 }; most]?;
    let end = add_program(
        &mut list,
        &mut lasts,
        notes,
        dependencies,
        operations,
        writes,
        edges,
    );
    list.truncate(end);
    Ok(list)
}
