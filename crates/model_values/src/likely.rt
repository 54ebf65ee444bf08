//! Likely sources: a guess, which is mended as long as what follows from it goes around.

use crate::arcs::{NONE, at, count_up, put};
use crate::by_word::{Writes, sorted_writes};
use crate::forced::Step;
use crate::grounds::{Grounded, grounds_of};
use crate::guess::guess_of;
use crate::question::Unordered;
use crate::starting::reads;
use crate::valued::Valued;
use memory_models::{Operation, Rule};
use std::alloc::{AllocError, Allocator};

/// How often a guess is mended.
const MENDS: usize = 40;

/// The scale of how far a processor's program has come.
const WHOLE: usize = 1 << 20;

/// Likely sources of all operations, with the places that explain them, if these were found. Or pairs, with their reasons,
/// that follow from the sources of so many first operations of a path, and may go around. Or an operation without a
/// source that should have one.
#[derive(Drop)]
pub(crate) struct Likely<A: Allocator> {
    pub sources: Vec<usize, A>,
    pub places: Vec<usize, A>,
    pub steps: Vec<Step, A>,
    pub paths: Vec<usize, A>,
    pub depth: usize,
    pub open: usize,
}

/// Where the next processor's operations begin.
fn end_of(operations: &[Operation], begin: usize) -> usize {
    for x in begin..operations.len() {
        if operations[x].processor != operations[begin].processor {
            return x;
        }
    }
    operations.len()
}

/// How far its processor's program has come at each operation.
fn positions_of<A: Allocator + Copy>(
    alloc: A,
    valued: &Valued,
) -> Result<Vec<usize, A>, AllocError> {
    let mut positions = Vec::new(alloc);
    let (mut begin, mut end) = (0usize, 0usize);
    for x in 0..valued.operations.len() {
        if x >= end {
            begin = x;
            end = end_of(valued.operations, x);
        }
        let place = x.saturating_sub(begin).saturating_mul(WHOLE);
        let size = end.saturating_sub(begin).max(1);
        positions.push(if x < valued.openings {
            0
        } else if x >= valued.closing {
            WHOLE
        } else {
            place / size
        })?;
    }
    Ok(positions)
}

/// How unlikely a source is: by how far the programs have come, and twice that where the source comes later.
fn distance(positions: &[usize], x: usize, s: usize) -> usize {
    let (here, there) = (at(positions, x), at(positions, s));
    if there <= here {
        here.saturating_sub(there)
    } else {
        there.saturating_sub(here).saturating_mul(2)
    }
}

/// Whether a source comes behind an operation in its own program.
fn is_behind(valued: &Valued, x: usize, s: usize) -> bool {
    match (valued.operations.get(x), valued.operations.get(s)) {
        (Some(first), Some(second)) => {
            s >= x && x >= valued.openings && first.processor == second.processor
        }
        _ => true,
    }
}

/// The likeliest source of an operation.
fn nearest<A: Allocator>(
    valued: &Valued,
    writes: &Writes<A>,
    positions: &[usize],
    x: usize,
) -> usize {
    let mut best = writes.likely_source(valued, x);
    let mut least = NONE;
    let begin = writes.likely_place(valued, x);
    for place in begin..writes.order.len() {
        let s = at(&writes.order, place);
        if !writes.is_source(valued, x, place) {
            return best;
        }
        let far = distance(positions, x, s);
        if !is_behind(valued, x, s) && far < least {
            least = far;
            best = s;
        }
    }
    best
}

/// Likely sources of all operations: those of a path, then those of the last guess, if there was one.
fn first_sources<A: Allocator + Copy>(
    alloc: A,
    valued: &Valued,
    writes: &Writes<A>,
    sources: &[usize],
    last: &[usize],
) -> Result<Vec<usize, A>, AllocError> {
    let positions = positions_of(alloc, valued)?;
    let mut full = Vec::new(alloc);
    for x in 0..valued.operations.len() {
        let known = at(sources, x);
        let is_open = reads(valued.operations, x) && known >= valued.operations.len();
        full.push(if is_open && last.is_empty() {
            nearest(valued, writes, &positions, x)
        } else if is_open {
            at(last, x)
        } else if reads(valued.operations, x) {
            known
        } else {
            0
        })?;
    }
    Ok(full)
}

/// The next source of an operation behind one, and behind the last one the first.
fn next_source<A: Allocator>(valued: &Valued, writes: &Writes<A>, x: usize, s: usize) -> usize {
    let next = at(&writes.places, s).saturating_add(1);
    if writes.is_source(valued, x, next) {
        at(&writes.order, next)
    } else {
        writes.likely_source(valued, x)
    }
}

/// The operation that was changed least of those that sources are open for.
fn least_changed<A: Allocator>(
    grounded: &Grounded<A>,
    sources: &[usize],
    times: &[usize],
) -> usize {
    let mut best = NONE;
    let mut least = NONE;
    for k in 0..grounded.readers.len() {
        let x = grounded.readers[k];
        if at(sources, x) >= sources.len() && at(times, x) < least {
            least = at(times, x);
            best = x;
        }
    }
    best
}

/// How many first operations of a path have all that are named.
fn depth_of(path: &[(usize, usize)], readers: &[usize], marks: &mut [usize]) -> usize {
    for k in 0..readers.len() {
        put(marks, readers[k], 0);
    }
    let mut depth = 0usize;
    for k in 0..path.len() {
        let (x, _) = path[k];
        if at(marks, x) == 0 {
            depth = k.saturating_add(1);
        }
    }
    depth
}

/// What seems likely of a path, which gives the sources that are not the number of operations, and of the others by the
/// last guess.
///
/// Errors: out of memory.
pub(crate) fn likely_of<A: Allocator + Copy>(
    alloc: A,
    rules: &[Rule],
    valued: &Valued,
    path: &[(usize, usize)],
    sources: &[usize],
    last: &[usize],
) -> Result<Likely<A>, AllocError> {
    let count = valued.operations.len();
    let writes = sorted_writes(alloc, valued)?;
    let mut found = Likely {
        sources: first_sources(alloc, valued, &writes, sources, last)?,
        places: Vec::new(alloc),
        steps: Vec::new(alloc),
        paths: Vec::new(alloc),
        depth: 0,
        open: NONE,
    };
    let mut times = vec![in alloc; 0usize; count]?;
    for _ in 0..MENDS {
        let question = Unordered {
            rules,
            operations: valued.operations,
            sources: &found.sources,
            words: valued.words,
            openings: valued.openings,
            closing: valued.closing,
        };
        let guess = guess_of(alloc, &question)?;
        if guess.places.len() == count {
            found.places = guess.places;
            return Ok(found);
        }
        let grounded = grounds_of(alloc, &question, &guess.steps, &guess.paths)?;
        let x = least_changed(&grounded, sources, &times);
        if x == NONE {
            let mut marks = vec![in alloc; NONE; count]?;
            found.depth = depth_of(path, &grounded.readers, &mut marks);
            found.steps = grounded.steps;
            found.paths = grounded.paths;
            return Ok(found);
        }
        count_up(&mut times, x);
        found.open = x;
        let next = next_source(valued, &writes, x, at(&found.sources, x));
        put(&mut found.sources, x, next);
    }
    Ok(found)
}
