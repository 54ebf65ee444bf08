//! Which operations find and leave each value of a word.

ghost use Rattle.std.specs.Prelude.{◌<◌, ◌≤◌, length};

use crate::listed::{Keyed, Listed, listed_by};
use crate::plan::Plan;
use std::alloc::{AllocError, Allocator};

/// How many operations that find or leave a value are looked at.
pub(crate) const AHEAD: usize = 8;

/// Of each value the steps that issue operations which find it, those which leave it, and the kinds that do.
#[derive(Drop)]
pub(crate) struct Uses<A: Allocator> {
    pub finders: Listed<A>,
    pub leavers: Listed<A>,
    pub kinds: Listed<A>,
}

/// The steps that issue operations which find, or else leave, values.
fn steps_by<A: Allocator + Copy>(
    alloc: A,
    plan: &Plan<A>,
    count: usize,
    finds: bool,
) -> Result<Listed<A>, AllocError> {
    let mut keyed = Vec::new(alloc);
    for item in 0..plan.steps.len() {
        let step = plan.steps[item];
        let place = if finds {
            step.open.found
        } else {
            step.open.left
        };
        if step.issues
            && let Some(key) = place
        {
            keyed.push(Keyed { key, item })?;
        }
    }
    listed_by(alloc, count, &keyed)
}

/// The kinds that leave values.
fn kinds_by<A: Allocator + Copy>(
    alloc: A,
    plan: &Plan<A>,
    count: usize,
) -> Result<Listed<A>, AllocError> {
    let mut keyed = Vec::new(alloc);
    for item in 0..plan.kinds.len() {
        if let Some(key) = plan.kinds[item].left {
            keyed.push(Keyed { key, item })?;
        }
    }
    listed_by(alloc, count, &keyed)
}

/// What uses each of so many values.
pub(crate) fn uses_of<A: Allocator + Copy>(
    alloc: A,
    plan: &Plan<A>,
    count: usize,
) -> Result<Uses<A>, AllocError> {
    Ok(Uses {
        finders: steps_by(alloc, plan, count, true)?,
        leavers: steps_by(alloc, plan, count, false)?,
        kinds: kinds_by(alloc, plan, count)?,
    })
}

/// The place of the first of rising numbers from one on.
pub(crate) fn place_from(numbers: &[usize], least: usize) -> usize {
    match numbers.binary_search(&least) {
        Ok(place) => place,
        Err(place) => place,
    }
}
