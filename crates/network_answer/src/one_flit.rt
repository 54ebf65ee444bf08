//! What stands behind the text of a judgement, where routers choose and no numbers rise along the escapes:
//! that packets of one flit never deadlock, or the greatest dead set, with channels that fill up until
//! nothing can go.

ghost use Rattle.std.specs.Prelude.{◌≡◌, ◌++◌, ◌<◌, ◌&&◌, Bool, List, length, map, IfOk, OnOk};
ghost use Rattle.network_adaptive.specs.Choosing.{choosing_of};
ghost use Rattle.network_adaptive.specs.Shape.{IsJudgedNet};
ghost use Rattle.dead_sets.specs.FillingFlags.{filling_of};
ghost use Rattle.network_text.specs.Lines.{first_lines};
ghost use Rattle.network_text.specs.Reading.{IsRead};
ghost use Rattle.network_answer.specs.OneFlit.{dead_line, dead_set_text, spaced_back, filling_line};
ghost use Rattle.network_answer.specs.OneFlit.{filling_line_at, filling_text, decided_text};
ghost use Rattle.network_answer.specs.OneFlit.{has_rising, is_one_flit, lacks_numbers, StandsBehind};

use crate::judging::verdict_rises;
use crate::verdict::{put_number, put_numbers};
use dead_sets::{Decided, FilledChannel, decide};
use network_adaptive::accepting::JudgedNet;
use network_text::reading::Reading;
use std::alloc::{AllocError, Allocator};

/// Adds the line of a channel, if its flag is up.
fn put_dead<A: Allocator>(out: &mut Vec<u8, A>, flags: &[bool], x: usize) -> Result<(), AllocError>
    requires { x < length flags.now }
    ensures { OnOk result (out.new.items ≡ out.old.items ++ dead_line flags.now x) }
{
    if !flags[x] {
        return Ok(());
    }
    put_number(out, "dead ", x)?;
    out.extend_from_slice(b"\n")
}

/// Adds the line of each channel of a dead set.
fn put_dead_channels<A: Allocator>(out: &mut Vec<u8, A>, flags: &[bool]) -> Result<(), AllocError>
    ensures { OnOk result (out.new.items ≡ out.old.items ++ dead_set_text flags.now) }
{
    for x in 0..flags.len() {
        put_dead(out, flags, x)?;
    }
    Ok(())
}

/// Adds channels, the last first, each behind a space.
fn put_spaced_back<A: Allocator>(out: &mut Vec<u8, A>, before: &[usize]) -> Result<(), AllocError>
    ensures { OnOk result (out.new.items
        ≡ out.old.items ++ first_lines (spaced_back before.now) (length before.now)) }
{
    for k in 0..before.len() {
        put_number(out, " ", before[before.len() - 1 - k])?;
    }
    Ok(())
}

/// Adds the line of a channel that is filled.
fn put_filling<A: Allocator>(
    out: &mut Vec<u8, A>,
    item: &FilledChannel<A>,
) -> Result<(), AllocError>
    ensures { OnOk result (out.new.items ≡ out.old.items ++ filling_line (filling_of item.now)) }
{
    put_number(out, "fill ", item.to)?;
    put_spaced_back(out, &item.before)?;
    put_number(out, " ", item.at)?;
    out.extend_from_slice(b"\n")
}

/// Adds the line of each channel of a filling, the first to be filled first.
fn put_fillings<A: Allocator>(
    out: &mut Vec<u8, A>,
    items: &[FilledChannel<A>],
) -> Result<(), AllocError>
    ensures { OnOk result (out.new.items ≡ out.old.items
        ++ first_lines (filling_line_at (map filling_of items.now)) (length items.now)) }
{
    for k in 0..items.len() {
        put_filling(out, &items[items.len() - 1 - k])?;
    }
    Ok(())
}

/// Adds the text of a dead set that can be filled.
fn put_filled<A: Allocator>(
    out: &mut Vec<u8, A>,
    flags: &[bool],
    items: &[FilledChannel<A>],
) -> Result<(), AllocError>
    ensures { OnOk result (out.new.items ≡ out.old.items
        ++ (dead_set_text flags.now ++ filling_text (map filling_of items.now))) }
{
    put_dead_channels(out, flags)?;
    put_fillings(out, items)?;
    out.extend_from_slice(b"locks up\n")
}

/// The text of what is decided of deadlocks with packets of one flit.
///
/// Errors: out of memory.
fn decided_text<A: Allocator + Copy>(alloc: A, found: &Decided<A>) -> Result<Vec<u8, A>, AllocError>
    ensures { IfOk result (λ text. text.items ≡ decided_text found.now) }
{
    let mut text = Vec::new(alloc);
    match found {
        Decided::Rises(numbers) => {
            put_numbers(&mut text, numbers)?;
            text.extend_from_slice(b"never locks up with packets of one flit\n")?;
        }
        Decided::Fills(flags, items) => put_filled(&mut text, flags, items)?,
        Decided::Open(flags) => put_dead_channels(&mut text, flags)?,
    }
    Ok(text)
}

/// What stands behind the text of a judgement.
#[derive(Drop)]
pub(crate) struct Behind<A: Allocator> {
    pub(crate) text: Vec<u8, A>,
    /// Whether by it packets of one flit never deadlock.
    pub(crate) never: bool,
}

/// Whether it is decided that packets of one flit never deadlock.
fn has_rising<A: Allocator>(found: &Decided<A>) -> bool
    ensures { result ≡ has_rising found.now }
{
    match found {
        Decided::Rises(_) => true,
        Decided::Fills(_, _) => false,
        Decided::Open(_) => false,
    }
}

/// Whether it is said that all packets have one flit.
fn is_one_flit(flits: Option<u32>) -> bool
    ensures { result ≡ is_one_flit flits }
{
    match flits {
        None => false,
        Some(flits) => flits == 1,
    }
}

/// Whether no packets of a text deadlock: all have one flit, and packets of one flit never do.
pub(crate) fn is_free(flits: Option<u32>, never: bool) -> bool
    ensures { result ≡ (is_one_flit flits && never) }
{
    is_one_flit(flits) && never
}

/// Whether no numbers rise along the escapes of a network, which is judged.
fn lacks_numbers<A: Allocator>(judged: &JudgedNet<A>) -> bool
    ensures { result ≡ lacks_numbers judged.now }
{
    match judged {
        JudgedNet::WrongPair(_) => false,
        JudgedNet::WrongChoice(_) => false,
        JudgedNet::Judged(verdict) => !verdict_rises(verdict),
    }
}

/// What stands behind the text of a judgement, by the choices and the marks of escapes as they are
/// judged.
///
/// Errors: out of memory.
pub(crate) fn behind_text<A: Allocator + Copy>(
    alloc: A,
    fixed: &Reading<A>,
    ways: usize,
    choices: &[u32],
    marks: &[bool],
    judged: &JudgedNet<A>,
) -> Result<Behind<A>, AllocError>
    requires read { IsRead fixed.now }
    requires judged { IsJudgedNet
        (choosing_of fixed.now.kinds.items fixed.now.joins.items ways choices.now marks.now)
        fixed.now.replies.items judged.now }
    ensures { IfOk result (λ it. StandsBehind
        (choosing_of fixed.now.kinds.items fixed.now.joins.items ways choices.now marks.now)
        fixed.now.replies.items judged.now it.text.items it.never) }
{
    if !lacks_numbers(judged) {
        return Ok(Behind {
            text: Vec::new(alloc),
            never: false,
        });
    }
    let kinds = &fixed.kinds;
    let found = decide(
        alloc,
        kinds,
        &fixed.joins,
        &fixed.replies,
        ways,
        choices,
        marks,
    )?;
    let text = decided_text(alloc, &found)?;
    let never = has_rising(&found);
    Ok(Behind { text, never })
}
