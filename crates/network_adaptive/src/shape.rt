//! Choices that can't stand in a table.

ghost use Rattle.std.specs.Prelude.{◌≡◌, ◌+◌, ◌*◌, ◌<◌, ◌≤◌, ℕ, length, MatchOption};
ghost use Rattle.std.specs.List.{count_by};
ghost use Rattle.network_judge.specs.Table.{ejects};
ghost use Rattle.network_adaptive.specs.Shape.{misfit_by_kind, misfit_of, RowFits, BlockFits};
ghost use Rattle.network_adaptive.specs.Shape.{ChoicesFit, IsMisfitInRow, IsMisfitInBlock};
ghost use Rattle.network_adaptive.specs.Shape.{IsFirstMisfit};

use crate::spread::base_of;
use network_judge::Kind;
use network_judge::walk::{cell, is_receiver, kind_at};

/// Why a channel is no choice behind another one.
#[derive(Clone, Copy)]
pub enum Misfit {
    /// It is that channel itself.
    Itself,
    /// It is an injection channel.
    Injects,
    /// It is another ejection channel than the one that the packets go to.
    Ejects,
}

/// A choice that can't stand.
#[derive(Clone, Copy)]
pub struct NoChoice {
    /// The channel that it stands behind.
    pub at: usize,
    /// The ejection channel that the packets go to.
    pub to: usize,
    /// The channel chosen.
    pub next: usize,
    /// Why it is no choice.
    pub why: Misfit,
}

/// Why a channel of this kind is no choice for packets to a channel.
fn misfit_by_kind(kind: Option<Kind>, to: usize, next: usize) -> Option<Misfit>
    ensures { result ≡ misfit_by_kind kind to next }
{
    match kind {
        Some(Kind::Injection) => Some(Misfit::Injects),
        Some(Kind::Hop) => None,
        Some(Kind::Ejection) => {
            if next == to {
                None
            } else {
                Some(Misfit::Ejects)
            }
        }
        None => None,
    }
}

/// Why a channel is no choice behind another one for packets to a channel.
pub fn misfit_of(kinds: &[Kind], at: usize, to: usize, next: usize) -> Option<Misfit>
    ensures { result ≡ misfit_of kinds.now at to next }
{
    if next == at {
        return Some(Misfit::Itself);
    }
    misfit_by_kind(kind_at(kinds, next), to, next)
}

/// The first choice of a row that can't stand.
fn misfit_in_row(
    kinds: &[Kind],
    choices: &[u32],
    base: usize,
    ways: usize,
    at: usize,
    to: usize,
) -> Option<NoChoice>
    requires at { at < length kinds.now }
    requires room { base + length kinds.now * ways ≤ length choices.now }
    ensures { MatchOption result (RowFits kinds.now choices.now base ways at to ways)
        (IsMisfitInRow kinds.now choices.now base ways at to) }
{
    for k in 0..ways {
        let next = choices[base + cell(kinds.len(), ways, at, k)] as usize;
        match misfit_of(kinds, at, to, next) {
            None => {}
            Some(why) => return Some(NoChoice { at, to, next, why }),
        }
    }
    None
}

/// The first choice of a block that can't stand.
fn misfit_in_block(
    kinds: &[Kind],
    choices: &[u32],
    base: usize,
    ways: usize,
    to: usize,
) -> Option<NoChoice>
    requires room { base + length kinds.now * ways ≤ length choices.now }
    ensures { MatchOption result (BlockFits kinds.now choices.now base ways to (length kinds.now))
        (IsMisfitInBlock kinds.now choices.now base ways to) }
{
    for x in 0..kinds.len() {
        match misfit_in_row(kinds, choices, base, ways, x, to) {
            None => {}
            Some(found) => return Some(found),
        }
    }
    None
}

/// The first choice that can't stand: by destination, then by channel, then by place.
pub fn first_misfit(kinds: &[Kind], choices: &[u32], ways: usize) -> Option<NoChoice>
    requires room { count_by ejects kinds.now * (length kinds.now * ways) ≤ length choices.now }
    ensures { MatchOption result (ChoicesFit kinds.now choices.now ways (length kinds.now))
        (IsFirstMisfit kinds.now choices.now ways) }
{
    for to in 0..kinds.len() {
        if !is_receiver(kind_at(kinds, to)) {
            continue;
        }
        let base = base_of(kinds, ways, to);
        match misfit_in_block(kinds, choices, base, ways, to) {
            None => {}
            Some(found) => return Some(found),
        }
    }
    None
}
