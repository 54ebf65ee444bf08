ghost use Rattle.std.specs.Prelude.{◌≡◌, ◌<◌, ◌≤◌, ◌∷◌, ◌++◌, [], length, replicate, slice_set, IfOk, if◌then◌else◌};
ghost use Rattle.std.specs.Prelude.{is_ok, vec_len, IfErr};
ghost use Rattle.script_lines.specs.Lines.{script_of};
ghost use Rattle.script_lines.specs.Views.{lists_of};

use crate::reason::TextReason;
use crate::{Line, LineList};
use std::alloc::{AllocError, Allocator};

/// As many empty scripts as there are tiles.
pub(crate) fn empty_lists<A: Allocator + Copy>(
    alloc: A,
    tiles: u32,
) -> Result<Vec<LineList<A>, A>, AllocError>
    ensures lists { IfOk result (λ lists. lists_of lists.items ≡ replicate tiles []) }
    ensures tiles { IfOk result (λ lists. vec_len lists ≡ tiles) }
{
    let mut lists = Vec::new(alloc);
    for tile in 0..tiles {
        let _ = tile;
        lists.push(LineList {
            lines: Vec::new(alloc),
        })?;
    }
    Ok(lists)
}

/// Puts a line at the end of the script of a processor.
pub(crate) fn push_line<A: Allocator>(
    lists: &mut Vec<LineList<A>, A>,
    p: usize,
    line: Line,
) -> Result<(), TextReason>
    requires { p < vec_len lists.old }
    ensures value { lists_of lists.new.items
        ≡ (if is_ok result then slice_set (lists_of lists.old.items) p
        (script_of (lists_of lists.old.items) p ++ line ∷ []) else lists_of lists.old.items) }
    ensures tiles { vec_len lists.new ≡ vec_len lists.old }
    ensures memory { IfErr result (λ e. e ≡ TextReason.Memory) }
{
    let list = &mut lists[p];
    match list.lines.push(line) {
        Ok(()) => Ok(()),
        Err(_) => Err(TextReason::Memory),
    }
}
