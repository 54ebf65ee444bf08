//! The spins of a script that ran out of loads.

ghost use Rattle.std.specs.Prelude.{◌≡◌, ◌+◌, ◌∷◌, ℕ, List, [], Option, MatchOption, IfOk, drop};
ghost use Rattle.std.specs.Prelude.{option_map};
ghost use Rattle.std.specs.List.{cons_option};
ghost use Rattle.script_lines.specs.declared.line.Line.{Line};
ghost use Rattle.sentences.specs.Spins.{spun, spent_from, spent_spins, reply_of_next};
ghost use Rattle.sentences.specs.Answered.{are_answered, behind_line, behind_spin};

use script::Line;
use std::alloc::{AllocError, Allocator};

/// A spin that made all its loads, of which none found the number that it sought.
#[derive(Clone, Copy, Debug, PartialEq, Eq)]
pub struct SpentSpin {
    /// Its place among the lines of its script, from 0; or its line in the text of the scripts, from 1.
    pub place: u64,
    pub address: u32,
    pub sought: u64,
    pub loads: u32,
}

/// What a line of a script came to, whose operations are answered.
#[derive(Clone, Copy)]
struct LineEnd {
    /// The spin that it is, if that ran out of loads.
    spent: Option<SpentSpin>,
    /// The operation behind it.
    next: usize,
}

/// What an operation was replied; `None` where it isn't answered.
fn reply_of_next(replies: &[Option<u64>], at: usize) -> Option<u64>
    ensures { result ≡ reply_of_next (drop at replies.now) }
{
    replies.get(at).copied().flatten()
}

/// What a spin came to, whose first load is this operation.
fn end_of_spin(replies: &[Option<u64>], first: usize, spin: SpentSpin) -> Option<LineEnd>
    ensures spent { (over : List (Option ℕ) → List SpentSpin) → MatchOption result
        (spun spin.loads spin over (drop first replies.now) ≡ [])
        (λ f. spun spin.loads spin over (drop first replies.now)
        ≡ cons_option f.spent (over (drop f.next replies.now))) }
    ensures behind { option_map (λ f. drop f.next replies.now) result
        ≡ behind_spin spin.loads spin.sought (drop first replies.now) }
{
    let mut next = first;
    let mut left = spin.loads;
    while left > 0 {
        let reply = reply_of_next(replies, next)?;
        next += 1;
        if reply == spin.sought {
            return Some(LineEnd { spent: None, next });
        }
        left -= 1;
    }
    Some(LineEnd {
        spent: Some(spin),
        next,
    })
}

/// What the line at a place of a script came to, whose first operation is this one.
fn end_of_line(replies: &[Option<u64>], first: usize, place: u64, line: Line) -> Option<LineEnd>
    ensures spent { (rest : List Line) → MatchOption result
        (spent_from place (line ∷ rest) (drop first replies.now) ≡ [])
        (λ f. spent_from place (line ∷ rest) (drop first replies.now)
        ≡ cons_option f.spent (spent_from (place + 1) rest (drop f.next replies.now))) }
    ensures behind { option_map (λ f. drop f.next replies.now) result
        ≡ behind_line line (drop first replies.now) }
{
    match line {
        Line::Fence => Some(LineEnd {
            spent: None,
            next: first,
        }),
        Line::Spin(address, sought, loads) => {
            let spin = SpentSpin {
                place,
                address,
                sought,
                loads,
            };
            end_of_spin(replies, first, spin)
        }
        _ => {
            let _reply = reply_of_next(replies, first)?;
            Some(LineEnd {
                spent: None,
                next: first + 1,
            })
        }
    }
}

/// What became of a script.
#[derive(Drop)]
pub(crate) struct ScriptEnd<A: Allocator> {
    /// The spins that ran out of loads, in the order of the script.
    pub(crate) spins: Vec<SpentSpin, A>,
    /// Whether all its operations are answered.
    pub(crate) is_answered: bool,
}

/// What became of a script, where its operations are replied so.
pub(crate) fn end_of_script<A: Allocator>(
    alloc: A,
    script: &[Line],
    replies: &[Option<u64>],
) -> Result<ScriptEnd<A>, AllocError>
    ensures spins { IfOk result
        (λ end. end.spins.items ≡ spent_spins script.now replies.now) }
    ensures answered { IfOk result
        (λ end. end.is_answered ≡ are_answered script.now replies.now) }
{
    let mut spins = Vec::new(alloc);
    let mut next = 0;
    for place in 0..script.len() {
        let Some(line) = end_of_line(replies, next, place as u64, script[place]) else {
            return Ok(ScriptEnd {
                spins,
                is_answered: false,
            });
        };
        if let Some(spin) = line.spent {
            spins.push(spin)?;
        }
        next = line.next;
    }
    Ok(ScriptEnd {
        spins,
        is_answered: true,
    })
}
