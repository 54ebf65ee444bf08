//! What stands behind the operands of a `made` line.

ghost use Rattle.std.specs.Prelude.{◌≡◌, ◌≤◌, drop, length, map, take};
ghost use Rattle.model_text.specs.Annotations.{begins, behind, part_of, behind_part, annotation_from};
ghost use Rattle.model_text.specs.Annotations.{accesses_named, fence_order, step_annotation};
ghost use Rattle.model_text.specs.Annotations.{is_annotation, is_of_fence, operands_of, operand_count};
ghost use Rattle.model_text.specs.Annotations.{is_behind};

use crate::reason::LogReason;
use packet::Code;
use trace_lines::Form;
use weak_models::{Accesses, FenceOrder};

/// The part that an operation has in a pair of a load reserved and a store conditional.
#[derive(Clone, Copy)]
pub enum PairPart {
    /// None.
    Neither,
    /// It is the load reserved.
    Reserved,
    /// It is the store conditional.
    Conditional,
}

/// What a `made` line says of an operation beside its kind and its operands.
#[derive(Clone, Copy)]
pub struct Annotation {
    /// Which part it has in a pair.
    pub part: PairPart,
    /// It has an acquire annotation.
    pub acquire: bool,
    /// It has a release annotation.
    pub release: bool,
    /// Its annotations are RCpc, and else RCsc.
    pub rcpc: bool,
    /// Of a fence, what it keeps in order.
    pub fence: FenceOrder,
}

/// A load reserved that a store conditional may be paired with.
#[derive(Clone, Copy)]
pub struct Reservation {
    /// Its number.
    pub number: usize,
    /// The address of its word.
    pub address: u128,
}

/// All accesses.
const ALL: Accesses = Accesses {
    reads: true,
    writes: true,
};

/// Whether a word says something of an operation on a word of memory.
fn is_annotation(word: &[u8]) -> bool
    ensures { result ≡ is_annotation word.now }
{
    word == b"reserved".as_slice()
        || word == b"conditional".as_slice()
        || word == b"acquire".as_slice()
        || word == b"release".as_slice()
        || word == b"rcpc".as_slice()
}

/// Whether a word says what a fence keeps in order.
fn is_of_fence(word: &[u8]) -> bool
    ensures { result ≡ is_of_fence word.now }
{
    word == b"tso".as_slice()
        || word == b"r".as_slice()
        || word == b"w".as_slice()
        || word == b"rw".as_slice()
}

/// Whether a word may stand behind the operands of what another word names.
fn is_behind(word: &[u8], next: &[u8]) -> bool
    ensures { result ≡ is_behind word.now next.now }
{
    if word == b"fence".as_slice() {
        is_of_fence(next)
    } else {
        is_annotation(next)
    }
}

/// How many operands belong to what a word names.
fn operands_of(word: &[u8]) -> usize
    ensures { result ≡ operands_of word.now }
{
    match Code::named(word) {
        None => 0,
        Some(code) => code.arity() + 1,
    }
}

/// How many of the words behind an operation are its operands: all, but where one behind them says
/// something of it.
fn operand_count(word: &[u8], words: &[&[u8]]) -> usize
    ensures value { result ≡ operand_count word.now (map (λ word. word.now) words.now) }
    ensures within { result ≤ length words.now }
{
    let count = operands_of(word);
    if count < words.len() && is_behind(word, words[count]) {
        count
    } else {
        words.len()
    }
}

/// The operands of an operation among the words behind it.
pub(crate) fn operands<'a, 'b>(word: &[u8], words: &'a [&'b [u8]]) -> &'a [&'b [u8]]
    ensures { map (λ word. word.now) result.now
        ≡ take (operand_count word.now (map (λ word. word.now) words.now))
        (map (λ word. word.now) words.now) }
{
    &words[..operand_count(word, words)]
}

/// The words behind the operands of an operation.
pub(crate) fn behind_operands<'a, 'b>(word: &[u8], words: &'a [&'b [u8]]) -> &'a [&'b [u8]]
    ensures { map (λ word. word.now) result.now
        ≡ drop (operand_count word.now (map (λ word. word.now) words.now))
        (map (λ word. word.now) words.now) }
{
    &words[operand_count(word, words)..]
}

/// Whether the first of some words is this one.
fn begins(words: &[&[u8]], name: &[u8]) -> bool
    ensures { result ≡ begins name.now (map (λ word. word.now) words.now) }
{
    match words {
        [] => false,
        [word, ..] => *word == name,
    }
}

/// What stands behind this word, where it is the first of some words; and else all of them.
fn behind<'a, 'b>(words: &'a [&'b [u8]], name: &[u8]) -> &'a [&'b [u8]]
    ensures { map (λ word. word.now) result.now
        ≡ behind name.now (map (λ word. word.now) words.now) }
{
    match words {
        [] => words,
        [word, rest @ ..] => { if *word == name { rest } else { words } }
    }
}

/// The part in a pair that an operation has by the first of some words.
fn part_of(code: Code, words: &[&[u8]]) -> PairPart
    ensures { result ≡ part_of code (map (λ word. word.now) words.now) }
{
    match code {
        Code::Load => {
            if begins(words, b"reserved") {
                PairPart::Reserved
            } else {
                PairPart::Neither
            }
        }
        Code::Store => {
            if begins(words, b"conditional") {
                PairPart::Conditional
            } else {
                PairPart::Neither
            }
        }
        _ => PairPart::Neither,
    }
}

/// What stands behind the word that gives an operation its part in a pair.
fn behind_part<'a, 'b>(code: Code, words: &'a [&'b [u8]]) -> &'a [&'b [u8]]
    ensures { map (λ word. word.now) result.now
        ≡ behind_part code (map (λ word. word.now) words.now) }
{
    match code {
        Code::Load => behind(words, b"reserved"),
        Code::Store => behind(words, b"conditional"),
        _ => words,
    }
}

/// What some words say of an operation with this part in a pair.
fn annotation_from(part: PairPart, words: &[&[u8]]) -> Result<Annotation, LogReason>
    ensures { result ≡ annotation_from part (map (λ word. word.now) words.now) }
{
    let acquire = begins(words, b"acquire");
    let releases = behind(words, b"acquire");
    let release = begins(releases, b"release");
    let kinds = behind(releases, b"release");
    let rcpc = begins(kinds, b"rcpc");
    let rest = behind(kinds, b"rcpc");
    if !rest.is_empty() || (rcpc && !(acquire || release)) {
        return Err(LogReason::NotAnnotation);
    }
    Ok(Annotation {
        part,
        acquire,
        release,
        rcpc,
        fence: FenceOrder::Sets(ALL, ALL),
    })
}

/// The accesses that a word names.
fn accesses_named(word: &[u8]) -> Option<Accesses>
    ensures { result ≡ accesses_named word.now }
{
    if word == b"r".as_slice() {
        return Some(Accesses {
            reads: true,
            writes: false,
        });
    }
    if word == b"w".as_slice() {
        return Some(Accesses {
            reads: false,
            writes: true,
        });
    }
    if word == b"rw".as_slice() {
        return Some(ALL);
    }
    None
}

/// What a fence keeps in order by the words behind it.
fn fence_order(words: &[&[u8]]) -> Result<FenceOrder, LogReason>
    ensures { result ≡ fence_order (map (λ word. word.now) words.now) }
{
    match words {
        [word] => {
            if *word == b"tso".as_slice() {
                Ok(FenceOrder::Tso)
            } else {
                Err(LogReason::NotFenceOrder)
            }
        }
        [before, behind] => {
            let Some(first) = accesses_named(before) else {
                return Err(LogReason::NotFenceOrder);
            };
            let Some(second) = accesses_named(behind) else {
                return Err(LogReason::NotFenceOrder);
            };
            Ok(FenceOrder::Sets(first, second))
        }
        [] => Err(LogReason::NotFenceOrder),
        [_, _, _, ..] => Err(LogReason::NotFenceOrder),
    }
}

/// What the words behind the operands say of an operation, or of a fence; `None` where there is none.
pub(crate) fn step_annotation(
    step: Option<Form>,
    words: &[&[u8]],
) -> Result<Option<Annotation>, LogReason>
    ensures { result ≡ step_annotation step (map (λ word. word.now) words.now) }
{
    if words.is_empty() {
        return Ok(None);
    }
    match step {
        None => {
            let fence = fence_order(words)?;
            Ok(Some(Annotation {
                part: PairPart::Neither,
                acquire: false,
                release: false,
                rcpc: false,
                fence,
            }))
        }
        Some(form) => {
            let part = part_of(form.code, words);
            let annotation = annotation_from(part, behind_part(form.code, words))?;
            Ok(Some(annotation))
        }
    }
}
