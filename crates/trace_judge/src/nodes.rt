//! Lets go the nodes that no branch leads back to.

ghost use Rattle.std.specs.Prelude.{◌≡◌, ◌⊎◌, ◌<◌, ◌≤◌, ◌+◌, ◌^◌, ℕ, Bool, List, Some, true, false};
ghost use Rattle.std.specs.Prelude.{cond, replicate, IfOk, length, slice_get};
ghost use Rattle.trace_judge.specs.Kept.{renumbered, marked_nodes, renumbered_all, AreEnds};
ghost use Rattle.trace_judge.specs.Kept.{AreWithin, AreRanks, IsClosed, ClosesAt, Keeps, AreKept};
ghost use Rattle.trace_judge.specs.Kept.{Lets};
ghost use Rattle.trace_judge.specs.Marks.{AreNodes};
ghost use Rattle.trace_judge.specs.Sets.{lists_of};

use std::alloc::{AllocError, Allocator};
use trace_laws::{Branch, Node};

/// No marks.
pub fn no_marks<A: Allocator + Copy>(alloc: A, count: usize) -> Result<Vec<bool, A>, AllocError>
    ensures { IfOk result (λ v. v.items ≡ replicate count false) }
{
    vec![in alloc; false; count]
}

/// Marks a node, if there is one.
fn mark_one(marks: &mut [bool], last: Option<usize>)
    requires { (i : ℕ) → last ≡ Some i → i < length marks.old }
    ensures kept { Keeps marks.old marks.new }
    ensures end { (i : ℕ) → last ≡ Some i → slice_get marks.new i ≡ Some true }
    ensures only { (i : ℕ) → slice_get marks.new i ≡ Some true
        → (slice_get marks.old i ≡ Some true) ⊎ (last ≡ Some i) }
{
    let Some(i) = last else {
        return;
    };
    marks[i] = true;
}

/// Marks the nodes that these branches lead to.
fn mark_ends(marks: &mut [bool], branches: &[Branch])
    requires { AreWithin (length marks.old) branches.now }
    ensures kept { Keeps marks.old marks.new }
    ensures ends { AreEnds marks.new branches.now }
{
    for n in 0..branches.len() {
        mark_one(marks, branches[n].trail);
    }
}

/// Marks the nodes that the branches of all words lead to.
fn mark_words<A: Allocator + Copy>(marks: &mut [bool], words: &[Vec<Branch, A>])
    requires { (w : ℕ) → w < length words.now →
        AreWithin (length marks.old) (lists_of words.now w) }
    ensures { (w : ℕ) → w < length words.now → AreEnds marks.new (lists_of words.now w) }
{
    for w in 0..words.len() {
        mark_ends(marks, &words[w]);
    }
}

/// Marks the node before one that is marked.
fn mark_before(marks: &mut [bool], nodes: &[Node], i: usize)
    requires sized { length marks.old ≡ length nodes.now }
    requires inside { i < length nodes.now }
    requires back { AreNodes nodes.now }
    ensures kept { Keeps marks.old marks.new }
    ensures above { (p : ℕ) → i ≤ p → slice_get marks.new p ≡ Some true
        → slice_get marks.old p ≡ Some true }
    ensures closed { ClosesAt marks.new nodes.now i }
{
    if !marks[i] {
        return;
    }
    mark_one(marks, nodes[i].before);
}

/// Marks all nodes on the ways back from those that are marked.
fn mark_back(marks: &mut [bool], nodes: &[Node])
    requires sized { length marks.old ≡ length nodes.now }
    requires back { AreNodes nodes.now }
    ensures kept { Keeps marks.old marks.new }
    ensures closed { IsClosed marks.new nodes.now }
{
    let mut i = nodes.len();
    while i > 0 {
        i -= 1;
        mark_before(marks, nodes, i);
    }
}

/// One more, if it is marked.
fn counted(count: usize, mark: bool) -> usize
    requires { count + 1 < 2 ^ 64 }
    ensures { result ≡ count + cond mark 1 0 }
{
    if mark { count + 1 } else { count }
}

/// The new numbers of the marked nodes, by their old ones.
fn ranks_of<A: Allocator>(alloc: A, marks: &[bool]) -> Result<Vec<usize, A>, AllocError>
    ensures { IfOk result (λ v. AreRanks v.items marks.now) }
{
    let mut ranks = Vec::new(alloc);
    let mut count = 0;
    for i in 0..marks.len() {
        ranks.push(count)?;
        count = counted(count, marks[i]);
    }
    Ok(ranks)
}

/// The new number of a node.
fn new_number(ranks: &[usize], last: Option<usize>) -> Option<usize>
    requires { (i : ℕ) → last ≡ Some i → i < length ranks.now }
    ensures { (marks : List Bool) → AreRanks ranks.now marks → result ≡ renumbered marks last }
{
    let Some(i) = last else {
        return None;
    };
    Some(ranks[i])
}

/// The marked nodes, under their new numbers.
fn marked<A: Allocator>(
    alloc: A,
    nodes: &[Node],
    marks: &[bool],
    ranks: &[usize],
) -> Result<Vec<Node, A>, AllocError>
    requires sized { length marks.now ≡ length nodes.now }
    requires ranks { AreRanks ranks.now marks.now }
    requires back { AreNodes nodes.now }
    ensures { IfOk result (λ v. v.items ≡ marked_nodes marks.now marks.now nodes.now) }
{
    let mut kept = Vec::new(alloc);
    for i in 0..nodes.len() {
        if marks[i] {
            kept.push(Node {
                call: nodes[i].call,
                before: new_number(ranks, nodes[i].before),
            })?;
        }
    }
    Ok(kept)
}

/// Branches that lead to the new numbers.
fn renumber<A: Allocator>(
    alloc: A,
    branches: &[Branch],
    ranks: &[usize],
) -> Result<Vec<Branch, A>, AllocError>
    requires { AreWithin (length ranks.now) branches.now }
    ensures { IfOk result (λ v. (marks : List Bool) → AreRanks ranks.now marks
        → v.items ≡ renumbered_all marks branches.now) }
{
    let mut later = Vec::new(alloc);
    for n in 0..branches.len() {
        later.push(Branch {
            config: branches[n].config,
            trail: new_number(ranks, branches[n].trail),
        })?;
    }
    Ok(later)
}

/// The branches of all words, which lead to the new numbers.
fn renumber_words<A: Allocator + Copy>(
    alloc: A,
    words: &[Vec<Branch, A>],
    ranks: &[usize],
) -> Result<Vec<Vec<Branch, A>, A>, AllocError>
    requires { (w : ℕ) → w < length words.now →
        AreWithin (length ranks.now) (lists_of words.now w) }
    ensures sized { IfOk result (λ v. length v.items ≡ length words.now) }
    ensures same { IfOk result (λ v. (marks : List Bool) → AreRanks ranks.now marks
        → (w : ℕ) → w < length words.now
        → lists_of v.items w ≡ renumbered_all marks (lists_of words.now w)) }
{
    let mut later = Vec::new(alloc);
    for w in 0..words.len() {
        later.push(renumber(alloc, &words[w], ranks)?)?;
    }
    Ok(later)
}

/// Marks the nodes on the ways back from all branches.
fn mark_kept<A: Allocator + Copy>(marks: &mut [bool], words: &[Vec<Branch, A>], nodes: &[Node])
    requires sized { length marks.old ≡ length nodes.now }
    requires within { (w : ℕ) → w < length words.now
        → AreWithin (length nodes.now) (lists_of words.now w) }
    requires back { AreNodes nodes.now }
    ensures closed { IsClosed marks.new nodes.now }
    ensures ends { (w : ℕ) → w < length words.now → AreEnds marks.new (lists_of words.now w) }
{
    mark_words(marks, words);
    mark_back(marks, nodes);
}

/// Marks on the nodes on the ways back from all branches.
fn marks_of<A: Allocator + Copy>(
    alloc: A,
    words: &[Vec<Branch, A>],
    nodes: &[Node],
) -> Result<Vec<bool, A>, AllocError>
    requires within { (w : ℕ) → w < length words.now
        → AreWithin (length nodes.now) (lists_of words.now w) }
    requires back { AreNodes nodes.now }
    ensures { IfOk result (λ v. AreKept words.now nodes.now v.items) }
{
    let mut marks = no_marks(alloc, nodes.len())?;
    mark_kept(&mut marks, words, nodes);
    Ok(marks)
}

/// The branches and nodes of all words, without the nodes that no branch leads back to.
pub fn kept<A: Allocator + Copy>(
    alloc: A,
    words: &[Vec<Branch, A>],
    nodes: &[Node],
) -> Result<(Vec<Vec<Branch, A>, A>, Vec<Node, A>), AllocError>
    requires within { (w : ℕ) → w < length words.now
        → AreWithin (length nodes.now) (lists_of words.now w) }
    requires back { AreNodes nodes.now }
    ensures { IfOk result (λ r. Lets words.now nodes.now r.0.items r.1.items) }
{
    let marks = marks_of(alloc, words, nodes)?;
    let ranks = ranks_of(alloc, &marks)?;
    let only = marked(alloc, nodes, &marks, &ranks)?;
    let later = renumber_words(alloc, words, &ranks)?;
    Ok((later, only))
}
