//! Which lines a machine refuses.

ghost use Rattle.std.specs.Prelude.{◌≡◌, ℕ, ◌<◌, ◌≤◌, ◌==◌, ◌&&◌, length, sum, slice_index};
ghost use Rattle.script_lines.specs.Lines.{mentions_last};
ghost use Rattle.one_order.specs.Scripts.{address_of};
ghost use Rattle.core_laws.specs.Machine.{Core};
ghost use Rattle.core_laws.specs.Handed.{is_word, has_loads, is_too_long, refused};

use order_book::address;
use script::Line;
use torus::Fault;

/// The sum of some counts, at most 65536.
pub fn sum_of(counts: &[usize]) -> usize
    requires { sum counts.now ≤ 65536 }
    ensures { result ≡ sum counts.now }
{
    let mut all = 0;
    for count in counts {
        all += *count;
    }
    all
}

/// Whether the address of a line, where it has one, is below the number of words.
fn is_word(words: usize, line: Line) -> bool
    ensures { result ≡ is_word words (address_of line) }
{
    match address(line) {
        None => true,
        Some(address) => (address as usize) < words,
    }
}

/// Whether a line, where it is a spin, has 1 to 4096 loads.
fn has_loads(line: Line) -> bool
    ensures { result ≡ has_loads line }
{
    match line {
        Line::Spin(_, _, loads) => 1 <= loads && loads <= 4096,
        Line::Fence => true,
        Line::Load(_) => true,
        Line::Store(_, _) => true,
        Line::Swap(_, _) => true,
        Line::Cas(_, _, _) => true,
        Line::Add(_, _) => true,
        Line::And(_, _) => true,
        Line::Or(_, _) => true,
        Line::Xor(_, _) => true,
        Line::Max(_, _) => true,
        Line::Min(_, _) => true,
    }
}

/// Whether a line has a `last` with no operation before it, where the script makes so many.
fn lacks_operation(own: usize, line: Line) -> bool
    ensures { result ≡ (mentions_last line && (own == 0)) }
{
    line.mentions_last() && own == 0
}

/// Whether there is no room for the operations of a line.
fn is_too_long(allowed: &[usize], own: usize, line: Line) -> bool
    requires own { own < length allowed.now }
    requires each { slice_index allowed.now own ≤ 4096 }
    requires all { sum allowed.now ≤ 65536 }
    ensures { result ≡ is_too_long allowed.now own line }
{
    let more = line.operations() as usize;
    let few = allowed[own] + more <= 4096;
    let few_in_all = sum_of(allowed) + more <= 65536;
    !(few && few_in_all)
}

/// Why a machine of so many words, whose scripts make so many operations each, refuses a line for a
/// processor; `None` where it takes the line.
pub fn refusal(allowed: &[usize], words: usize, processor: u32, line: Line) -> Option<Fault>
    requires each { (p : ℕ) → slice_index allowed.now p ≤ 4096 }
    requires all { sum allowed.now ≤ 65536 }
    ensures { (c : Core) → c.allowed ≡ allowed.now → length c.opening ≡ words
        → result ≡ refused c processor line }
{
    let own = processor as usize;
    if own >= allowed.len() {
        return Some(Fault::Processor);
    }
    if !is_word(words, line) {
        return Some(Fault::Address);
    }
    if !has_loads(line) {
        return Some(Fault::Range);
    }
    if lacks_operation(allowed[own], line) {
        return Some(Fault::Last);
    }
    if is_too_long(allowed, own, line) {
        return Some(Fault::Length);
    }
    None
}
