//! Flags that spread over the routers' choices.

ghost use Rattle.std.specs.Prelude.{◌≡◌, ◌+◌, ◌*◌, ◌^◌, ◌<◌, ◌≤◌, length, slice_get, Some, IfOk};
ghost use Rattle.std.specs.Prelude.{OnOk};
ghost use Rattle.std.specs.List.{count_by};
ghost use Rattle.network_judge.specs.Table.{ejects};
ghost use Rattle.network_judge.specs.declared.table.Kind.TheVariants.{Ejection};
ghost use Rattle.network_adaptive.specs.Spread.{block_base, leads_on, opens, choice_step, HasMore};
ghost use Rattle.network_adaptive.specs.Spread.{AreFlagsOf};
ghost use Rattle.network_adaptive.specs.Spread.{HasSpread};

use network_judge::Kind;
use network_judge::walk::cell;
use std::alloc::{AllocError, Allocator};

/// Whether packets go on from a channel of this kind.
pub fn goes_on(kinds: &[Kind], x: usize) -> bool
    requires { x < length kinds.now }
    ensures { result ≡ leads_on kinds.now x }
{
    match kinds[x] {
        Kind::Injection => true,
        Kind::Hop => true,
        Kind::Ejection => false,
    }
}

/// Where the block of an ejection channel begins: one for each, in channel order.
pub fn base_of(kinds: &[Kind], ways: usize, to: usize) -> usize
    requires to { slice_get kinds.now to ≡ Some Ejection }
    requires room { count_by ejects kinds.now * (length kinds.now * ways) < 2 ^ 64 }
    ensures value { result ≡ block_base kinds.now ways to }
    ensures room { result + length kinds.now * ways
        ≤ count_by ejects kinds.now * (length kinds.now * ways) }
{
    let mut before = 0;
    for x in 0..to {
        if goes_on(kinds, x) {
            continue;
        }
        before += 1;
    }
    before * (kinds.len() * ways)
}

/// Lists the channels whose flags are up.
///
/// Errors: out of memory.
pub fn list_of<A: Allocator + Copy>(alloc: A, flags: &[bool]) -> Result<Vec<usize, A>, AllocError>
    ensures { IfOk result (λ list. AreFlagsOf flags.now list.items) }
{
    let mut list = Vec::new(alloc);
    for x in 0..flags.len() {
        if !flags[x] {
            continue;
        }
        list.push(x)?;
    }
    Ok(list)
}

/// Raises the flags of the channels that are chosen behind a channel, but of those that are shut;
/// and puts those whose flags were down behind a list.
///
/// Errors: out of memory.
fn more_from<A: Allocator>(
    count: usize,
    choices: &[u32],
    base: usize,
    ways: usize,
    shut: &[bool],
    seen: &mut [bool],
    list: &mut Vec<usize, A>,
    x: usize,
) -> Result<(), AllocError>
    requires x { x < count }
    requires room { base + count * ways ≤ length choices.now }
    requires shut { length shut.now ≡ count }
    requires size { length seen.old ≡ count }
    ensures { OnOk result (HasMore (opens count choices.now (base + x * ways) ways shut.now)
        seen.old seen.new list.old.items list.new.items) }
{
    for k in 0..ways {
        let y = choices[base + cell(count, ways, x, k)] as usize;
        if y >= count {
            continue;
        }
        if shut[y] {
            continue;
        }
        if seen[y] {
            continue;
        }
        seen[y] = true;
        list.push(y)?;
    }
    Ok(())
}

/// Raises the flags of all channels that packets come to from those whose flags are up, by
/// choices, but over none that is shut. They are listed, and so are then all that are up.
///
/// Errors: out of memory.
pub fn spread<A: Allocator>(
    kinds: &[Kind],
    choices: &[u32],
    base: usize,
    ways: usize,
    shut: &[bool],
    seen: &mut [bool],
    list: &mut Vec<usize, A>,
) -> Result<(), AllocError>
    requires room { base + length kinds.now * ways ≤ length choices.now }
    requires shut { length shut.now ≡ length kinds.now }
    requires size { length seen.old ≡ length kinds.now }
    requires listed { AreFlagsOf seen.old list.old.items }
    ensures spread { OnOk result
        (HasSpread (choice_step kinds.now choices.now base ways shut.now) seen.old seen.new) }
    ensures listed { OnOk result (AreFlagsOf seen.new list.new.items) }
{
    let mut at = 0;
    'steps: while at < list.len() {
        let x = list[at];
        at += 1;
        if !goes_on(kinds, x) {
            continue;
        }
        more_from(kinds.len(), choices, base, ways, shut, seen, list, x)?;
    }
    Ok(())
}
