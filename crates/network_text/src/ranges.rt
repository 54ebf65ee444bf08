//! Which channels a word behind `join` names.

ghost use Rattle.std.specs.Prelude.{◌≡◌, ◌⊎◌, ◌≤◌, ◌<◌, [], ◌∷◌, ◌++◌, ◌+◌, length, map, min, drop};
ghost use Rattle.std.specs.Prelude.{Ok, Err, IfErr, IfOk, OnOk};
ghost use Rattle.std.specs.List.{All, slice_split, position_or_len};
ghost use Rattle.network_text.specs.AllPairs.{channels_with};
ghost use Rattle.network_text.specs.Ranges.{is_comma, is_dash, range_of_one, range_between};
ghost use Rattle.network_text.specs.Ranges.{range_of_ends, range_at, ranges_of, ranges_at};
ghost use Rattle.network_text.specs.Ranges.{listed_at};
ghost use Rattle.network_text.specs.Ranges.{channels_between, channels_of};

use crate::all_pairs::{End, channels_with};
use crate::lines::number_at;
use crate::reason::NetworkReason;
use lexer::index;
use network_judge::Kind;
use std::alloc::{AllocError, Allocator};

/// More channels than a line `join` may give.
const TOO_MANY: usize = 4194305;

/// The channels from a first to a last one.
#[derive(Clone, Copy)]
pub(crate) struct ChannelRange {
    pub first: usize,
    pub last: usize,
}

/// The range from one channel to another, which is not below it.
fn range_between(place: u32, first: u32, last: u32) -> Result<ChannelRange, NetworkReason>
    ensures { result ≡ range_between place first last }
{
    if first > last {
        return Err(NetworkReason::RangeFalls(place));
    }
    Ok(ChannelRange {
        first: first as usize,
        last: last as usize,
    })
}

/// Where the first dash stands, or the end.
fn dash_at(part: &[u8]) -> usize
    ensures value { result ≡ position_or_len is_dash part.now }
    ensures within { result ≤ length part.now }
{
    for (i, byte) in part.iter().enumerate() {
        if *byte == b'-' {
            return i;
        }
    }
    part.len()
}

/// What stands behind a place.
fn behind(part: &[u8], place: usize) -> &[u8]
    requires { place ≤ length part.now }
    ensures { result.now ≡ drop (place + 1) part.now }
{
    if place == part.len() {
        return b"";
    }
    &part[place + 1..]
}

/// The range whose ends stand before and behind the first dash.
fn range_of_ends(place: u32, part: &[u8]) -> Result<ChannelRange, NetworkReason>
    ensures { result ≡ range_of_ends place part.now }
{
    let dash = dash_at(part);
    match (
        number_at(place, &part[..dash]),
        number_at(place, behind(part, dash)),
    ) {
        (Ok(first), Ok(last)) => range_between(place, first, last),
        (Err(reason), _) => Err(reason),
        (Ok(_), Err(reason)) => Err(reason),
    }
}

/// The range that a part of a list names.
fn range_at(place: u32, part: &[u8]) -> Result<ChannelRange, NetworkReason>
    ensures { result ≡ range_at place part.now }
{
    match index(part) {
        Some(x) => Ok(ChannelRange {
            first: x as usize,
            last: x as usize,
        }),
        None => range_of_ends(place, part),
    }
}

/// The parts of a word between its commas.
fn parts_of<A: Allocator>(alloc: A, word: &[u8]) -> Result<Vec<&[u8], A>, AllocError>
    ensures { IfOk result (λ parts. map (λ part. part.now) parts.items
        ≡ slice_split is_comma word.now) }
{
    word.split(|byte| *byte == b',').collect(alloc)
}

/// Puts a range behind others.
fn put_range<A: Allocator>(
    ranges: &mut Vec<ChannelRange, A>,
    range: ChannelRange,
) -> Result<(), AllocError>
    ensures { OnOk result (ranges.new.items ≡ ranges.old.items ++ range ∷ []) }
{
    ranges.push(range)?;
    Ok(())
}

/// The ranges that the parts of a list name.
fn ranges_of<A: Allocator + Copy>(
    alloc: A,
    place: u32,
    parts: &[&[u8]],
) -> Result<Vec<ChannelRange, A>, NetworkReason>
    ensures ranges { IfOk result (λ ranges. ranges_of place (map (λ part. part.now) parts.now)
        ≡ Ok ranges.items) }
    ensures reason { IfErr result (λ e. (e ≡ NetworkReason.Memory)
        ⊎ (ranges_of place (map (λ part. part.now) parts.now) ≡ Err e)) }
{
    let mut ranges = Vec::new(alloc);
    for part in parts {
        let range = range_at(place, *part)?;
        put_range(&mut ranges, range)?;
    }
    Ok(ranges)
}

/// The ranges that a word names, of the word at this place of its line.
fn ranges_at<A: Allocator + Copy>(
    alloc: A,
    place: u32,
    word: &[u8],
) -> Result<Vec<ChannelRange, A>, NetworkReason>
    ensures ranges { IfOk result (λ ranges. ranges_at place word.now ≡ Ok ranges.items) }
    ensures reason { IfErr result (λ e. (e ≡ NetworkReason.Memory)
        ⊎ (ranges_at place word.now ≡ Err e)) }
{
    let parts = parts_of(alloc, word)?;
    ranges_of(alloc, place, parts.as_slice())
}

/// The channels with such an end, each as a range.
fn ranges_with<A: Allocator + Copy>(
    alloc: A,
    kinds: &[Kind],
    end: End,
) -> Result<Vec<ChannelRange, A>, AllocError>
    ensures { IfOk result (λ ranges. ranges.items
        ≡ map range_of_one (channels_with end kinds.now)) }
{
    let channels = channels_with(alloc, kinds, end)?;
    let mut ranges = Vec::new(alloc);
    for x in channels.as_slice() {
        ranges.push(ChannelRange {
            first: *x,
            last: *x,
        })?;
    }
    Ok(ranges)
}

/// The ranges that a word behind `join` names, of the word at this place of its line: by `all` each
/// channel with such an end.
///
/// Errors: why the line is refused.
pub(crate) fn listed_at<A: Allocator + Copy>(
    alloc: A,
    kinds: &[Kind],
    end: End,
    place: u32,
    word: &[u8],
) -> Result<Vec<ChannelRange, A>, NetworkReason>
    ensures ranges { IfOk result (λ ranges. listed_at kinds.now end place word.now
        ≡ Ok ranges.items) }
    ensures reason { IfErr result (λ e. (e ≡ NetworkReason.Memory)
        ⊎ (listed_at kinds.now end place word.now ≡ Err e)) }
{
    if word != b"all".as_slice() {
        return ranges_at(alloc, place, word);
    }
    let ranges = ranges_with(alloc, kinds, end)?;
    Ok(ranges)
}

/// How many channels ranges have, as far as a line `join` may give.
pub(crate) fn size_of(ranges: &[ChannelRange]) -> usize
    requires { All (λ range. range.last < 65536) ranges.now }
    ensures size { result ≡ min (length (channels_of ranges.now)) 4194305 }
    ensures few { result ≤ 4194305 }
{
    let mut size = 0;
    for range in ranges {
        size = (size + (range.last + 1).saturating_sub(range.first)).min(TOO_MANY);
    }
    size
}

/// Puts the channels of a range behind others.
fn put_channels<A: Allocator>(
    channels: &mut Vec<usize, A>,
    range: ChannelRange,
) -> Result<(), AllocError>
    requires { range.last < 65536 }
    ensures { OnOk result (channels.new.items ≡ channels.old.items ++ channels_between range) }
{
    let size = (range.last + 1).saturating_sub(range.first);
    for k in 0..size {
        channels.push(range.first + k)?;
    }
    Ok(())
}

/// The channels of ranges, one range after another.
///
/// Errors: out of memory.
pub(crate) fn channels_of<A: Allocator>(
    alloc: A,
    ranges: &[ChannelRange],
) -> Result<Vec<usize, A>, AllocError>
    requires { All (λ range. range.last < 65536) ranges.now }
    ensures { IfOk result (λ channels. channels.items ≡ channels_of ranges.now) }
{
    let mut channels = Vec::new(alloc);
    for range in ranges {
        put_channels(&mut channels, *range)?;
    }
    Ok(channels)
}
