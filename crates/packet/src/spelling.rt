//! The flits that spell a packet.

ghost use Rattle.std.specs.Prelude.{◌≡◌, ℕ, ◌<◌, ◌≤◌, ◌+◌, ◌^◌, ◌++◌, List, length, All};
ghost use Rattle.arrayvec.specs.ArrayVec.{array_vec_len};
ghost use Rattle.packet.specs.Flit.{class_number};
ghost use Rattle.packet.specs.Numbers.{code_number};
ghost use Rattle.packet.specs.Spelling.{Spells, IsSpellable, values_of, heading_of, word_or_place};
ghost use Rattle.packet.specs.Flits.{flits_of};
ghost use Rattle.packet.specs.Written.{head_flit, value_flits, flits_for};

use crate::flit::{FLIT, HEAD, TAIL};
use crate::{Code, Op, Packet, Reply};
use arrayvec::ArrayVec;
use torus::{Class, Tag};

/// The flits of a packet, at most 5: a head flit, and two for each value that the packet brings, the
/// high half first. The caller sees to it that both tiles are below 64, that the tag is below 16, and
/// that a reply is `Ok` exactly with the code of store.
pub fn flits(packet: &Packet) -> ArrayVec<u64, 5>
    requires { IsSpellable packet.now }
    ensures spells { Spells packet.now result.items }
    ensures alone { (other : List ℕ) → Spells packet.now other → other ≡ result.items }
    ensures list { result.items ≡ flits_of packet.now }
{
    flits_for(head_flit_of(packet), &values_of(packet))
}

/// A head flit, and the flits of at most two values.
fn flits_for(head: u64, values: &[u64]) -> ArrayVec<u64, 5>
    requires head { head < 2 ^ 63 + 2 ^ 62 }
    requires values { length values.now ≤ 2 }
    ensures flits { result.items ≡ flits_for head values.now }
    ensures words { All (λ v. v < 2 ^ 64) values.now }
{
    let mut flits = ArrayVec::new();
    match *values {
        [] => flits.push(TAIL + head),
        [value] => {
            flits.push(head);
            push_value(&mut flits, value, true);
        }
        [first, second, ..] => {
            flits.push(head);
            push_value(&mut flits, first, false);
            push_value(&mut flits, second, true);
        }
    }
    flits
}

/// The values that a packet brings.
fn values_of(packet: &Packet) -> ArrayVec<u64, 2>
    ensures { result.items ≡ values_of packet.now }
{
    let mut values = ArrayVec::new();
    match *packet {
        Packet::Request(asked) => match asked.op {
            Op::Load => {}
            Op::Cas(expected, new) => {
                values.push(expected);
                values.push(new);
            }
            Op::Store(value)
            | Op::Swap(value)
            | Op::Add(value)
            | Op::And(value)
            | Op::Or(value)
            | Op::Xor(value)
            | Op::Max(value)
            | Op::Min(value) => values.push(value),
        },
        Packet::Response(told) => {
            if let Reply::Old(word) = told.reply {
                values.push(word);
            }
        }
    }
    values
}

/// The head flit of a packet, without the tail bit.
fn head_flit_of(packet: &Packet) -> u64
    requires { IsSpellable packet.now }
    ensures bits { result ≡ head_flit (heading_of packet.now) }
    ensures below { result < 2 ^ 63 + 2 ^ 62 }
    ensures place { word_or_place packet.now < 2 ^ 32 }
{
    match *packet {
        Packet::Request(asked) => head_flit(
            Class::Request,
            asked.op.code(),
            asked.destination,
            asked.source,
            asked.tag,
            asked.word,
        ),
        Packet::Response(told) => head_flit(
            Class::Reply,
            told.code,
            told.destination,
            told.source,
            told.tag,
            told.place,
        ),
    }
}

/// The head flit that carries these fields, without the tail bit.
fn head_flit(class: Class, code: Code, destination: u32, source: u32, tag: Tag, place: u32) -> u64
    requires destination { destination < 64 }
    requires source { source < 64 }
    requires tag { tag.0 < 16 }
    ensures bits { result ≡ head_flit (record {
      operation = code_number code;
      class = class_number class;
      destination = destination;
      source = source;
      tag = tag.0;
      place = place;
    }) }
    ensures below { result < 2 ^ 63 + 2 ^ 62 }
    ensures place { place < 2 ^ 32 }
{
    let operation = u64::from(code.number());
    HEAD + FLIT
        + (operation % 8 << 58)
        + (class_number(class) << 57)
        + (u64::from(destination) << 51)
        + (u64::from(source) << 45)
        + (u64::from(tag.0) << 41)
        + (operation / 8 << 40)
        + u64::from(place)
}

/// The number of a class in a head flit.
fn class_number(class: Class) -> u64
    ensures value { result ≡ class_number class }
    ensures below { result < 2 }
{
    match class {
        Class::Request => 0,
        Class::Reply => 1,
    }
}

/// Adds the two flits of a value, the high half first; the last value of a packet ends with its tail.
fn push_value(flits: &mut ArrayVec<u64, 5>, value: u64, last: bool)
    requires { array_vec_len flits.old + 2 ≤ 5 }
    ensures { flits.new.items ≡ flits.old.items ++ value_flits last value }
{
    let tail = if last { TAIL } else { 0 };
    let high = value >> 32;
    let low = value & 0xFFFF_FFFF;
    flits.push(FLIT + high);
    flits.push(tail + FLIT + low);
}
