//! The flits of a packet become the packet again.

ghost use Rattle.std.specs.Prelude.{◌≡◌, ◌≤◌, ◌<◌, ◌^◌, ◌↔◌, ◌++◌, ◌∷◌, [], Some, length};
ghost use Rattle.packet.specs.Flit.{operation_told};
ghost use Rattle.packet.specs.Spelling.{Spells, ProperlyBegins};
ghost use Rattle.packet.specs.Refusal.{flits_told, tail_wanted, refusal_at_start, refusal_inside, refusal};
ghost use Rattle.packet.specs.Answer.{flits_left};
ghost use Rattle.packet.specs.Flits.{offered};
ghost use Rattle.packet.specs.declared.kinds.Packet.{Packet};
ghost use Rattle.packet.specs.declared.assembler.Kind.{Kind};
ghost use Rattle.packet.specs.declared.assembler.Offered.TheVariants.{More, Whole, Refused};
ghost use Rattle.packet.specs.Reading.{code_numbered, reply_with, half_at, value_at, packet_told};

use crate::flit::{field, is_tail, operation_told};
use crate::{Code, Op, Packet, Reply, Request, Response};
use arrayvec::ArrayVec;
use std::marker::Model;
use torus::Tag;

/// Why a flit is refused. At the start of a packet the first that applies of `NoFlit`, `NotBegun`,
/// `Operation`, `Zeros` and `Tail`; inside a packet of `NoFlit`, `Inside`, `Zeros` and `Tail`.
#[derive(Clone, Copy, Debug, PartialEq, Eq)]
pub enum Kind {
    /// Bit 61 is 0.
    NoFlit,
    /// Bit 63 is 0 at the start of a packet.
    NotBegun,
    /// Bit 63 is 1 inside a packet.
    Inside,
    /// The operation of a head flit is above 9.
    Operation,
    /// A bit of 39..32 of a head flit, or of 60..32 of another flit, is 1.
    Zeros,
    /// Bit 62 is 1 before the last flit of the packet, or 0 at the last.
    Tail,
}

/// What an assembler makes of a flit.
#[derive(Clone, Copy, Debug, PartialEq, Eq)]
pub enum Offered {
    /// The flit is taken, and the packet has more.
    More,
    /// The flit is the last of this packet.
    Whole(Packet),
    /// The flit is not taken, and nothing has changed.
    Refused(Kind),
}

/// Takes the flits of one packet after the other.
#[derive(Drop)]
pub struct Assembler {
    flits: ArrayVec<u64, 5>,
}

/// Contracts see an assembler as the flits so far of the packet that it has begun.
impl Model for Assembler {
    ghost use Rattle.std.specs.Prelude.{List, ℕ};
    ghost use Rattle.packet.specs.Reading.{IsBegun};

    ghost Value = { List ℕ };

    ghost view = { λ a. a.flits.items };

    ghost invariant = { λ a. IsBegun a.flits.items };
}

impl Assembler {
    /// An assembler that has begun no packet.
    pub fn new() -> Assembler
        ensures { result ≡ [] }
    {
        Assembler {
            flits: ArrayVec::new(),
        }
    }

    /// Takes the next flit, or refuses it. With the flits so far: `Whole` exactly if they spell a
    /// packet, and the assembler has begun none then; `More` exactly if they begin a spelling and
    /// are not the whole of it; else `Refused`, and nothing has changed.
    pub fn offer(&mut self, flit: u64) -> Offered
        ensures whole { (p : Packet) → (result ≡ Whole p) ↔ Spells p (self.old ++ flit ∷ []) }
        ensures more { (result ≡ More) ↔ ProperlyBegins (self.old ++ flit ∷ []) }
        ensures refused { (k : Kind) → (result ≡ Refused k) ↔ (refusal self.old flit ≡ Some k) }
        ensures answer { result ≡ offered self.old flit }
        ensures left { self.new ≡ flits_left result self.old flit }
    {
        if let Some(kind) = refusal(&self.flits, flit) {
            return Offered::Refused(kind);
        }
        self.flits.push(flit);
        if !is_tail(flit) {
            return Offered::More;
        }
        let packet = packet_told(&self.flits);
        self.flits.clear();
        Offered::Whole(packet)
    }
}

/// The first thing wrong with a flit after the flits so far of a packet.
fn refusal(so_far: &[u64], flit: u64) -> Option<Kind>
    ensures { result ≡ refusal so_far.now flit }
{
    match *so_far {
        [] => refusal_at_start(flit),
        [head, ..] => refusal_inside(head, so_far.len(), flit),
    }
}

/// The first thing wrong with a flit at the start of a packet.
fn refusal_at_start(flit: u64) -> Option<Kind>
    ensures { result ≡ refusal_at_start flit }
{
    if field(flit, 61, 1) == 0 {
        Some(Kind::NoFlit)
    } else if field(flit, 63, 1) == 0 {
        Some(Kind::NotBegun)
    } else if operation_told(flit) > 9 {
        Some(Kind::Operation)
    } else if field(flit, 32, 8) > 0 {
        Some(Kind::Zeros)
    } else if field(flit, 62, 1) == tail_wanted(flit, 0) {
        None
    } else {
        Some(Kind::Tail)
    }
}

/// The first thing wrong with a flit after `before` flits of a packet.
fn refusal_inside(head: u64, before: usize, flit: u64) -> Option<Kind>
    ensures { result ≡ refusal_inside head before flit }
{
    if field(flit, 61, 1) == 0 {
        Some(Kind::NoFlit)
    } else if field(flit, 63, 1) == 1 {
        Some(Kind::Inside)
    } else if field(flit, 32, 29) > 0 {
        Some(Kind::Zeros)
    } else if field(flit, 62, 1) == tail_wanted(head, before) {
        None
    } else {
        Some(Kind::Tail)
    }
}

/// The tail bit that a flit has after `before` flits of the packet that the head flit begins.
fn tail_wanted(head: u64, before: usize) -> u64
    ensures { result ≡ tail_wanted head before }
{
    if flits_told(head) - 1 == before { 1 } else { 0 }
}

/// How many flits the packet has that a head flit begins.
fn flits_told(head: u64) -> usize
    ensures value { result ≡ flits_told head }
    ensures some { 0 < result }
    ensures most { result ≤ 5 }
{
    match (field(head, 57, 1), operation_told(head)) {
        (0, 0) => 1,
        (0, 3) => 5,
        (0, _) => 3,
        (_, 1) => 1,
        (_, _) => 3,
    }
}

/// The packet that a head flit and the flits after it carry.
fn packet_told(flits: &[u64]) -> Packet
    requires { 0 < length flits.now }
    ensures { result ≡ packet_told flits.now }
{
    let head = flits[0];
    let destination = field(head, 51, 6) as u32;
    let source = field(head, 45, 6) as u32;
    let tag = Tag(field(head, 41, 4) as u32);
    let place = field(head, 0, 32) as u32;
    let code = code_numbered(operation_told(head) as u32);
    let value = value_at(flits, 1);
    if field(head, 57, 1) == 0 {
        Packet::Request(Request {
            destination,
            source,
            tag,
            word: place,
            op: Op::with(code, value, value_at(flits, 3)),
        })
    } else {
        Packet::Response(Response {
            destination,
            source,
            tag,
            place,
            code,
            reply: reply_with(code, value),
        })
    }
}

/// The operation that a number from 0 to 9 says.
fn code_numbered(number: u32) -> Code
    ensures { result ≡ code_numbered number }
{
    Code::numbered(number).unwrap_or(Code::Min)
}

/// The reply to an operation of this name that found `word`.
fn reply_with(code: Code, word: u64) -> Reply
    ensures { result ≡ reply_with code word }
{
    match code {
        Code::Store => Reply::Ok,
        _ => Reply::Old(word),
    }
}

/// The value in flits `at` and `at + 1`, 0 where there are none.
fn value_at(flits: &[u64], at: usize) -> u64
    requires { at < 5 }
    ensures { result ≡ value_at flits.now at }
{
    (half_at(flits, at) << 32) + half_at(flits, at + 1)
}

/// The half of a value in flit `at`, 0 where there is none.
fn half_at(flits: &[u64], at: usize) -> u64
    ensures value { result ≡ half_at flits.now at }
    ensures below { result < 2 ^ 32 }
{
    let flit = flits.get(at).copied().unwrap_or(0);
    field(flit, 0, 32)
}
