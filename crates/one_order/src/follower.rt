//! The follower of one processor's script.

ghost use Rattle.std.specs.Prelude.{◌≡◌, ℕ, ◌^◌, ◌<◌, ◌≤◌, ◌==◌, ◌&&◌, length, drop, slice_get};
ghost use Rattle.std.specs.Prelude.{is_none, IsSome};
ghost use Rattle.std.specs.Prelude.{Some, None, ◌+◌, option_map, OnOk, OnErr};
ghost use Rattle.script_lines.specs.Lines.{operation_count, operations_of};
ghost use Rattle.one_order.specs.Scripts.{IsFollowable};
ghost use Rattle.one_order.specs.Following.{operand_of, operation_asked, ready_operation};
ghost use Rattle.one_order.specs.Following.{first_operation, opened};
ghost use Rattle.one_order.specs.Following.{spin_issued, ahead_issued, unfenced, is_empty};
ghost use Rattle.one_order.specs.Following.{past_fences, first_of};
ghost use Rattle.one_order.specs.Following.{next_operation_of, after_issue, after_answer};
ghost use Rattle.one_order.specs.Following.{is_finished};
ghost use Rattle.one_order.specs.Following.{follower_with, left_of};

use crate::spin::{OpenSpin, reply_number, spin_answered};
use packet::{Op, Operation, Reply};
use script_lines::{Line, Value};
use std::alloc::{AllocError, Allocator, Global};
use std::marker::Model;

/// Follows one processor's script: which operation is next, given the answers so far.
#[derive(Drop)]
pub struct Follower<A: Allocator = Global> {
    lines: Vec<Line, A>,
    /// The first line of which nothing is issued.
    at: usize,
    spin: Option<OpenSpin>,
    issued: u32,
    /// How many of the operations issued await an answer.
    waiting: u32,
    /// The reply to the last operation, once it is answered.
    last: Option<Reply>,
}

impl<A: Allocator> Model for Follower<A> {
    ghost use Rattle.one_order.specs.Following.{Following};

    ghost Value = { Following };

    ghost use Rattle.one_order.specs.Inside.{following_of, IsFollower};

    ghost view = { following_of };

    ghost invariant = { IsFollower };
}

impl<A: Allocator> Follower<A> {
    /// A follower of a script, at its start.
    pub fn new(lines: Vec<Line, A>) -> Follower<A>
        requires followable { IsFollowable lines.items }
        requires few { operation_count lines.items < 2 ^ 32 }
        ensures { result ≡ first_of lines.items }
    {
        let at = past_fences(lines.as_slice(), 0);
        Follower {
            lines,
            at,
            spin: None,
            issued: 0,
            waiting: 0,
            last: None,
        }
    }

    /// The address and the operation that is ready_operation to be issued, each `last` replaced. `None` exactly
    /// when none is ready_operation.
    pub fn next_operation(&self) -> Option<(u32, Op)>
        ensures { result ≡ option_map (λ o. (o.address, o.op)) (next_operation_of self.now) }
    {
        ready(self.spin, self.lines.as_slice(), self.at, self.last)
    }

    /// Issues the operation that is ready_operation: its index, counted from 0.
    pub fn issue(&mut self) -> u32
        requires { IsSome (next_operation_of self.old) }
        ensures index { result ≡ self.old.issued }
        ensures state { self.new ≡ after_issue self.old }
    {
        let index = self.issued;
        let (spin, at) = moved_on(self.spin, self.lines.as_slice(), self.at);
        self.spin = spin;
        self.at = at;
        self.issued += 1;
        self.waiting += 1;
        self.last = None;
        index
    }

    /// The operation of an index is answered. The index is to be one that is issued and not answered.
    pub fn answer(&mut self, index: u32, reply: Reply)
        ensures { self.new ≡ after_answer self.old index reply }
    {
        self.waiting = self.waiting.saturating_sub(1);
        if u64::from(index) + 1 == u64::from(self.issued) {
            self.spin = spin_answered(self.spin, reply);
            self.last = Some(reply);
        }
        self.at = unfenced(self.spin, self.waiting, self.lines.as_slice(), self.at);
    }

    /// Puts a line at the end of the script; where nothing is held back, a fence there comes to nothing.
    /// A spin has loads.
    ///
    /// Errors: out of memory; then nothing has changed.
    pub fn append(&mut self, line: Line) -> Result<(), AllocError>
        requires loads { (a v m : ℕ) → line ≡ Line.Spin a v m → 0 < m }
        requires few { self.old.issued + left_of self.old + operations_of line < 2 ^ 32 }
        ensures appended { OnOk result (self.new ≡ follower_with line self.old) }
        ensures same { OnErr result (self.new ≡ self.old) }
    {
        self.lines.try_reserve(1)?;
        self.lines.push_reserved(line);
        self.at = unfenced(self.spin, self.waiting, self.lines.as_slice(), self.at);
        Ok(())
    }

    /// Whether every operation is issued and answered, and no spin wants another load.
    pub fn finished(&self) -> bool
        ensures { result ≡ is_finished self.now }
    {
        is_finished(self.spin, self.waiting, self.lines.as_slice(), self.at)
    }
}

/// What an operand stands for, where the operation before has this reply.
fn operand_of(value: Value, last: Option<Reply>) -> Option<u64>
    ensures { result ≡ operand_of value last }
{
    match value {
        Value::Number(number) => Some(number),
        Value::Last => last.map(reply_number),
    }
}

/// The operation of a line, where the operation before has this reply. `None` where it isn't known,
/// and of a fence.
fn operation_of(line: Line, last: Option<Reply>) -> Option<Operation>
    ensures { result ≡ operation_asked line last }
{
    let (address, op) = match line {
        Line::Load(address) => (address, Op::Load),
        Line::Store(address, value) => (address, Op::Store(operand_of(value, last)?)),
        Line::Swap(address, value) => (address, Op::Swap(operand_of(value, last)?)),
        Line::Cas(address, expected, new) => (
            address,
            Op::Cas(operand_of(expected, last)?, operand_of(new, last)?),
        ),
        Line::Add(address, value) => (address, Op::Add(operand_of(value, last)?)),
        Line::And(address, value) => (address, Op::And(operand_of(value, last)?)),
        Line::Or(address, value) => (address, Op::Or(operand_of(value, last)?)),
        Line::Xor(address, value) => (address, Op::Xor(operand_of(value, last)?)),
        Line::Max(address, value) => (address, Op::Max(operand_of(value, last)?)),
        Line::Min(address, value) => (address, Op::Min(operand_of(value, last)?)),
        Line::Fence => return None,
        Line::Spin(address, _, _) => (address, Op::Load),
    };
    Some(Operation { address, op })
}

/// The operation that is ready_operation, where a spin is open or the lines from `at` on are ahead, and the
/// last operation has this reply.
fn ready(
    spin: Option<OpenSpin>,
    lines: &[Line],
    at: usize,
    last: Option<Reply>,
) -> Option<(u32, Op)>
    ensures { result ≡ option_map (λ o. (o.address, o.op))
        (ready_operation spin (drop at lines.now) last) }
{
    match spin {
        Some(open) => last.map(|_| (open.address, Op::Load)),
        None => {
            let operation = first_operation(lines, at, last)?;
            Some((operation.address, operation.op))
        }
    }
}

/// The operation of the line at `at`, if there is one.
fn first_operation(lines: &[Line], at: usize, last: Option<Reply>) -> Option<Operation>
    ensures { result ≡ first_operation (drop at lines.now) last }
{
    let line = lines.get(at)?;
    operation_of(*line, last)
}

/// The spin that the first load of a spin line opens.
fn opened(line: Line) -> Option<OpenSpin>
    requires { (a v m : ℕ) → line ≡ Line.Spin a v m → 0 < m }
    ensures { result ≡ opened line }
{
    match line {
        Line::Spin(address, sought, most) => Some(OpenSpin {
            address,
            sought,
            left: most - 1,
        }),
        _ => None,
    }
}

/// The spin, and the first line ahead, once the operation that is ready_operation is issued.
fn moved_on(spin: Option<OpenSpin>, lines: &[Line], at: usize) -> (Option<OpenSpin>, usize)
    requires left { (s : OpenSpin) → spin ≡ Some s → 0 < s.left }
    requires line { spin ≡ None → at < length lines.now }
    requires within { at ≤ length lines.now }
    requires loads { (k a v m : ℕ) → slice_get lines.now k ≡ Some (Line.Spin a v m) → 0 < m }
    ensures spin { result.0 ≡ spin_issued spin (drop at lines.now) }
    ensures ahead { drop result.1 lines.now ≡ ahead_issued spin (drop at lines.now) }
    ensures within { result.1 ≤ length lines.now }
{
    match spin {
        Some(open) => {
            let left = open.left - 1;
            (Some(OpenSpin { left, ..open }), at)
        }
        None => (opened(lines[at]), at + 1),
    }
}

/// The first line ahead: past every fence that comes next, where nothing waits for an answer and no
/// spin is open.
fn unfenced(spin: Option<OpenSpin>, waiting: u32, lines: &[Line], at: usize) -> usize
    requires { at ≤ length lines.now }
    ensures within { result ≤ length lines.now }
    ensures place { drop result lines.now ≡ unfenced spin waiting (drop at lines.now) }
{
    if waiting == 0 && spin.is_none() {
        past_fences(lines, at)
    } else {
        at
    }
}

/// Whether no line is ahead, no spin is open, and nothing waits for an answer.
fn is_finished(spin: Option<OpenSpin>, waiting: u32, lines: &[Line], at: usize) -> bool
    requires { at ≤ length lines.now }
    ensures { result ≡ (is_empty (drop at lines.now) && is_none spin && (waiting == 0)) }
{
    none_from(lines, at) && spin.is_none() && waiting == 0
}

/// Whether `at` is the end of the lines.
fn none_from(lines: &[Line], at: usize) -> bool
    requires { at ≤ length lines.now }
    ensures { result ≡ is_empty (drop at lines.now) }
{
    at == lines.len()
}

/// The first place from `at` on where no fence stands.
fn past_fences(lines: &[Line], at: usize) -> usize
    requires { at ≤ length lines.now }
    ensures within { result ≤ length lines.now }
    ensures place { drop result lines.now ≡ past_fences (drop at lines.now) }
{
    let mut at = at;
    while at < lines.len() && matches!(lines[at], Line::Fence) {
        at += 1;
    }
    at
}
