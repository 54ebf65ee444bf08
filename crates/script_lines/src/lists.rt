ghost use Rattle.std.specs.Prelude.{◌≡◌};
ghost use Rattle.script_lines.specs.Lines.{operations_of, mentions_last, is_last};

use crate::{Line, Value};
use std::alloc::{Allocator, Global};

/// The script of one processor, in the order of the text.
#[derive(Drop)]
pub struct LineList<A: Allocator = Global> {
    pub lines: Vec<Line, A>,
}

impl Line {
    /// The most operations that the line issues: one, none for a fence, the greatest number of its
    /// loads for a spin.
    pub fn operations(self) -> u32
        ensures { result ≡ operations_of self }
    {
        match self {
            Line::Fence => 0,
            Line::Spin(_, _, m) => m,
            Line::Load(_) => 1,
            Line::Store(_, _) => 1,
            Line::Swap(_, _) => 1,
            Line::Cas(_, _, _) => 1,
            Line::Add(_, _) => 1,
            Line::And(_, _) => 1,
            Line::Or(_, _) => 1,
            Line::Xor(_, _) => 1,
            Line::Max(_, _) => 1,
            Line::Min(_, _) => 1,
        }
    }

    /// Whether the line has a value `last`.
    pub fn mentions_last(self) -> bool
        ensures { result ≡ mentions_last self }
    {
        match self {
            Line::Fence => false,
            Line::Spin(_, _, _) => false,
            Line::Load(_) => false,
            Line::Store(_, v) => v.is_last(),
            Line::Swap(_, v) => v.is_last(),
            Line::Cas(_, e, n) => e.is_last() || n.is_last(),
            Line::Add(_, v) => v.is_last(),
            Line::And(_, v) => v.is_last(),
            Line::Or(_, v) => v.is_last(),
            Line::Xor(_, v) => v.is_last(),
            Line::Max(_, v) => v.is_last(),
            Line::Min(_, v) => v.is_last(),
        }
    }
}

impl Value {
    /// Whether the value is `last`.
    pub fn is_last(self) -> bool
        ensures { result ≡ is_last self }
    {
        match self {
            Value::Number(_) => false,
            Value::Last => true,
        }
    }
}
