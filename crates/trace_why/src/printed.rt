//! Replies and values, as a reader sees them.

use packet::Reply;
use std::fmt;

/// A reply, as a trace text has it.
#[derive(Clone, Copy)]
pub struct ReplyWord {
    pub reply: Reply,
}

impl fmt::Display for ReplyWord {
    fn fmt<W: fmt::Write>(&self, f: &mut fmt::Formatter<W>) -> fmt::Result {
        match self.reply {
            Reply::Ok => f.write_str("ok"),
            Reply::Old(word) => write!(f, "{word}"),
        }
    }
}

/// How many values are printed at most.
const MOST_VALUES: usize = 16;

/// Values, as `3`, `3 or 4`, or `3, 4 or 5`; of many the first ones, and how many others there are.
#[derive(Clone, Copy)]
pub(crate) struct Values<'a> {
    pub(crate) values: &'a [u64],
}

/// What stands before the value at a place of so many.
fn before_value(place: usize, count: usize) -> &'static str {
    if place == 0 {
        return "";
    }
    if place < count.saturating_sub(1) || count > MOST_VALUES {
        return ", ";
    }
    " or "
}

impl<'a> fmt::Display for Values<'a> {
    fn fmt<W: fmt::Write>(&self, f: &mut fmt::Formatter<W>) -> fmt::Result {
        let count = self.values.len();
        for i in 0..count {
            if i >= MOST_VALUES {
                return write!(f, " or one of {} others", count - i);
            }
            write!(f, "{}{}", before_value(i, count), self.values[i])?;
        }
        Ok(())
    }
}
