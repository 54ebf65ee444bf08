//! The end of a line, which grows towards the front.

ghost use Rattle.std.specs.Prelude.{◌≡◌, ◌+◌, ◌≤◌, ◌<◌, ◌∷◌, ◌++◌, [], length, decimal};

use itoa::write_digits;
use std::marker::Model;
use std::str;

/// The end of a line of at most 128 bytes, in place. Each word goes in front of those that stand,
/// so that the digits of a number are written where they stay.
#[derive(Drop)]
pub(crate) struct Tail {
    bytes: [u8; 128],
    start: usize,
}

impl Model for Tail {
    ghost use Rattle.std.specs.Prelude.{ℕ, List, ◌≤◌, drop, IsUtf8};

    ghost Value = { List ℕ };

    ghost view = { λ t. drop t.start t.bytes };

    ghost invariant = { λ t. (t.start ≤ 128) × ∥ IsUtf8 (drop t.start t.bytes) ∥₁ };
}

impl Tail {
    /// The end of a line that is its line feed alone.
    pub(crate) fn of_line_feed() -> Self
        ensures { result ≡ 10 ∷ [] }
    {
        let mut tail = Tail {
            bytes: [0; 128],
            start: 128,
        };
        tail.put_byte(b'\n');
        tail
    }

    /// The bytes that stand.
    #[inline]
    pub(crate) fn bytes(&self) -> &[u8]
        ensures { result.now ≡ self.now }
    {
        &self.bytes[self.start..]
    }

    /// The bytes that stand, as a text.
    pub(crate) fn text(&self) -> &str
        ensures text { result.now ≡ self.now }
        ensures fits { length result.now ≤ 128 }
    {
        match str::from_utf8(&self.bytes[self.start..]) {
            Ok(text) => text,
            Err(_) => "",
        }
    }

    /// Puts a character of ASCII in front.
    #[inline]
    fn put_byte(&mut self, byte: u8)
        requires room { length self.old + 1 ≤ 128 }
        requires ascii { byte < 128 }
        ensures { self.new ≡ byte ∷ self.old }
    {
        self.start -= 1;
        self.bytes[self.start] = byte;
    }

    /// Puts a word in front.
    #[inline]
    pub(crate) fn put_start(&mut self, word: &str)
        requires { length self.old + length word.now ≤ 128 }
        ensures { self.new ≡ word.now ++ self.old }
    {
        let start = self.start - word.len();
        self.bytes[start..self.start].copy_from_slice(word.as_bytes());
        self.start = start;
    }

    /// Puts a space and a word in front.
    #[inline]
    pub(crate) fn put_word(&mut self, word: &str)
        requires { length self.old + length word.now + 1 ≤ 128 }
        ensures text { self.new ≡ 32 ∷ word.now ++ self.old }
        ensures len { length self.new ≡ length self.old + length word.now + 1 }
    {
        self.put_start(word);
        self.put_byte(b' ');
    }

    /// Puts a number in front.
    #[inline]
    fn put_digits(&mut self, n: u64)
        requires { length self.old + length (decimal n) ≤ 128 }
        ensures { self.new ≡ decimal n ++ self.old }
    {
        self.start = write_digits(n, &mut self.bytes, self.start);
    }

    /// Puts a space and a number of 64 bits in front.
    #[inline]
    pub(crate) fn put_value(&mut self, n: u64)
        requires { length self.old + 21 ≤ 128 }
        ensures text { self.new ≡ 32 ∷ decimal n ++ self.old }
        ensures len { length self.new ≤ length self.old + 21 }
    {
        self.put_digits(n);
        self.put_byte(b' ');
    }

    /// Puts a space and a number of 32 bits in front.
    #[inline]
    pub(crate) fn put_index(&mut self, n: u32)
        requires { length self.old + 11 ≤ 128 }
        ensures text { self.new ≡ 32 ∷ decimal n ++ self.old }
        ensures len { length self.new ≤ length self.old + 11 }
    {
        self.put_digits(n as u64);
        self.put_byte(b' ');
    }

    /// Puts an `x` and a number in front.
    pub(crate) fn put_crossed(&mut self, n: u32)
        requires { length self.old + 11 ≤ 128 }
        ensures text { self.new ≡ 120 ∷ decimal n ++ self.old }
        ensures len { length self.new ≤ length self.old + 11 }
    {
        self.put_digits(n as u64);
        self.put_byte(b'x');
    }
}
