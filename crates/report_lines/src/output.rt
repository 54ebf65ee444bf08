ghost use Rattle.std.specs.Prelude.{◌≡◌, ℕ, ◌≤◌, List, length, take, Option, OnOk, OnErr};
ghost use Rattle.std.specs.Io.KnownBytes.{Appends};
ghost use Rattle.report_lines.specs.Taken.{failures_after, Rose, AppendsFront};

use std::error::Error;
use std::fmt::{self, Display};
use std::io::Write;

/// Takes bytes, perhaps not all of them at once.
pub trait Out {
    /// The bytes taken so far, where they are known.
    ghost taken: { Self → Option (List ℕ) };

    /// How many puts of some bytes took none of them. The count stays at `u64::MAX`.
    ghost failures: { Self → ℕ };

    /// Takes a beginning of the bytes, and answers its length.
    fn put(&mut self, bytes: &[u8]) -> usize
        ensures bound { result ≤ length bytes.now }
        ensures bytes { Appends (taken self.old) (taken self.new) (take result bytes.now) }
        ensures count { failures self.new
            ≡ failures_after (failures self.old) (length bytes.now) result };
}

/// An output over any writer. An error takes no byte, and the write is not tried again.
#[derive(Drop)]
pub struct Piped<W> {
    writer: W,
    failures: u64,
}

impl<W: Write> Piped<W> {
    /// An output over the writer, with no failed put.
    pub fn new(writer: W) -> Self
        ensures writer { result.writer ≡ writer }
        ensures none { result.failures ≡ 0 }
    {
        Piped {
            writer,
            failures: 0,
        }
    }
}

impl<W: Write> Out for Piped<W> {
    ghost taken = { λ p. W.contents p.writer };

    ghost failures = { λ p. p.failures };

    fn put(&mut self, bytes: &[u8]) -> usize {
        let taken = self.writer.write(bytes).unwrap_or(0);
        if !bytes.is_empty() && taken == 0 {
            self.failures = self.failures.saturating_add(1);
        }
        taken
    }
}

/// The output took none of some bytes that it was given.
#[derive(Clone, Copy, Debug, PartialEq, Eq)]
pub struct OutputFailed;

impl Display for OutputFailed {
    ghost use Rattle.std.specs.Prelude.{Some, codes};

    ghost output = { λ _. Some (codes "output failed") };

    fn fmt<W: fmt::Write>(&self, f: &mut fmt::Formatter<W>) -> fmt::Result {
        f.write_str("output failed")
    }
}

impl Error for OutputFailed {}

/// Puts all of the bytes, in as many puts as it takes.
pub fn put_all<W: Out>(out: &mut W, bytes: &[u8]) -> Result<(), OutputFailed>
    ensures ok { OnOk result (Appends (W.taken out.old) (W.taken out.new) bytes.now) }
    ensures err { OnErr result (AppendsFront (W.taken out.old) (W.taken out.new) bytes.now) }
    ensures quiet { OnOk result (W.failures out.new ≡ W.failures out.old) }
    ensures failed { OnErr result (Rose (W.failures out.old) (W.failures out.new)) }
{
    let mut done = 0;
    while done < bytes.len() {
        let taken = out.put(&bytes[done..]);
        if taken == 0 {
            return Err(OutputFailed);
        }
        done += taken;
    }
    Ok(())
}
