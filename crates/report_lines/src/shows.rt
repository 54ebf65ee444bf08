//! What a report is made of, lent row by row.

ghost use Rattle.std.specs.Prelude.{◌≡◌, [], length, slice_get, slice_index_or};
ghost use Rattle.report_lines.specs.Parts.{Contents};

use crate::line::OrderLine;
use crate::parts::{AnswerRow, EntryRow};
use torus::Torus;

/// What has the contents of a report, and lends them.
pub trait Shows {
    /// What it shows.
    ghost contents: { Self → Contents };

    fn torus(&self) -> &Torus
        ensures { result.now ≡ (contents self.now).shape };

    /// The number of words.
    fn words(&self) -> usize
        ensures { result ≡ length (contents self.now).opening };

    /// The word of an address at the beginning; `None` exactly where there is no such address.
    fn opening(&self, address: u32) -> Option<u64>
        ensures { result ≡ slice_get (contents self.now).opening address };

    /// The number of entries of a bank; 0 where there is no such bank.
    fn entries(&self, bank: u32) -> usize
        ensures { result ≡ length (slice_index_or (contents self.now).entries bank []) };

    /// The entry of a bank at a place; `None` exactly where there is none.
    fn entry(&self, bank: u32, place: usize) -> Option<EntryRow>
        ensures { result ≡ slice_get (slice_index_or (contents self.now).entries bank []) place };

    /// The number of answers of a processor; 0 where there is no such processor.
    fn answers(&self, processor: u32) -> usize
        ensures { result ≡ length (slice_index_or (contents self.now).answers processor []) };

    /// An answer of a processor, in any order; `None` exactly where there is none.
    fn answer(&self, processor: u32, number: usize) -> Option<AnswerRow>
        ensures { result
            ≡ slice_get (slice_index_or (contents self.now).answers processor []) number };

    /// The word of an address at the end; `None` exactly where there is no such address.
    fn word(&self, address: u32) -> Option<u64>
        ensures { result ≡ slice_get (contents self.now).last address };

    /// The number of order lines.
    fn order_lines(&self) -> usize
        ensures { result ≡ length (contents self.now).order };

    /// An entry in the order of service; `None` exactly where there is none.
    fn order_line(&self, number: usize) -> Option<OrderLine>
        ensures { result ≡ slice_get (contents self.now).order number };

    /// Whether every script is finished.
    fn finished(&self) -> bool
        ensures { result ≡ (contents self.now).finished };
}
