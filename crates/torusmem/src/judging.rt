//! A line that says that a long text is judged, or that packets are sent, until there is an answer.

use command_line::Job;
use program_fault::Texts;
use std::io::{self, Write};

/// From how many bytes on a text is a long one.
const LONG_TEXT: usize = 65536;

/// Writes the line of a job whose first text has so many bytes, and answers whether it has one.
fn begin_line<R: Eprint>(rt: &R, job: &Job, bytes: usize) -> bool {
    match *job {
        Job::Linearize { .. }
        | Job::Report { .. }
        | Job::Smallest { .. }
        | Job::Model { .. }
        | Job::RunModel { .. }
        | Job::ValueModel { .. }
        | Job::SmallestModel { .. } => {
            if bytes < LONG_TEXT {
                return false;
            }
            let _ = eprint!(rt; "judging {bytes} bytes");
            true
        }
        Job::Simulate { .. } => {
            let _ = eprint!(rt; "sending packets");
            true
        }
        _ => false,
    }
}

/// An output behind a line on standard error, which the first byte of the answer erases.
#[derive(Drop)]
pub(crate) struct Judging<'a, R, W> {
    rt: &'a R,
    writer: W,
    is_shown: bool,
}

impl<'a, R: Eprint, W: Write> Judging<'a, R, W> {
    /// Says that a job judges a text, if it is a long one, or sends packets; where that is wanted.
    pub(crate) fn begin(rt: &'a R, writer: W, job: &Job, texts: &Texts, is_wanted: bool) -> Self {
        let is_shown = is_wanted && begin_line(rt, job, texts.first.len());
        Judging {
            rt,
            writer,
            is_shown,
        }
    }

    /// Erases the line.
    pub(crate) fn end(&mut self) {
        if self.is_shown {
            self.is_shown = false;
            let _ = eprint!(self.rt; "\r\x1b[K");
        }
    }
}

impl<R: Eprint, W: Write> Write for Judging<'_, R, W> {
    fn write(&mut self, bytes: &[u8]) -> io::Result<usize> {
        self.end();
        self.writer.write(bytes)
    }

    fn flush(&mut self) -> io::Result<()> {
        self.writer.flush()
    }
}
