//! What the lines of a report say of its run.

ghost use Rattle.std.specs.Prelude.{◌≡◌, ◌+◌, ◌<◌, ◌^◌, OnOk};
ghost use Rattle.report_model.specs.Run.{nothing_run, run_after, run_seen};

use crate::entry::{LineEntry, LogEntry};
use report_lines::{EntryLine, OrderLine, Radices, ReportLine};
use std::alloc::{AllocError, Allocator, Global};

/// An entry of a report, with its line.
#[derive(Clone, Copy)]
pub struct ServedLine {
    /// The line, from 1.
    pub line: u64,
    pub entry: EntryLine,
}

/// What the lines of a report say of its run.
#[derive(Drop)]
pub struct RunLines<A: Allocator = Global> {
    /// How many lines there are.
    pub count: u64,
    /// The radices, once the line of the shape is taken.
    pub radices: Option<Radices>,
    /// The number of words.
    pub words: u32,
    /// The opening words.
    pub inits: Vec<LineEntry, A>,
    pub entries: Vec<ServedLine, A>,
    pub orders: Vec<OrderLine, A>,
}

impl<A: Allocator + Copy> RunLines<A> {
    /// Before the first line.
    pub fn none(alloc: A) -> RunLines<A>
        ensures { run_seen result ≡ nothing_run }
    {
        RunLines {
            count: 0,
            radices: None,
            words: 0,
            inits: Vec::new(alloc),
            entries: Vec::new(alloc),
            orders: Vec::new(alloc),
        }
    }

    /// Takes a line.
    pub fn take(&mut self, line: &ReportLine) -> Result<(), AllocError>
        requires { self.old.count + 1 < 2 ^ 64 }
        ensures { OnOk result (run_seen self.new ≡ run_after (run_seen self.old) line.now) }
    {
        self.count += 1;
        match line {
            ReportLine::Header(_) => {}
            ReportLine::Shape(radices, words) => {
                self.radices = Some(*radices);
                self.words = *words;
            }
            ReportLine::Init(address, word) => self.inits.push(LineEntry {
                line: self.count,
                entry: LogEntry::Init(*address, *word),
            })?,
            ReportLine::Entry(entry) => self.entries.push(ServedLine {
                line: self.count,
                entry: *entry,
            })?,
            ReportLine::Answer(_) => {}
            ReportLine::Word(_, _) => {}
            ReportLine::Order(order) => self.orders.push(*order)?,
            ReportLine::End(_) => {}
        }
        Ok(())
    }
}
