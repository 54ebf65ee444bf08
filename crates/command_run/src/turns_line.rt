//! A line that shows how far a run by workers is.

use std::rt::Clock;
use std::sync::atomic::{AtomicU64, Ordering};
use std::time::Instant;
use worker_run::Watch;

/// How many passes a worker makes over its tiles between two looks at the clock.
const PASSES_A_LOOK: u32 = 1024;

/// A line on standard error that shows how far a run by workers is, and rewrites itself about once a
/// second. It is gone when no worker is at work.
#[derive(Drop)]
pub struct TurnsLine<'a, R> {
    rt: &'a R,
    is_wanted: bool,
    /// When the run began; `None` where there is no clock.
    start: Option<Instant>,
    /// How many turns all workers have made, but for those since a worker's last look.
    turns: AtomicU64,
    /// How many workers are at work.
    at_work: AtomicU64,
    /// In which second of the run the line that stands there was written, from 1; 0 where none stands.
    written: AtomicU64,
}

/// What is kept of a worker.
#[derive(Drop)]
pub struct Looks {
    /// How many of its turns are counted.
    counted: u64,
    /// How many passes it made since it last looked at the clock.
    passes: u32,
}

impl<'a, R: Eprint + Clock> TurnsLine<'a, R> {
    /// The line of a run that begins. Nothing is ever written where it isn't wanted.
    pub fn new(rt: &'a R, is_wanted: bool) -> Self {
        TurnsLine {
            rt,
            is_wanted,
            start: Instant::now(rt).ok(),
            turns: AtomicU64::new(0),
            at_work: AtomicU64::new(0),
            written: AtomicU64::new(0),
        }
    }

    /// Whether the line is to be written by who asks: in each second of the run one is told so.
    fn is_due(&self) -> bool {
        let (Some(start), Ok(now)) = (self.start, Instant::now(self.rt)) else {
            return false;
        };
        let second = now.duration_since(start).as_secs().saturating_add(1);
        let written = self.written.load(Ordering::SeqCst);
        second > written
            && self
                .written
                .compare_exchange(written, second, Ordering::SeqCst, Ordering::SeqCst)
                .is_ok()
    }
}

impl<R: Eprint + Clock + Sync> Watch for TurnsLine<'_, R> {
    type Kept = Looks;

    fn begun(&self, _worker: usize) -> Looks {
        self.at_work.fetch_add(1, Ordering::SeqCst);
        Looks {
            counted: 0,
            passes: 0,
        }
    }

    fn passed(&self, _worker: usize, kept: &mut Looks, turns: u64) {
        kept.passes = kept.passes.saturating_add(1);
        if !self.is_wanted || kept.passes < PASSES_A_LOOK {
            return;
        }
        kept.passes = 0;
        let more = turns.saturating_sub(kept.counted);
        kept.counted = turns;
        let made = self
            .turns
            .fetch_add(more, Ordering::SeqCst)
            .wrapping_add(more);
        if self.is_due() {
            let at_work = self.at_work.load(Ordering::SeqCst);
            let _ = eprint!(self.rt; "\r\x1b[Kturns made {made}, workers at work {at_work}");
        }
    }

    fn ended(&self, _worker: usize, kept: Looks, turns: u64) {
        self.turns
            .fetch_add(turns.saturating_sub(kept.counted), Ordering::SeqCst);
        let is_last = self.at_work.fetch_sub(1, Ordering::SeqCst) == 1;
        if is_last && self.written.swap(0, Ordering::SeqCst) != 0 {
            let _ = eprint!(self.rt; "\r\x1b[K");
        }
    }
}
