//! A line that shows how far a run in rounds is.

use command_texts::Progress;
use std::rt::Clock;
use std::time::Instant;

/// How many rounds are made between two looks at the clock.
const ROUNDS_A_LOOK: u32 = 1024;

/// How many seconds a line stands at least before it is written anew.
const SECONDS_A_LINE: u64 = 1;

/// A line on standard error that shows how far a run in rounds is, and rewrites itself: first after
/// `ROUNDS_A_LOOK` rounds, and then about once in `SECONDS_A_LINE`.
#[derive(Drop)]
pub struct ProgressLine<'a, R> {
    rt: &'a R,
    is_wanted: bool,
    /// How many rounds were made.
    rounds_made: u64,
    /// How many moves the run has made, once it has ended.
    moves_made: u64,
    /// In how many of its rounds a guard held operations back, once it has ended.
    rounds_held: u64,
    /// How many rounds were made since the last look at the clock.
    rounds: u32,
    /// When the line that stands there was written.
    written: Option<Instant>,
}

impl<'a, R: Eprint + Clock> ProgressLine<'a, R> {
    /// The line of a run that begins. Nothing is ever written where it isn't wanted.
    pub fn new(rt: &'a R, is_wanted: bool) -> Self {
        ProgressLine {
            rt,
            is_wanted,
            rounds_made: 0,
            moves_made: 0,
            rounds_held: 0,
            rounds: 0,
            written: None,
        }
    }

    /// How many rounds were made.
    pub fn rounds_made(&self) -> u64 {
        self.rounds_made
    }

    /// How many moves the run has made, once it has ended.
    pub fn moves_made(&self) -> u64 {
        self.moves_made
    }

    /// In how many of the run's rounds a guard held operations back, once it has ended.
    pub fn rounds_held(&self) -> u64 {
        self.rounds_held
    }

    /// Whether the line is to be written, at a look at the clock; not where there is none.
    fn is_due(&mut self) -> bool {
        let Ok(now) = Instant::now(self.rt) else {
            return false;
        };
        if let Some(written) = self.written {
            if now.duration_since(written).as_secs() < SECONDS_A_LINE {
                return false;
            }
        }
        self.written = Some(now);
        true
    }
}

impl<R: Eprint + Clock> Progress for ProgressLine<'_, R> {
    fn wants(&mut self) -> bool {
        self.rounds_made = self.rounds_made.saturating_add(1);
        if !self.is_wanted {
            return false;
        }
        self.rounds = self.rounds.saturating_add(1);
        if self.rounds < ROUNDS_A_LOOK {
            return false;
        }
        self.rounds = 0;
        self.is_due()
    }

    fn made(&mut self, rounds: u64, answered: u64) {
        let _ = eprint!(self.rt; "\r\x1b[Krounds made {rounds}, operations answered {answered}");
    }

    fn ended(&mut self, moves: u64, held: u64) {
        self.moves_made = moves;
        self.rounds_held = held;
        if self.written.is_some() {
            self.written = None;
            let _ = eprint!(self.rt; "\r\x1b[K");
        }
    }
}
