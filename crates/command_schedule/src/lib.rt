//! Schedules: the moves of a run as a steps text, and the commands that print the moves of rounds,
//! those among listed steps, and moves that are drawn; the outcomes of scripts over all schedules, and the
//! moves of a run to one.
#![tactic(auto)]

mod answer_count;
mod answer_word;
mod clocked;
pub mod drawn;
mod fair;
mod fair_list;
pub mod in_rounds;
pub mod line;
pub mod line_laws;
pub mod moves;
mod outcome_text;
mod outcomes;
mod output;
mod reach;
pub mod run_laws;
mod searching;
pub mod text;
mod turned_list;

pub use clocked::clocked_schedule_text;
pub use drawn::draw_text;
pub use fair::{FairEnd, fair_schedule_text};
pub use in_rounds::schedule_text;
pub use line::ScheduleLine;
pub use moves::moves_text;
pub use outcomes::{OutcomesEnd, outcomes_status, outcomes_text};
pub use reach::{ReachEnd, reach_status, reach_text};
pub use searching::{MOST_OPERATIONS, Searched};
pub use text::{LineText, line_of};
