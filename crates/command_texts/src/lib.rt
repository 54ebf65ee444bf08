//! The commands of the program over texts and outputs: what each answers, the status that the
//! program ends with, and what it prints for a fault.
#![tactic(auto)]

pub mod channels;
pub mod check;
pub mod ending;
pub mod in_rounds;
mod line;
pub mod route;
pub mod steps;

pub use channel_number::channel_count;
pub use channels::{channels_text, put_numbers};
pub use check::check_text;
pub use ending::Ending;
pub use fair_rounds::Pace;
pub use in_rounds::{Progress, Silent, round_text, round_text_with};
pub use program_fault::{ProgramFault, fault_text, finished, status_of};
pub use route::route_text;
pub use steps::{steps_text, steps_text_with};
