//! Which memory models a log obeys by its operations and their replies alone, and what is printed of
//! that.
#![tactic(auto)]

pub mod answer;
pub mod decision;
pub mod judging;
pub mod printing;
pub mod reading;
pub mod sentence;
pub mod steps;

pub use answer::{NoValueAnswer, ValueAnswer, ValueOptions, answer_to_values, value_answer};
pub use decision::{Decision, Decisions};
pub use judging::{Unsaid, ValueVerdicts};
pub use reading::read_values;
pub use sentence::{LostSentence, UnwrittenSentence};
pub use steps::{ValuedLog, values_of_log};
