//! Which memory models the trace of a log obeys, what is printed of that, and a short cycle where the
//! trace breaks one.
#![tactic(auto)]

pub mod answer;
pub mod choosing;
mod cited;
mod cycle;
mod edges;
pub mod judged;
pub mod model;
pub mod order;
mod part;
mod part_text;
mod part_words;
pub mod sentence;
mod shorten;
pub mod small_text;
pub mod smallest;
pub mod text;
pub mod weak;
mod weak_cycle;

pub use answer::{Answer, NoAnswer, Options, answer_to_log, model_answer};
pub use choosing::weakest_told;
pub use judged::{Obeys, Verdicts, verdicts_of};
pub use model::{AskedModel, MemoryModel};
pub use sentence::{LogSentence, WrongSentence};
pub use small_text::{SmallLogText, smallest_answer};
pub use smallest::{SmallLog, smallest_log};
pub use text::{is_rvwmo_told, is_told};
pub use weak::{Doubts, WeakAnswer, doubts_on};
