//! The sentences that people read: why a machine, script or steps text is refused, how a run ended,
//! and which spins ran out of loads.
#![tactic(auto)]

mod before;
pub mod end_sentence;
pub mod laws;
mod replies;
pub mod scripts;
pub mod sentence;
pub mod spins;
pub mod text;
pub mod texts;

pub use end_sentence::{Course, EndSentence, SpinSentence};
pub use one_order::Answer;
pub use scripts::{EndedScripts, EndedSpin, ended_in_text_order, ended_scripts};
pub use sentence::{Sentence, TileSentence};
pub use spins::SpentSpin;
pub use texts::{machine_sentence, scripts_sentence, steps_sentence, tile_sentence};
