//! What is answered to a network text: the text of what is judged of its network, of fixed routes with the
//! channels that fill up where it deadlocks, or of routers that choose; and why the verdict is so.
#![tactic(auto)]

pub mod answer;
pub mod cause_sentence;
pub mod causes;
mod going;
pub mod jam;
pub mod judgement;
mod judging;
mod lengths;
pub mod one_flit;
mod reached;
pub mod routing;
pub mod totals;
pub mod verdict;

pub use answer::{Answer, judge_network, network_answer};
pub use cause_sentence::CauseSentence;
pub use causes::{Cause, Wait, verdict_causes};
pub use jam::judged_text;
pub use routing::{answered_routing, routing_answer, routing_answer_once};
pub use totals::{Totals, totals_of};
pub use verdict::verdict_text;
