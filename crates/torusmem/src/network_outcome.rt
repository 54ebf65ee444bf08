//! What a job says of the text of a network, beside its outcome.

use crate::answering::Outcome;
use lexer::Refusal;
use network_answer::Answer;
use network_text::NetworkReason;
use program_fault::{ProgramFault, Refused};
use std::alloc::Global;

/// What a job says of the text of a network.
#[derive(Drop)]
pub(crate) enum NetworkTold {
    Nothing,
    /// What the network is judged to be.
    Answered(Answer<Global>),
    /// Where and why the text is refused.
    Refused(Refusal<NetworkReason>),
}

/// The answer of a job that judges a network; what is said of its text stands in `told` then.
pub(crate) fn network_sound(
    answer: Result<Answer<Global>, Refused<NetworkReason>>,
    told: &mut NetworkTold,
) -> Result<Outcome, ProgramFault> {
    match answer {
        Ok(answer) => {
            let rising = answer.rising;
            *told = NetworkTold::Answered(answer);
            Ok(Outcome::Sound(rising))
        }
        Err(refused) => {
            if let Some(refusal) = refused.refusal {
                *told = NetworkTold::Refused(refusal);
            }
            Err(refused.fault)
        }
    }
}
