ghost use Rattle.std.specs.Prelude.{◌≡◌, ◌≤◌, ◌∷◌, [], map};
ghost use Rattle.script.specs.Steps.{choice_word, a_choice, attempt_of, processor_choice, router_choice, bank_choice};
ghost use Rattle.script.specs.Steps.{agent_choice, has_word, no_choice, step_of};

use crate::number::number_at;
use crate::reason::{Agent, TextReason};
use torus::{Choice, Step};

/// A word for a choice.
#[derive(Clone, Copy)]
pub(crate) enum ChoiceWord {
    Send,
    Take,
    Put,
    Credit,
    Serve,
    Done,
    Look,
}

/// A line of a steps text before it is checked that there is such an agent and such a choice.
#[derive(Clone, Copy)]
pub(crate) struct Attempt {
    pub(crate) agent: u32,
    pub(crate) word: ChoiceWord,
    /// Of an input or output of a router.
    pub(crate) number: Option<u32>,
}

/// The choice that a word stands for.
fn choice_word(word: &[u8]) -> Option<ChoiceWord>
    ensures { result ≡ choice_word word.now }
{
    if word == b"send".as_slice() {
        return Some(ChoiceWord::Send);
    }
    if word == b"take".as_slice() {
        return Some(ChoiceWord::Take);
    }
    if word == b"put".as_slice() {
        return Some(ChoiceWord::Put);
    }
    if word == b"credit".as_slice() {
        return Some(ChoiceWord::Credit);
    }
    if word == b"serve".as_slice() {
        return Some(ChoiceWord::Serve);
    }
    if word == b"done".as_slice() {
        return Some(ChoiceWord::Done);
    }
    if word == b"look".as_slice() {
        return Some(ChoiceWord::Look);
    }
    None
}

/// A choice word where one belongs.
fn a_choice(word: &[u8]) -> Result<ChoiceWord, TextReason>
    ensures { result ≡ a_choice word.now }
{
    choice_word(word).ok_or(TextReason::UnknownChoice)
}

/// What the words of a line say.
pub(crate) fn attempt_of(words: &[&[u8]]) -> Result<Attempt, TextReason>
    ensures { result ≡ attempt_of (map (λ word. word.now) words.now) }
{
    match words {
        [] => Err(TextReason::StepCount),
        [_] => Err(TextReason::StepCount),
        [agent, word] => two_words(agent, word),
        [agent, word, number] => three_words(agent, word, number),
        [_, _, _, _, ..] => Err(TextReason::StepCount),
    }
}

/// What an agent and a choice say.
fn two_words(agent: &[u8], word: &[u8]) -> Result<Attempt, TextReason>
    ensures { result ≡ attempt_of (agent.now ∷ word.now ∷ []) }
{
    Ok(Attempt {
        agent: number_at(0, agent)?,
        word: a_choice(word)?,
        number: None,
    })
}

/// What an agent, a choice and the number of an input or output say.
fn three_words(agent: &[u8], word: &[u8], number: &[u8]) -> Result<Attempt, TextReason>
    ensures { result ≡ attempt_of (agent.now ∷ word.now ∷ number.now ∷ []) }
{
    match (number_at(0, agent), a_choice(word), number_at(2, number)) {
        (Ok(agent), Ok(word), Ok(number)) => {
            let number = Some(number);
            Ok(Attempt {
                agent,
                word,
                number,
            })
        }
        (Err(reason), _, _) => Err(reason),
        (Ok(_), Err(reason), _) => Err(reason),
        (Ok(_), Ok(_), Err(reason)) => Err(reason),
    }
}

impl ChoiceWord {
    /// The choice of a processor.
    fn of_processor(self) -> Option<Choice>
        ensures { result ≡ processor_choice self }
    {
        match self {
            ChoiceWord::Send => Some(Choice::Send),
            ChoiceWord::Take => Some(Choice::Take),
            ChoiceWord::Put => None,
            ChoiceWord::Credit => Some(Choice::Credit),
            ChoiceWord::Serve => None,
            ChoiceWord::Done => Some(Choice::Done),
            ChoiceWord::Look => Some(Choice::Look),
        }
    }

    /// The choice of a router, of an input or an output.
    fn of_router(self, number: u32) -> Option<Choice>
        ensures { result ≡ router_choice self number }
    {
        match self {
            ChoiceWord::Send => None,
            ChoiceWord::Take => Some(Choice::TakeFrom(number)),
            ChoiceWord::Put => Some(Choice::Put(number)),
            ChoiceWord::Credit => Some(Choice::CreditOf(number)),
            ChoiceWord::Serve => None,
            ChoiceWord::Done => None,
            ChoiceWord::Look => None,
        }
    }

    /// The choice of a bank.
    fn of_bank(self) -> Option<Choice>
        ensures { result ≡ bank_choice self }
    {
        match self {
            ChoiceWord::Send => Some(Choice::Send),
            ChoiceWord::Take => Some(Choice::Take),
            ChoiceWord::Put => None,
            ChoiceWord::Credit => Some(Choice::Credit),
            ChoiceWord::Serve => Some(Choice::Serve),
            ChoiceWord::Done => None,
            ChoiceWord::Look => None,
        }
    }
}

impl Attempt {
    /// The choice, if an agent of this kind has it: 0 is a processor, 1 a router, 2 a bank.
    fn choice(self, dims: u32, kind: u32) -> Option<Choice>
        requires { dims ≤ 3 }
        ensures { result ≡ agent_choice dims kind self.word self.number }
    {
        match self.number {
            None => match kind {
                0 => self.word.of_processor(),
                2 => self.word.of_bank(),
                _ => None,
            },
            Some(number) => {
                if kind == 1 && number < 8 * dims + 2 {
                    self.word.of_router(number)
                } else {
                    None
                }
            }
        }
    }

    /// Why agents of this kind, whose router has so many inputs and as many outputs, have no such
    /// choice.
    fn no_choice(self, ports: u32, kind: Agent) -> TextReason
        ensures { result ≡ no_choice ports kind self.word self.number }
    {
        if !kind.has(self.word) {
            return TextReason::NoChoice(kind);
        }
        match kind {
            Agent::Processor => TextReason::PortUnwanted(Agent::Processor),
            Agent::Router => match self.number {
                None => TextReason::PortWanted,
                Some(_) => TextReason::PortLimits(ports),
            },
            Agent::Bank => TextReason::PortUnwanted(Agent::Bank),
        }
    }

    /// The step, on a torus of so many tiles and dimensions.
    ///
    /// Errors: there is no such agent, or it has no such choice.
    pub(crate) fn step(self, tiles: u32, dims: u32) -> Result<Step, TextReason>
        requires tiles { tiles ≤ 64 }
        requires dims { dims ≤ 3 }
        ensures { result ≡ step_of tiles dims self }
    {
        if self.agent >= 3 * tiles {
            return Err(TextReason::AgentLimits(3 * tiles));
        }
        match self.choice(dims, self.agent % 3) {
            Some(choice) => Ok(Step {
                agent: self.agent,
                choice,
            }),
            None => Err(self.no_choice(8 * dims + 2, Agent::of(self.agent))),
        }
    }
}

impl Agent {
    /// Whether agents of this kind have a choice of this word.
    fn has(self, word: ChoiceWord) -> bool
        ensures { result ≡ has_word self word }
    {
        match self {
            Agent::Processor => word.of_processor().is_some(),
            Agent::Router => word.of_router(0).is_some(),
            Agent::Bank => word.of_bank().is_some(),
        }
    }
}
