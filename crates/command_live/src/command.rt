use script::Line;
use torus::{Fault, Step};

/// What a line of a dialogue asks for.
#[derive(Clone, Copy)]
pub enum Command {
    /// Nothing: the line has no word, or is a comment.
    Nothing,
    /// That a processor is handed a line of a script.
    Ask(u32, Line),
    /// One attempt of one agent.
    Step(Step),
    /// So many rounds, 1 to 1000000.
    Rounds(u32),
    /// At most so many fair rounds, 1 to 1000000, until every script is finished.
    Clocked(u32),
    /// The answer to the operation of a processor that has this index.
    Wait(u32, u32),
    /// Rounds until every script is finished.
    Finish,
    /// Whether every script is finished.
    Finished,
    /// The word at this address.
    Word(u32),
    /// The rows of the order of operations, from the one of this number on.
    Order(u32),
    /// The report.
    Report,
    /// Rounds until every script is finished, and a machine that goes on there, in the place of this one.
    Reopen,
    /// The record of the machine.
    Save,
    /// The machine that a record makes, in the place of this one. The record is the line's second word.
    Load,
    /// The end of the dialogue.
    Quit,
    /// Something of the right shape that can't be asked for, and why.
    Refused(Fault),
    /// The line is of another shape.
    Bad,
}
