//! What is done to a machine, and the number that a record has of it.

ghost use Rattle.std.specs.Prelude.{◌≡◌, ◌+◌, ◌/◌, ◌%◌, true, option_map};
ghost use Rattle.machine_record.specs.Action.{action_coded, action_number, action_of, choice_coded, choice_number};
ghost use Rattle.machine_record.specs.Action.{fair_joined, is_narrow, joined, move_recorded, named_rounds, port_of};
ghost use Rattle.machine_record.specs.Action.{rounds_joined, turn_behind, turned_joined, turned_on, turned_recorded};

use torus::{Choice, Step};

/// How many turns of clocked rounds there are: a multiple of the 10, 18 or 26 inputs of a router.
pub(crate) const TURNS: u32 = 1170;

/// Clocked rounds in a row: the turn of the first, and how many there are. Each has the turn behind that of the
/// one before it, and 0 is behind 1169.
#[derive(Clone, Copy)]
pub struct Turns {
    pub first: u32,
    pub count: u32,
}

/// What is done to a machine.
#[derive(Clone, Copy)]
pub enum Action {
    /// An attempt, which moves.
    Move(Step),
    /// So many rounds.
    Rounds(u32),
    /// A processor is handed the line of this number, from 0.
    Line(u32),
    /// A clocked round, in which the puts of each router begin at this input.
    Clocked(u32),
    /// So many clocked rounds, with the turns from 0 on.
    ClockedRounds(u32),
    /// So many fair rounds.
    FairRounds(u32),
    /// Clocked rounds in a row, from a turn on.
    Turned(Turns),
}

/// The number of a choice, 0 to 8.
fn choice_number(choice: Choice) -> u32
    ensures { result ≡ choice_number choice }
{
    match choice {
        Choice::Send => 0,
        Choice::Take => 1,
        Choice::TakeFrom(_) => 2,
        Choice::Put(_) => 3,
        Choice::Credit => 4,
        Choice::CreditOf(_) => 5,
        Choice::Serve => 6,
        Choice::Done => 7,
        Choice::Look => 8,
    }
}

/// The input or output of a choice, or 0.
fn port_of(choice: Choice) -> u32
    ensures { result ≡ port_of choice }
{
    match choice {
        Choice::TakeFrom(input) => input,
        Choice::Put(input) => input,
        Choice::CreditOf(output) => output,
        _ => 0,
    }
}

/// The choice that has this number, with an input or output where it needs one.
fn choice_coded(number: u32, port: u32) -> Option<Choice>
    ensures { result ≡ choice_coded number port }
{
    match number {
        0 => Some(Choice::Send),
        1 => Some(Choice::Take),
        2 => Some(Choice::TakeFrom(port)),
        3 => Some(Choice::Put(port)),
        4 => Some(Choice::Credit),
        5 => Some(Choice::CreditOf(port)),
        6 => Some(Choice::Serve),
        7 => Some(Choice::Done),
        8 => Some(Choice::Look),
        _ => None,
    }
}

/// The attempt by an agent of the choice that has this number.
fn move_coded(number: u32, rest: u32) -> Option<Action>
    ensures { result ≡ option_map (move_recorded (rest / 4096)) (choice_coded number (rest % 4096)) }
{
    match choice_coded(number, rest % 4096) {
        Some(choice) => Some(Action::Move(Step {
            agent: rest / 4096,
            choice,
        })),
        None => None,
    }
}

/// The clocked rounds in a row of a number: the first turn in its lowest eleven bits, and how many above.
fn turned_coded(rest: u32) -> Action
    ensures { result ≡ turned_recorded (rest % 2048) (rest / 2048) }
{
    Action::Turned(Turns {
        first: rest % 2048,
        count: rest / 2048,
    })
}

/// The action of a kind: 0 to 8 a choice, 9 rounds, 10 a line, 11 a clocked round, 12 clocked rounds,
/// 13 fair rounds, 14 clocked rounds in a row from a turn on.
fn action_coded(kind: u32, rest: u32) -> Option<Action>
    ensures { result ≡ action_coded kind rest }
{
    match kind {
        9 => Some(Action::Rounds(rest)),
        10 => Some(Action::Line(rest)),
        11 => Some(Action::Clocked(rest)),
        12 => Some(Action::ClockedRounds(rest)),
        13 => Some(Action::FairRounds(rest)),
        14 => Some(turned_coded(rest)),
        _ => move_coded(kind, rest),
    }
}

/// So many rounds, where a record has a number for them.
fn named_rounds(count: u64) -> Option<Action>
    ensures { result ≡ named_rounds Action.Rounds count }
{
    if count < 268435456 {
        Some(Action::Rounds(count as u32))
    } else {
        None
    }
}

/// So many fair rounds, where a record has a number for them.
fn named_fair_rounds(count: u64) -> Option<Action>
    ensures { result ≡ named_rounds Action.FairRounds count }
{
    if count < 268435456 {
        Some(Action::FairRounds(count as u32))
    } else {
        None
    }
}

/// What so many rounds and an action behind them are together.
fn rounds_joined(count: u32, next: Action) -> Option<Action>
    ensures { result ≡ rounds_joined count next }
{
    match next {
        Action::Rounds(more) => named_rounds(u64::from(count) + u64::from(more)),
        _ => None,
    }
}

/// What so many fair rounds and an action behind them are together.
fn fair_joined(count: u32, next: Action) -> Option<Action>
    ensures { result ≡ fair_joined count next }
{
    match next {
        Action::FairRounds(more) => named_fair_rounds(u64::from(count) + u64::from(more)),
        _ => None,
    }
}

/// The turn of the round behind so many clocked rounds, of which the first has a turn.
pub(crate) fn turn_behind(first: u32, count: u32) -> u64
    ensures { result ≡ turn_behind first count }
{
    (u64::from(first) + u64::from(count)) % u64::from(TURNS)
}

/// Some clocked rounds and more of them behind, where a record has a number for them.
fn turned_on(turns: Turns, more: u32) -> Option<Action>
    ensures { result ≡ turned_on turns.first (turns.count + more) }
{
    let count = u64::from(turns.count) + u64::from(more);
    if turns.first < 2048 && count < 131072 {
        Some(Action::Turned(Turns {
            first: turns.first,
            count: count as u32,
        }))
    } else {
        None
    }
}

/// What some clocked rounds and an action behind them are together.
fn turned_joined(turns: Turns, next: Action) -> Option<Action>
    ensures { result ≡ turned_joined turns next }
{
    match next {
        Action::Turned(more) if u64::from(more.first) == turn_behind(turns.first, turns.count) =>
            turned_on(turns, more.count),
        _ => None,
    }
}

impl Action {
    /// The one action that does what this one and the next do, one after the other: rounds of one kind, as far
    /// as a number names them, and clocked rounds whose turns go on. `None` exactly where there is none.
    pub fn joined(self, next: Action) -> Option<Action>
        ensures { result ≡ joined self next }
    {
        match self {
            Action::Rounds(count) => rounds_joined(count, next),
            Action::FairRounds(count) => fair_joined(count, next),
            Action::Turned(turns) => turned_joined(turns, next),
            _ => None,
        }
    }

    /// Whether a record has a number for it: an agent is below 65536, an input or output below 4096, and
    /// rounds, lines and turns below 2^28; of clocked rounds in a row the first turn below 2048, and 131071 at
    /// most.
    pub fn is_narrow(self) -> bool
        ensures { result ≡ is_narrow self }
    {
        match self {
            Action::Move(step) => port_of(step.choice) < 4096 && step.agent < 65536,
            Action::Rounds(count) => count < 268435456,
            Action::Line(number) => number < 268435456,
            Action::Clocked(turn) => turn < 268435456,
            Action::ClockedRounds(count) => count < 268435456,
            Action::FairRounds(count) => count < 268435456,
            Action::Turned(turns) => turns.first < 2048 && turns.count < 131072,
        }
    }

    /// Its number.
    pub fn number(self) -> u32
        requires { is_narrow self ≡ true }
        ensures { result ≡ action_number self }
    {
        match self {
            Action::Move(step) => {
                (step.agent * 4096 + port_of(step.choice)) * 16 + choice_number(step.choice)
            }
            Action::Rounds(count) => count * 16 + 9,
            Action::Line(number) => number * 16 + 10,
            Action::Clocked(turn) => turn * 16 + 11,
            Action::ClockedRounds(count) => count * 16 + 12,
            Action::FairRounds(count) => count * 16 + 13,
            Action::Turned(turns) => (turns.count * 2048 + turns.first) * 16 + 14,
        }
    }

    /// The action that has a number; `None` exactly where none has it.
    pub fn of_number(number: u32) -> Option<Action>
        ensures { result ≡ action_of number }
    {
        action_coded(number % 16, number / 16)
    }
}
