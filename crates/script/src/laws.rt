//! Laws of the readers, each the contract of a function that does nothing.

ghost use Rattle.std.specs.Prelude.{◌≡◌, ◌+◌, ◌*◌, ℕ, Option, Some, true};
ghost use Rattle.torus.specs.declared.step.Choice.{Choice};
ghost use Rattle.torus.specs.Choices.{has_choice};
ghost use Rattle.script.specs.declared.attempt.ChoiceWord.{ChoiceWord};
ghost use Rattle.script.specs.Steps.{agent_choice};

/// The words of a line name only choices that the agent has, whose router has 8 n + 2 inputs and as
/// many outputs.
pub fn lines_name_choices_of_their_agents()
    ensures { (dims kind : ℕ) (word : ChoiceWord) (number : Option ℕ) (choice : Choice)
        → agent_choice dims kind word number ≡ Some choice
        → has_choice (8 * dims + 2) kind choice ≡ true }
{}
