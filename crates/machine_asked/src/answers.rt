//! Which of a processor's answers is to the operation of an index.

ghost use Rattle.std.specs.Prelude.{◌≡◌, ◌==◌, drop};
ghost use Rattle.std.specs.List.{find};
ghost use Rattle.machine_asked.specs.Near.{AreNear};

use one_order::Answer;

/// The first of some answers that is to the operation of this index.
fn answer_among(answers: &[Answer], index: u32) -> Option<Answer>
    ensures { result ≡ find (λ a. a.index == index) answers.now }
{
    for answer in answers {
        if answer.index == index {
            return Some(*answer);
        }
    }
    None
}

/// The answers from a place on.
fn answers_from(answers: &[Answer], from: usize) -> &[Answer]
    ensures { result.now ≡ drop from answers.now }
{
    if from < answers.len() {
        &answers[from..]
    } else {
        &answers[answers.len()..]
    }
}

/// The first of a processor's answers that is to the operation of this index. At most 16 operations are out at
/// once, so it stands no more than 16 places in front of its operation's; what stands before that isn't looked at.
pub(crate) fn answer_of(answers: &[Answer], index: u32) -> Option<Answer>
    requires near { AreNear answers.now }
    ensures { result ≡ find (λ a. a.index == index) answers.now }
{
    let from = index.saturating_sub(16);
    answer_among(answers_from(answers, from as usize), index)
}
