ghost use Rattle.std.specs.Prelude.{◌≡◌};

use crate::change::Change;
use rapid_model::Answer;

/// The outcome of a request: its answer, and what it changed that tasks wait for.
#[derive(Drop)]
pub(crate) struct Outcome {
    pub(crate) answer: Answer,
    pub(crate) change: Change,
}

/// An answer to a request that changed nothing that tasks wait for.
pub(crate) fn unchanged(answer: Answer) -> Outcome
    ensures answer { result.answer ≡ answer }
    ensures change { result.change ≡ Change.Nothing }
{
    Outcome {
        answer,
        change: Change::Nothing,
    }
}

/// The outcome of a request that is done and changed this.
pub(crate) fn done(change: Change) -> Outcome
    ensures answer { result.answer ≡ Answer.Ok }
    ensures change { result.change ≡ change }
{
    Outcome {
        answer: Answer::Ok,
        change,
    }
}
