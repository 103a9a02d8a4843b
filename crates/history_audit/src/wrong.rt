use rapid_model::{Answer, Request};

/// Why an event cannot come next: the first of these causes that applies.
#[derive(Debug, Drop)]
pub enum Wrong {
    /// The task has ended, or the input script has no step left.
    Ended,
    /// The actor asks this instead.
    Asks(Request),
    /// The task is held and cannot go on yet, or the step of the input script is not open.
    Waits,
    /// The event would be counted, and no steps of the run are left. This cause comes before `Waits`.
    Spent,
    /// The cell answers this instead.
    Answers(Answer),
}
