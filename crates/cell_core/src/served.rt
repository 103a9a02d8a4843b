use rapid_model::Answer;

/// How a request was served. Only an event changes the core.
#[derive(Debug, PartialEq, Eq, Drop)]
pub enum Served {
    /// The request got this answer, and is now the last event of the history.
    Answered(Answer),
    /// The request would be counted, and no steps of the run are left (docs/CELL_SCRIPT.md, `steps`).
    Spent,
    /// The request waits: the task is held and cannot go on yet, or the step of the input script is not open.
    NotYet,
}
