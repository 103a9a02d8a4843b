ghost use Rattle.std.specs.Prelude.{◌≡◌};
ghost use Rattle.cell_gate.specs.Turn.{is_done};

use rapid_model::Answer;

/// The outcome of a call that waits only for its turn.
#[derive(Debug, PartialEq, Eq, Drop)]
pub enum Acted {
    /// The request got this answer, and is now the last of the pass's own events.
    Done(Answer),
    /// The request would be counted, and no steps of the run are left (docs/CELL_SCRIPT.md, `steps`).
    Spent,
}

impl Acted {
    /// Whether the history gained the event.
    pub(crate) fn is_done(&self) -> bool
        ensures { result ≡ is_done self.now }
    {
        match self {
            Acted::Done(_) => true,
            Acted::Spent => false,
        }
    }
}
