ghost use Rattle.std.specs.Prelude.{◌≡◌};
ghost use Rattle.cell_gate.specs.Turn.{is_given};

/// Whether the next step of the input script was done.
#[derive(Clone, Copy, Debug, PartialEq, Eq)]
pub enum Fed {
    /// The step was done, and is now the last of the pass's own events.
    Given,
    /// The gate of the step does not hold yet.
    NotYet,
    /// No step will be done: none is left, all tasks have ended, no steps of the run are left, or the tasks wait for
    /// one another.
    Over,
}

impl Fed {
    /// Whether the history gained the step.
    pub(crate) fn is_given(self) -> bool
        ensures { result ≡ is_given self }
    {
        match self {
            Fed::Given => true,
            _ => false,
        }
    }
}
