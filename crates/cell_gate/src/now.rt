ghost use Rattle.std.specs.Prelude.{◌≡◌};
ghost use Rattle.cell_gate.specs.Turn.{is_woken};

/// Whether a held task goes on now.
#[derive(Clone, Copy, Debug, PartialEq, Eq)]
pub enum Now {
    /// The task goes on: its Rise is the last of the pass's own events.
    Woken,
    /// Nothing that the task waits for has changed.
    NotYet,
    /// Nothing that the task waits for will change: the tasks wait for one another, and no step of the input script is
    /// open.
    Stalled,
    /// No steps of the run are left.
    Spent,
}

impl Now {
    /// Whether the history gained the Rise.
    pub(crate) fn is_woken(self) -> bool
        ensures { result ≡ is_woken self }
    {
        match self {
            Now::Woken => true,
            _ => false,
        }
    }
}
