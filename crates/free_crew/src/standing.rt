ghost use Rattle.std.specs.Prelude.{◌≡◌};
ghost use Rattle.free_crew.specs.Amid.{is_stopped};

/// How a task stands.
#[derive(Clone, Copy)]
pub enum Standing {
    /// Its next request is due.
    Going,
    /// It is held, and nothing that it waits for has changed.
    Waiting,
    /// It has ended.
    Ended,
    /// No steps of the run are left for its next request.
    Cut,
    /// The tasks wait for one another, and no step of the input script is open.
    Stalled,
}

impl Default for Standing {
    fn default() -> Standing {
        Standing::Going
    }
}

impl Standing {
    /// Whether it asks nothing more.
    pub(crate) fn is_stopped(self) -> bool
        ensures { result ≡ is_stopped self }
    {
        match self {
            Standing::Going | Standing::Waiting => false,
            Standing::Ended | Standing::Cut | Standing::Stalled => true,
        }
    }

    /// Whether its last request was answered.
    pub(crate) fn is_answered(self) -> bool {
        matches!(self, Standing::Going | Standing::Ended)
    }

    /// Whether it waits.
    pub(crate) fn is_waiting(self) -> bool {
        matches!(self, Standing::Waiting)
    }
}
