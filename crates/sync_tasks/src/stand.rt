ghost use Rattle.std.specs.Prelude.{◌≡◌, nat_lt};
ghost use Rattle.sync_tasks.specs.Meetings.{arrivals};

/// A task's state at a meeting: how often it went on from there, and whether it waits there.
#[derive(Clone, Copy, Debug, PartialEq, Eq)]
pub struct Stand {
    pub passed: u32,
    pub waits: bool,
}

impl Stand {
    /// Whether the task has come more than that many times.
    pub(crate) fn has_come(self, times: u32) -> bool
        ensures { result ≡ nat_lt times (arrivals self) }
    {
        if self.waits {
            times <= self.passed
        } else {
            times < self.passed
        }
    }
}
