/// How a held task's wait ended.
#[derive(Clone, Copy, Debug, PartialEq, Eq)]
pub enum Rose {
    /// The task goes on: its Rise is the last of the pass's own events.
    Woken,
    /// Nothing will wake the task: the tasks wait for one another, and no step of the input script is open.
    Stalled,
    /// No steps of the run are left.
    Spent,
}
