/// What happens between the steps of a task. It is shared by threads. It does not affect the run, and its contract
/// promises nothing.
pub trait Pace {
    /// Called after each answered step of the task with this number, including its End.
    fn pause(&self, task: u32);
}
