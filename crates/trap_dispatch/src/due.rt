/// Whether a trap is to run before the task goes on.
#[derive(Clone, Copy, Debug, PartialEq, Eq)]
pub enum Due {
    /// None.
    None,
    /// The interrupt's trap, by routine number within its task.
    Trap { number: u8, trap: u32 },
    /// More interrupts waited than the queue holds.
    Flood,
}
