use trap_dispatch::{ConnectFault, Due, OrderFault};

/// A step of a task with interrupts, and its expected result.
#[derive(Clone, Copy)]
pub(crate) enum Step {
    /// A variable with this number is connected with a trap.
    Connect {
        old: u8,
        trap: u32,
        wanted: Result<u8, ConnectFault>,
    },
    /// The number watches for signal 0 to become 1.
    Order {
        number: u8,
        single: bool,
        wanted: Result<(), OrderFault>,
    },
    /// The number, which is connected, is put to sleep.
    Sleep(u8),
    /// It wakes up.
    Watch(u8),
    /// It is deleted.
    Delete(u8),
    /// Interrupts are disabled.
    Disable,
    /// Interrupts are enabled.
    Enable,
    /// Signal 0 becomes 1.
    Fire,
    /// Whether anything is due.
    Due(bool),
    /// A look: if a trap is due, nothing is due within it, and it is left.
    Look(Due),
}
