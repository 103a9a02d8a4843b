use crate::requests::moving::Moving;
use crate::routines::running::Running;

/// What goes on when a routine is left. Places of operations count from 0.
#[derive(Drop)]
pub(crate) enum Row {
    /// Nothing: the task is done.
    Started,
    /// The caller, after the Call at this place.
    Called {
        at: u32,
        frame: Running,
    },
    /// The interrupted routine, at the Look at this place, in its move if it is in one.
    Trapped {
        at: u32,
        frame: Running,
        way: Option<Moving>,
    },
}
