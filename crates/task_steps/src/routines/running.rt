use crate::routines::failed::Failed;

/// An active routine: its number in the code, from 0, and what failed while it is in its ERROR part.
#[derive(Clone, Copy)]
pub struct Running {
    pub routine: u32,
    pub failed: Option<Failed>,
}
