//! One step of a task, and its phases.

pub(crate) mod done;
pub(crate) mod shown;
pub(crate) mod stage;
pub(crate) mod stepping;
pub(crate) mod way;
