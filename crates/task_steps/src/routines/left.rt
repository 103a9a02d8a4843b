/// How a routine was left: as the first of the task; as one called by the Call where the task is now; or as a trap.
#[derive(Clone, Copy)]
pub(crate) enum Left {
    Started,
    Called,
    Trapped,
}
