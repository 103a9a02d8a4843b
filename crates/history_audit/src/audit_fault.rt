use crate::wrong::Wrong;

/// The first event or fate that is wrong. A fate is wrong only if every event is right.
#[derive(Debug, Drop)]
pub enum AuditFault {
    /// The event with this number, from 0, cannot follow those before it.
    Event { at: u32, wrong: Wrong },
    /// The given fate of this task, by its number from 0, does not follow from the events. No fate does if another
    /// event can follow them.
    Fate { task: u32 },
}
