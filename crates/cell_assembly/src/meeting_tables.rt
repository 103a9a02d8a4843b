use crate::meeting_names::MeetingNames;

/// The meetings of the cell, and for each tree the numbers of its own.
#[derive(Drop)]
pub(crate) struct MeetingTables {
    pub(crate) names: MeetingNames,
    pub(crate) lists: Vec<Vec<u32>>,
}
