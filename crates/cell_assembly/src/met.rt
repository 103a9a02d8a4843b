use crate::meeting_names::MeetingNames;

/// The meetings of the cell so far, and the numbers of those of the current tree.
#[derive(Drop)]
pub(crate) struct Met {
    pub(crate) names: MeetingNames,
    pub(crate) numbers: Vec<u32>,
}
