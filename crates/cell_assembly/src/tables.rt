use crate::pers_info::PersInfo;
use rapid_model::NameText;

/// The persistents and the meetings of a cell, and for each task's tree the numbers of its own.
#[derive(Debug, Drop)]
pub struct CellTables {
    pub pers: Vec<PersInfo>,
    pub pers_of: Vec<Vec<u32>>,
    pub meetings: Vec<NameText>,
    pub meeting_of: Vec<Vec<u32>>,
}
