use crate::owner::Owner;

/// What error recovery needs of code: the owners, which tile its operations in order, and for each routine the place
/// where its ERROR part begins, if it has one (RAPID Overview, error recovery).
#[derive(Drop)]
pub struct Marks {
    pub owners: Vec<Owner>,
    pub handlers: Vec<Option<u32>>,
}
