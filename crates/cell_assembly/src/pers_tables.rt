use crate::persistents::Persistents;

/// The persistents of the cell, and for each tree the numbers of its own.
#[derive(Drop)]
pub(crate) struct PersTables {
    pub(crate) pers: Persistents,
    pub(crate) lists: Vec<Vec<u32>>,
}
