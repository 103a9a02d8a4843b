use rapid_model::Sort;

/// The type of a persistent, by its number in the cell. 8 bytes.
#[derive(Clone, Copy)]
pub struct PersSort {
    pub pers: u32,
    pub sort: Sort,
}
