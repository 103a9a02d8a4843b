use rapid_model::{NameText, Sort, Value};

/// A persistent of the cell: its name as first spelled, its task unless it is global, its type, its length if it is an
/// array, the values that a declaration gives, if any, and those that the script gives to its elements.
#[derive(Debug, Drop)]
pub struct PersInfo {
    pub name: NameText,
    pub owner: Option<u32>,
    pub sort: Sort,
    pub len: Option<u16>,
    pub declared: Option<Vec<Value>>,
    pub given: Vec<Option<Value>>,
}
