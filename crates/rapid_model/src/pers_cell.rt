use crate::printable::NameText;
use crate::sequence::Sequence;
use crate::sort::Sort;
use crate::value::Value;

/// A persistent of the cell: its name as first spelled, the task that it belongs to unless it is global, its type, its
/// length if it is an array, and its first values, one for each element.
#[derive(Debug, Drop)]
pub struct PersCell {
    pub name: NameText,
    pub owner: Option<u32>,
    pub sort: Sort,
    pub len: Option<u16>,
    pub first: Sequence<Value>,
}
