use named_data::Source;
use rapid_model::{PartName, Sort};
use typed_trees::Expr;

/// A part of what a name stands for, or of one of its elements: where its value is, whether the name is that of an
/// array, the index of the element, the part and its type.
#[derive(Drop)]
pub struct PlacePart {
    pub source: Source,
    pub array: bool,
    pub index: Option<Expr>,
    pub part: PartName,
    pub sort: Sort,
}
