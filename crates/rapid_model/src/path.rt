use crate::part_name::PartName;

/// A part of a persistent: the number of the element from 1, or 0 if the persistent is not an array, and a part of that
/// element's value (RAPID Kernel, data references).
#[derive(Clone, Copy, Debug, PartialEq, Eq)]
pub struct Path {
    pub index: u16,
    pub part: PartName,
}
