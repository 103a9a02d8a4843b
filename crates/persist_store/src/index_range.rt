/// The persistent has no element with this number: an array's index is below 1 or above its length, or a persistent
/// that is not an array is indexed (RAPID Kernel, data references).
#[derive(Clone, Copy, Debug, PartialEq, Eq)]
pub struct IndexRange;
