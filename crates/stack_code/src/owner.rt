use rapid_model::At;

/// The operations of one statement, from `first` up to but not including `past`: the place of its Look, the place of
/// the operation after it, and its position in the source. Places of operations count from 0. 24 bytes.
#[derive(Clone, Copy)]
pub struct Owner {
    pub first: u32,
    pub past: u32,
    pub retry: u32,
    pub next: u32,
    pub at: At,
}
