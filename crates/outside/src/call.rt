/// A call of `write` that wrote something.
#[derive(Clone, Copy, Debug, PartialEq, Eq)]
pub struct Call {
    /// The number of bytes that it was given.
    pub handed: usize,
    /// The number of those bytes that it wrote.
    pub taken: usize,
}
