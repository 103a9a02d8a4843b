/// The number is not connected.
#[derive(Clone, Copy, Debug, PartialEq, Eq)]
pub struct Unknown;
