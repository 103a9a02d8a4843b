use crate::kind::Kind;

/// A token: its bytes in the source, and the position of the first of them, from 0.
#[derive(Clone, Copy, Debug, PartialEq, Eq)]
pub struct Token<'a> {
    pub kind: Kind,
    pub text: &'a [u8],
    pub at: usize,
}
