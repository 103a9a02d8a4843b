/// A name as spelled, a slice of the module's text, and the byte where it starts, from 0.
#[derive(Clone, Copy, Debug, PartialEq, Eq)]
pub struct RawName<'a> {
    pub text: &'a [u8],
    pub at: usize,
}
