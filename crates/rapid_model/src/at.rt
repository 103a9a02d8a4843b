/// A position in the source: the number of the module in its task, and the byte in its text, both from 0. 8 bytes in
/// size.
#[derive(Clone, Copy, Debug, PartialEq, Eq)]
pub struct At {
    pub module: u32,
    pub byte: u32,
}
