/// A position among first values that are kept in runs: the index of a run, and how many of its values come before. 16
/// bytes.
#[derive(Clone, Copy, Debug, PartialEq, Eq)]
pub struct RunStart {
    pub run: usize,
    pub skip: u32,
}
