/// Where the values of a frame begin, and the number of changes by others that the last Look of its statements found.
#[derive(Clone, Copy, Debug)]
pub(crate) struct Mark {
    pub base: usize,
    pub seen: u32,
}
