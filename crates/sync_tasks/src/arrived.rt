/// The result of an arrival at a meeting: whether all listed tasks have come (`met`), and whether the task was not
/// waiting there already (`fresh`).
#[derive(Clone, Copy, Debug, PartialEq, Eq)]
pub struct Arrived {
    pub met: bool,
    pub fresh: bool,
}
