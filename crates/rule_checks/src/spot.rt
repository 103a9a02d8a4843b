/// The position of a byte in a task: the module's number, the number of the routine that contains it (over all modules
/// of the task, in the order of modules and text), the number in text order of that routine's innermost FOR whose list
/// contains it, and the byte in the module. All numbers are from 0.
#[derive(Clone, Copy, Debug, PartialEq, Eq)]
pub struct Spot {
    pub module: u32,
    pub routine: Option<u32>,
    pub within: Option<u32>,
    pub at: usize,
}
