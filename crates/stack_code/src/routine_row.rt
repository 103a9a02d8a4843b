/// A routine of the code: the place of its first operation; how many arguments it takes, and how many values its frame
/// has, arguments included, each at most 65,535 even if there are more; whether it is a trap, and whether it returns a
/// value. The initial values that follow the arguments in a frame are the code's first values from `first`. 16 bytes.
#[derive(Clone, Copy)]
pub struct RoutineRow {
    pub entry: u32,
    pub args: u16,
    pub values: u16,
    pub trap: bool,
    pub result: bool,
    pub first: u32,
}
