use stack_code::{FirstRun, Marks, Op, RoutineRow};

/// The code of routines: the operations, a row for each routine, what error recovery needs, the values with which their
/// frames begin, the number of these, and the most operands that a frame has.
#[derive(Drop)]
pub(crate) struct Linked {
    pub(crate) ops: Vec<Op>,
    pub(crate) rows: Vec<RoutineRow>,
    pub(crate) marks: Marks,
    pub(crate) firsts: Vec<FirstRun>,
    pub(crate) values: u32,
    pub(crate) deepest: u32,
}
