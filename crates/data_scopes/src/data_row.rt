//! Data of a task's modules, by their types.

use rapid_model::{Mode, Sort};

/// Where a CONST is declared: the number of its module, and the byte at which its value starts. An expression that
/// starts after it may name the CONST.
#[derive(Clone, Copy, Debug, PartialEq, Eq)]
pub struct Since {
    pub module: u32,
    pub at: usize,
}

/// A datum: its type, whether it is an array, and where it is declared, if it is a CONST.
#[derive(Clone, Copy, Debug, PartialEq, Eq)]
pub struct DatumRow {
    pub sort: Sort,
    pub array: bool,
    pub since: Option<Since>,
}

/// A parameter: how its argument is passed, and its type.
#[derive(Clone, Copy, Debug, PartialEq, Eq)]
pub struct ParamRow {
    pub mode: Mode,
    pub sort: Sort,
}
