//! Data of a checked task's modules.

use crate::first_data::FirstData;
use rapid_model::{NameText, Sort, Value};

/// A VAR or a CONST array of a module, as `variable` says: its type, its length if it is an array, and its first data,
/// one for each element.
#[derive(Debug, Drop)]
pub struct SlotRow {
    pub name: NameText,
    pub variable: bool,
    pub sort: Sort,
    pub len: Option<u16>,
    pub first: FirstData,
}

/// A PERS: the number of its module, the byte at which its name starts, whether it is the task's own (TASK or LOCAL),
/// its type, its length if it is an array, and the values that its declaration gives, if any.
#[derive(Debug, Drop)]
pub struct PersRow {
    pub name: NameText,
    pub module: u32,
    pub at: usize,
    pub own: bool,
    pub sort: Sort,
    pub len: Option<u16>,
    pub first: Option<Vec<Value>>,
}
