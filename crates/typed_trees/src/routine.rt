//! Routines of a checked task.

use crate::first_data::FirstData;
use crate::stmt::Stmt;
use rapid_model::{Mode, NameText, RoutineKind, Sort};

/// A parameter: its name, how its argument is passed, and its type.
#[derive(Debug, Drop)]
pub struct Param {
    pub name: NameText,
    pub mode: Mode,
    pub sort: Sort,
}

/// A datum of a routine, created at each call: whether it is a VAR, its type, the length of an array, and its first
/// values, one for each element.
#[derive(Debug, Drop)]
pub struct LocalRow {
    pub name: NameText,
    pub variable: bool,
    pub sort: Sort,
    pub len: Option<u16>,
    pub first: FirstData,
}

/// A routine: the number of its module, a function's type, its statements, its ERROR part, and how many FORs both have.
/// `at` is the byte of its first word. Its places are its parameters, then its data (an array is one place), then its
/// FORs in text order.
#[derive(Drop)]
pub struct Routine {
    pub name: NameText,
    pub module: u32,
    pub kind: RoutineKind,
    pub result: Option<Sort>,
    pub params: Vec<Param>,
    pub locals: Vec<LocalRow>,
    pub list: Vec<Stmt>,
    pub handler: Option<Vec<Stmt>>,
    pub loops: u32,
    pub at: usize,
}
