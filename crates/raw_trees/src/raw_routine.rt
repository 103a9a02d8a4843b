//! Routines as spelled in a module.

use crate::raw_datum::RawDatum;
use crate::raw_name::RawName;
use crate::raw_stmt::RawStmt;
use rapid_model::{Mode, RoutineKind};

/// A parameter: its mode, the name of its type, its name, and the byte where it starts, from 0.
#[derive(Drop)]
pub struct RawParam<'a> {
    pub mode: Mode,
    pub sort: RawName<'a>,
    pub name: RawName<'a>,
    pub at: usize,
}

/// A routine (RAPID Kernel, routine declarations). A function has the name of its result's type. `handler` is the ERROR
/// part. `at` is the byte of its first word, from 0.
#[derive(Drop)]
pub struct RawRoutine<'a> {
    pub local: bool,
    pub kind: RoutineKind,
    pub result: Option<RawName<'a>>,
    pub name: RawName<'a>,
    pub params: Vec<RawParam<'a>>,
    pub locals: Vec<RawDatum<'a>>,
    pub list: Vec<RawStmt<'a>>,
    pub handler: Option<Vec<RawStmt<'a>>>,
    pub at: usize,
}
