//! Modules as spelled in their text.

use crate::raw_datum::RawDatum;
use crate::raw_name::RawName;
use crate::raw_routine::RawRoutine;

/// An attribute of a module (RAPID Kernel, module declarations).
#[derive(Clone, Copy, Debug, PartialEq, Eq)]
pub enum Attribute {
    SysModule,
    NoView,
    NoStepIn,
    ViewOnly,
    ReadOnly,
}

/// An item of a module: a datum, which may be LOCAL or TASK, or a routine. `at` is the byte of its first word, from 0.
#[derive(Drop)]
pub enum RawItem<'a> {
    Datum {
        local: bool,
        task: bool,
        datum: RawDatum<'a>,
        at: usize,
    },
    Routine(RawRoutine<'a>),
}

/// The syntax tree of a module, with its names as slices of the text.
#[derive(Drop)]
pub struct RawModule<'a> {
    pub name: RawName<'a>,
    pub attributes: Vec<Attribute>,
    pub items: Vec<RawItem<'a>>,
    pub at: usize,
}
