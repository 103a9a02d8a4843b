//! What a name stands for as a value or a place.

use rapid_model::{Sort, Value};
use typed_trees::TreeRoot;

/// How a place may be written and passed by reference.
#[derive(Clone, Copy, Debug, PartialEq, Eq)]
pub enum Access {
    /// As a VAR.
    Var,
    /// As a PERS.
    Pers,
    /// As what an INOUT parameter refers to: a VAR or a PERS.
    Either,
    /// Not at all: an element of a CONST array, the variable of a FOR.
    Fixed,
}

/// Where the value of a name is.
#[derive(Debug, Drop)]
pub enum Source {
    /// At a place of the task's data.
    Place { root: TreeRoot, access: Access },
    /// It is known: a CONST that is not an array, or a predefined datum.
    Value(Value),
    /// It is the number of the task's last error.
    Errno,
    /// It is the value of a signal, by the signal's number in the script.
    Signal(u32),
}

/// A datum that a name means: where its value is, its type, and whether it is an array.
#[derive(Debug, Drop)]
pub struct NamedDatum {
    pub source: Source,
    pub sort: Sort,
    pub array: bool,
}
