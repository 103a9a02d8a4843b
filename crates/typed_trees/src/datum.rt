//! What the places of a task's data hold.

ghost use Rattle.std.specs.Prelude.{◌≡◌, IfOk};

use crate::boxed_shape::BoxedShape;
use rapid_model::{PartName, Value};
use std::alloc::{AllocError, Global};

/// Where a datum is stored: at a place among the task's module data, at a place in a frame, or at an element of a
/// persistent, with index 0 if it is not an array.
#[derive(Clone, Copy, Debug, PartialEq, Eq)]
pub enum Root {
    Slot(u32),
    Frame { frame: u8, at: u32 },
    Pers { pers: u32, index: u16 },
}

/// A part of a datum that can be read and written.
#[derive(Clone, Copy, Debug, PartialEq, Eq)]
pub struct Lvalue {
    pub root: Root,
    pub part: PartName,
}

/// What a place of a task's data holds.
#[derive(Debug, Drop)]
pub enum Datum {
    /// A value of a type that has values.
    Plain(Value),
    /// The number of an interrupt or of a zone; 0 if there is none.
    Mark(u8),
    /// A shape, once it is defined.
    Shape(Option<BoxedShape>),
    /// What a reference parameter refers to.
    Place(Lvalue),
}

impl Datum {
    /// A copy. Fails only if an allocation fails.
    pub fn copy(&self, alloc: Global) -> Result<Datum, AllocError>
        ensures { IfOk result (λ d. d ≡ self.now) }
    {
        match self {
            Datum::Plain(value) => Ok(Datum::Plain(value.copy())),
            Datum::Mark(number) => Ok(Datum::Mark(*number)),
            Datum::Shape(None) => Ok(Datum::Shape(None)),
            Datum::Shape(Some(shape)) => Ok(Datum::Shape(Some(shape.copy(alloc)?))),
            Datum::Place(place) => Ok(Datum::Place(*place)),
        }
    }
}
