//! The trees of a checked task, with names resolved and types known. Each form has the byte of its module at which it
//! starts.
#![tactic(auto)]

mod bounds;
mod boxed_shape;
mod data_rows;
mod datum;
mod expr;
mod first_data;
mod first_runs;
mod routine;
mod stmt;
mod tree;

pub use bounds::Bounds;
pub use boxed_shape::BoxedShape;
pub use data_rows::{PersRow, SlotRow};
pub use datum::{Datum, Lvalue, Root};
pub use expr::{Arg, Expr, ExprForm, TreePlace, TreeRoot};
pub use first_data::FirstData;
pub use first_runs::FirstRuns;
pub use routine::{LocalRow, Param, Routine};
pub use stmt::{Form, Stmt};
pub use tree::Tree;
