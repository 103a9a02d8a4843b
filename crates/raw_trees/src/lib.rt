//! The syntax trees of a module: expressions, statements and declarations. Names are slices of the text, and each form
//! has the byte where it starts.
#![tactic(auto)]

mod raw_bounds;
mod raw_datum;
mod raw_expr;
mod raw_module;
mod raw_name;
mod raw_routine;
mod raw_stmt;

pub use raw_bounds::RawBounds;
pub use raw_datum::{DatumKind, RawDatum};
pub use raw_expr::{RawArg, RawExpr, RawExprForm, RawPlace};
pub use raw_module::{Attribute, RawItem, RawModule};
pub use raw_name::RawName;
pub use raw_routine::{RawParam, RawRoutine};
pub use raw_stmt::{RawForm, RawStmt};
