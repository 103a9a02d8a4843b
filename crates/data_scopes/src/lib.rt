//! What each name means at each spot of a task's modules, and the first wrong declaration.
#![tactic(auto)]

mod builtin_names;
mod checking;
mod counts;
mod data_row;
mod datum_rows;
mod filling;
mod known;
mod laws;
mod loop_row;
mod loops;
mod meant;
mod numbers;
mod own;
mod routine_entry;
mod routine_rows;
mod row_tables;
mod rows;
mod scopes;
mod slots;
mod sorts;
mod tables;
mod walking;

pub use data_row::{DatumRow, ParamRow, Since};
pub use datum_rows::begin_of;
pub use known::Known;
pub use laws::{kept_by_number, numbers_have_rows};
pub use meant::Meant;
pub use numbers::{is_const, is_pers, is_scalar_const, number_after};
pub use scopes::Scopes;
pub use slots::is_meeting;
pub use sorts::same_sort;
