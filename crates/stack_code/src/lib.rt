//! Stack code: what a task's tree compiles to, what each operation means, and how each form of the language is laid
//! out.
#![tactic(auto)]

mod first_run;
mod irq_op;
mod linked_code;
mod marks;
mod op;
mod order_on;
mod owner;
mod pers_sort;
mod pushed;
mod recipes;
mod routine_row;
mod step;
mod tail_kind;
mod unary_op;
mod zone_op;

pub use first_run::FirstRun;
pub use irq_op::IrqOp;
pub use linked_code::LinkedCode;
pub use marks::Marks;
pub use op::Op;
pub use order_on::OrderOn;
pub use owner::Owner;
pub use pers_sort::PersSort;
pub use pushed::Pushed;
pub use recipes::recipe;
pub use routine_row::RoutineRow;
pub use step::Step;
pub use tail_kind::TailKind;
pub use unary_op::UnaryOp;
pub use zone_op::ZoneOp;
