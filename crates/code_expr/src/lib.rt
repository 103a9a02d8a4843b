//! The code of expressions, places and arguments: its size, the operands that it needs, and the operations.
#![tactic(auto)]

mod block;
mod builtin_form;
mod context;
mod emission;
mod expressions;
mod leaves;
mod lengths;
mod needs;
mod numbers;
mod sizes;
mod starts;

pub use block::Block;
pub use context::Context;
pub use emission::{add_args, add_expr, add_place};
pub use expressions::emit_expr;
pub use leaves::{push, push_down};
pub use needs::{args_need, expr_need, more, place_need};
pub use numbers::{count_of, sum};
pub use sizes::{args_size, expr_size, place_size};
pub use starts::{local_starts, slot_starts};
