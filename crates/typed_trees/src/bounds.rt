//! The values that the variable of a FOR takes.

use crate::expr::Expr;

/// The first value, the last value and the step, which is none if STEP is omitted (RAPID Kernel, FOR).
#[derive(Drop)]
pub struct Bounds {
    pub first: Expr,
    pub last: Expr,
    pub step: Option<Expr>,
}
