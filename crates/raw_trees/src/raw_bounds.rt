//! The values of the variable of a FOR.

use crate::raw_expr::RawExpr;

/// The first value, the last value and the step, if there is one (RAPID Kernel, FOR).
#[derive(Drop)]
pub struct RawBounds<'a> {
    pub first: RawExpr<'a>,
    pub last: RawExpr<'a>,
    pub step: Option<RawExpr<'a>>,
}
