use rapid_model::{Operator, Sort};
use typed_trees::Expr;

/// Operators of one level and their operands after the first, and the type of the result.
#[derive(Drop)]
pub struct TypedChain {
    pub steps: Vec<(Operator, Expr)>,
    pub sort: Sort,
}
