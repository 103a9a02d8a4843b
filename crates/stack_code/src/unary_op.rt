/// An operator with one operand: a leading minus, or NOT.
#[derive(Clone, Copy)]
pub enum UnaryOp {
    Minus,
    Not,
}
