use rapid_num::Num;

/// What follows the text in a message to the operator (RAPID Instructions: TPWrite).
#[derive(Clone, Copy, Debug, PartialEq, Eq)]
pub enum Tail {
    None,
    Num(Num),
    Bool(bool),
}
