/// How an argument is passed: by value, or by one of three kinds of reference.
#[derive(Clone, Copy, Debug, PartialEq, Eq)]
pub enum Mode {
    Value,
    Inout,
    Var,
    Pers,
}
