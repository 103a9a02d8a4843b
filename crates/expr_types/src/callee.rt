use rapid_model::Function;

/// A called function: a predefined one, or one of the task by its number.
#[derive(Clone, Copy, Debug, PartialEq, Eq)]
pub enum Callee {
    Builtin(Function),
    Routine(u32),
}
