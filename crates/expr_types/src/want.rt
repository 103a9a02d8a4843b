use rapid_model::Sort;

/// What is required of an expression: any type, or this one.
#[derive(Clone, Copy, Debug, PartialEq, Eq)]
pub enum Want {
    Any,
    Is(Sort),
}
