use rapid_model::Value;

/// The outcome of a constant expression.
#[derive(Debug, Drop)]
pub enum Outcome {
    /// A value.
    Value(Value),
    /// An error with this number, such as 101 for division by zero.
    Raises(u8),
    /// A num out of range, which is a fault.
    OutOfRange,
    /// An index without an element, which is a fault.
    OutOfArray,
    /// No value is known before the run: a variable, a persistent, a signal or a call, or operands that do not fit.
    NotKnown,
}
