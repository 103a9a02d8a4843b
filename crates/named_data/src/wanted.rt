use rapid_model::{Operator, Sort};

/// What the place of an expression requires of it.
#[derive(Clone, Copy, Debug, PartialEq, Eq)]
pub enum Wanted {
    /// A value of any type; brackets have no type there.
    Any,
    /// A value of any type; brackets have this type.
    Brackets(Sort),
    /// A value of the type; brackets have that type.
    Is(Sort),
    /// An operand of the type; brackets have no type there.
    Same(Sort),
    /// The first operand of the operator.
    Fits(Operator),
    /// No value: the place takes a name.
    Nothing,
    /// No value: the place takes a reference.
    Reference,
    /// No value: the place takes a reference to a datum of the type; brackets have that type.
    ReferenceTo(Sort),
    /// No value: the place takes the name of a meeting.
    Meeting,
}
