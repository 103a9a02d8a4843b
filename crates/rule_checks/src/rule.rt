//! The rules of names and types.

ghost use Rattle.std.specs.Prelude.{◌≡◌, ◌≤◌, length};
ghost use Rattle.rule_checks.specs.Names.{type_rule_name};

/// A rule of names and types. It is reported at the first byte of the smallest form that breaks it.
#[derive(Clone, Copy, Debug, PartialEq, Eq)]
pub enum TypeRule {
    /// A second item, module or datum with the same name in one scope.
    NameTwice,
    /// An item of a module with the name of a signal or a predefined name.
    NameTaken,
    /// A name that is not visible.
    NoName,
    /// A name of another kind than the form needs, as a routine for a datum.
    NotThis,
    /// A value of the wrong type, or a type without values where a value is required.
    TypeClash,
    /// A CONST without a value.
    NoInit,
    /// An initial value or a length that contains a variable, a persistent, a signal or a call.
    NotConst,
    /// A CONST that is declared only later.
    ConstOrder,
    /// An initial value whose evaluation ends in a fault or an error.
    ConstFault,
    /// A length that is not an integer from 1 to 1000, or an aggregate with another number of values.
    DimRange,
    /// An array without an index.
    WholeArray,
    /// A write to a CONST, a FOR variable, ERRNO or a predefined datum.
    ReadOnly,
    /// An argument for a reference that is not a place of the required kind and type.
    BadRef,
    /// Too few or too many arguments, or more than 32.
    ArgCount,
    /// A wrong, missing or repeated option.
    ArgName,
    /// A GOTO whose label is neither in its own list nor in an enclosing one.
    NoLabel,
    /// Two labels with the same name in one routine.
    LabelTwice,
    /// RETRY, TRYNEXT, or RAISE without a number, outside an ERROR part.
    HandlerOnly,
    /// RETURN with a value outside a function, or without a value in a function.
    ReturnKind,
    /// A persistent of a type without values.
    PersKind,
    /// A zone other than `fine`.
    CornerZone,
    /// A tool other than `tool0`, or a work object other than `wobj0`.
    ToolOnly,
    /// A meeting that is not given by a VAR syncident of a module.
    SyncName,
    /// A statement or a call that needs an arm, in a task without one.
    NoArm,
    /// No procedure `main` that has no parameters and is not LOCAL.
    NoMain,
    /// More than 20,000 values of module data.
    DataRange,
    /// A persistent of the cell with two types or lengths.
    PersType,
}

impl TypeRule {
    /// The name of the rule in error messages, at most 11 bytes.
    pub fn name(self) -> &'static [u8]
        ensures same { result.now ≡ type_rule_name self }
        ensures short { length result.now ≤ 11 }
    {
        match self {
            TypeRule::NameTwice => b"NameTwice",
            TypeRule::NameTaken => b"NameTaken",
            TypeRule::NoName => b"NoName",
            TypeRule::NotThis => b"NotThis",
            TypeRule::TypeClash => b"TypeClash",
            TypeRule::NoInit => b"NoInit",
            TypeRule::NotConst => b"NotConst",
            TypeRule::ConstOrder => b"ConstOrder",
            TypeRule::ConstFault => b"ConstFault",
            TypeRule::DimRange => b"DimRange",
            TypeRule::WholeArray => b"WholeArray",
            TypeRule::ReadOnly => b"ReadOnly",
            TypeRule::BadRef => b"BadRef",
            TypeRule::ArgCount => b"ArgCount",
            TypeRule::ArgName => b"ArgName",
            TypeRule::NoLabel => b"NoLabel",
            TypeRule::LabelTwice => b"LabelTwice",
            TypeRule::HandlerOnly => b"HandlerOnly",
            TypeRule::ReturnKind => b"ReturnKind",
            TypeRule::PersKind => b"PersKind",
            TypeRule::CornerZone => b"CornerZone",
            TypeRule::ToolOnly => b"ToolOnly",
            TypeRule::SyncName => b"SyncName",
            TypeRule::NoArm => b"NoArm",
            TypeRule::NoMain => b"NoMain",
            TypeRule::DataRange => b"DataRange",
            TypeRule::PersType => b"PersType",
        }
    }
}
