use rapid_model::Sort;

/// What an argument must be in this profile (RAPID Instructions, Functions and Data types, arguments).
#[derive(Clone, Copy, Debug, PartialEq, Eq)]
pub enum Need {
    /// A value of the type.
    Value(Sort),
    /// The name of a signal: an output if `output` is true, else an input.
    Signal { output: bool },
    /// A place of the type that is a VAR.
    Var(Sort),
    /// A place of the type that is a PERS.
    Pers(Sort),
    /// A place of the type, passed by reference: a VAR or a PERS.
    VarOrPers(Sort),
    /// A place of the type that is read and then written: a VAR or a PERS.
    Written(Sort),
    /// A place of the type, of any kind.
    Place(Sort),
    /// An array of any type that has values, named without an index.
    Array,
    /// A number literal with value 1, such as `1` or `1.0`: the only dimension of an array.
    One,
    /// The zone `fine`.
    Fine,
    /// The tool `tool0`.
    Tool,
    /// The work object `wobj0`.
    WorkObject,
    /// A module's VAR syncident.
    Meeting,
    /// An array of tasks, named without an index.
    TaskList,
    /// The name of a declared PERS, without index or component.
    PersName,
    /// The variable of a world zone: a VAR wztemporary if `Temp` is the first of the options `Temp` and `Stat`, a VAR
    /// wzstationary if `Stat` is, and a VAR of either type if the call has neither.
    WorldZone,
}
