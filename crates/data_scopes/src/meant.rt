use rapid_model::{Function, Instruction, Predefined};

/// What a name means. Numbers count from 0 in the order of modules and text.
#[derive(Clone, Copy, Debug, PartialEq, Eq)]
pub enum Meant {
    /// A VAR or an array CONST of a module, by its number among these.
    Slot(u32),
    /// A by-value parameter, a VAR or an array CONST of the routine, by its index among its parameters and data.
    Local(u32),
    /// A reference parameter of the routine, by its index among its parameters and data.
    Ref(u32),
    /// A PERS, by its number among these.
    Pers(u32),
    /// A CONST that is not an array, by its number among these, including those of routines.
    Const(u32),
    /// The variable of a FOR of the routine, by its number among its FORs.
    For(u32),
    /// A signal of the script.
    Signal(u32),
    /// A routine of the task.
    Routine(u32),
    /// A predefined procedure.
    Instruction(Instruction),
    /// A predefined function.
    Function(Function),
    /// A predefined type or datum.
    Predefined(Predefined),
}
