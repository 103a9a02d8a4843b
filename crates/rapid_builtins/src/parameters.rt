//! What arguments for parameters must be.

ghost use Rattle.std.specs.Prelude.{◌≡◌};
ghost use Rattle.rapid_builtins.specs.Parameters.{parameter_need};

use crate::need::Need;
use rapid_model::{Mode, Sort};

/// What an argument for a parameter of the mode and the type must be (RAPID Kernel, parameter declarations).
pub fn parameter_need(mode: Mode, sort: Sort) -> Need
    ensures { result ≡ parameter_need mode sort }
{
    match mode {
        Mode::Value => Need::Value(sort),
        Mode::Inout => Need::VarOrPers(sort),
        Mode::Var => Need::Var(sort),
        Mode::Pers => Need::Pers(sort),
    }
}
