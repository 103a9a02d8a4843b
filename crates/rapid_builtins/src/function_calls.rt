//! What the predefined functions take and return (RAPID Instructions, Functions and Data types).

ghost use Rattle.std.specs.Prelude.{◌≡◌};
ghost use Rattle.rapid_builtins.specs.Calls.{function_needs, function_result};

use crate::Need;
use rapid_model::{Function, Sort};

/// The arguments of a function, in order (RAPID Instructions, Functions and Data types, arguments). Type checking
/// compares each argument of a call with its need, and their number with the length.
pub fn function_needs(function: Function) -> &'static [Need]
    ensures { result.now ≡ function_needs function }
{
    match function {
        Function::Abs => &[Need::Value(Sort::Num)],
        Function::Trunc => &[Need::Value(Sort::Num)],
        Function::StrLen => &[Need::Value(Sort::Text)],
        Function::NumToStr => &[Need::Value(Sort::Num), Need::Value(Sort::Num)],
        Function::Dim => &[Need::Array, Need::One],
        Function::CJointT => &[],
        Function::TestDI => &[Need::Signal { output: false }],
        Function::DOutput => &[Need::Signal { output: true }],
        Function::TestAndSet => &[Need::VarOrPers(Sort::Bool)],
    }
}

/// The type of a function's result (RAPID Instructions, Functions and Data types, return value). Type checking gives it
/// to a call.
pub fn function_result(function: Function) -> Sort
    ensures { result ≡ function_result function }
{
    match function {
        Function::Abs => Sort::Num,
        Function::Trunc => Sort::Num,
        Function::StrLen => Sort::Num,
        Function::NumToStr => Sort::Text,
        Function::Dim => Sort::Num,
        Function::CJointT => Sort::JointTarget,
        Function::TestDI => Sort::Bool,
        Function::DOutput => Sort::Num,
        Function::TestAndSet => Sort::Bool,
    }
}
