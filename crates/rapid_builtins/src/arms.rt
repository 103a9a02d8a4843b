//! Instructions and functions that move an arm, read its joints, or watch where it goes.

ghost use Rattle.std.specs.Prelude.{◌≡◌};
ghost use Rattle.rapid_builtins.specs.Calls.{needs_arm, function_needs_arm};

use rapid_model::{Function, Instruction};

/// Whether an instruction is allowed only in a motion task, one with an arm: motion and world zones (RAPID
/// Instructions, Functions and Data types). Type checking rejects it in a task without an arm.
pub fn needs_arm(instruction: Instruction) -> bool
    ensures { result ≡ needs_arm instruction }
{
    matches!(
        instruction,
        Instruction::MoveAbsJ
            | Instruction::WZLimJointDef
            | Instruction::WZHomeJointDef
            | Instruction::WZLimSup
            | Instruction::WZDOSet
            | Instruction::WZDisable
            | Instruction::WZEnable
            | Instruction::WZFree
    )
}

/// Whether a function is allowed only in a motion task, one with an arm: `CJointT`, which reads the joints (RAPID
/// Instructions, Functions and Data types). Type checking rejects it in a task without an arm.
pub fn function_needs_arm(function: Function) -> bool
    ensures { result ≡ function_needs_arm function }
{
    matches!(function, Function::CJointT)
}
