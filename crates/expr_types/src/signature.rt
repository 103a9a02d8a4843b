//! How something is called.

ghost use Rattle.std.specs.Prelude.{◌≡◌, map};
ghost use Rattle.raw_trees.specs.Plain.{args_of};
ghost use Rattle.raw_trees.specs.Views.{view_arg as view_raw_arg};
ghost use Rattle.expr_types.specs.Calls;
ghost use Rattle.expr_types.specs.Views.{view_signature};

use crate::needs::Needs;
use crate::zone::zone_need;
use data_scopes::ParamRow;
use rapid_builtins::{
    Choice, InstructionOption, Need, choice, function_needs, function_needs_arm, instruction_needs,
    needs_arm, options,
};
use rapid_model::{Function, Instruction};
use raw_trees::RawArg;

/// How something is called: what its arguments must be, its options and how many of them one call may have, and whether
/// it needs an arm (RAPID Kernel, procedure calls and function calls).
#[derive(Clone, Copy)]
pub struct Signature<'a> {
    pub needs: Needs<'a>,
    pub options: &'a [InstructionOption],
    pub choice: Choice,
    pub arm: bool,
}

/// How a routine of the task with these parameters is called (RAPID Kernel, procedure calls).
pub fn routine_signature(params: &[ParamRow]) -> Signature<'_>
    ensures { view_signature result ≡ Calls.routine_signature params.now }
{
    Signature {
        needs: Needs::Params(params),
        options: &[],
        choice: Choice::Any,
        arm: false,
    }
}

/// How a predefined function is called (RAPID Instructions, Functions and Data types, arguments).
pub fn function_signature(function: Function) -> Signature<'static>
    ensures { view_signature result ≡ Calls.function_signature function }
{
    Signature {
        needs: Needs::Predefined {
            needs: function_needs(function),
            zone: Need::WorldZone,
        },
        options: &[],
        choice: Choice::Any,
        arm: function_needs_arm(function),
    }
}

/// How a predefined instruction with these arguments is called (RAPID Instructions, Functions and Data types,
/// arguments): its options may determine the type of an argument.
pub fn instruction_signature(instruction: Instruction, args: &[RawArg<'_>]) -> Signature<'static>
    ensures { view_signature result ≡ Calls.instruction_signature instruction (args_of (map view_raw_arg args.now)) }
{
    Signature {
        needs: Needs::Predefined {
            needs: instruction_needs(instruction),
            zone: zone_need(args),
        },
        options: options(instruction),
        choice: choice(instruction),
        arm: needs_arm(instruction),
    }
}
