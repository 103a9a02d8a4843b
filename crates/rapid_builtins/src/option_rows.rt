//! The options of the predefined instructions (RAPID Instructions, Functions and Data types, arguments).

ghost use Rattle.std.specs.Prelude.{◌≡◌, map, option_map};
ghost use Rattle.std.specs.Str.{str_eq_ignore_ascii_case};
ghost use Rattle.rapid_builtins.specs.Calls.{row_of, options, option_named, choice};

use crate::{Choice, InstructionOption, Need};
use rapid_model::{Instruction, Sort};

/// The options of an instruction, in the manual's order; empty if it has none (RAPID Instructions, Functions and Data
/// types, arguments). Type checking rejects any other option, a value for an option that takes none, and a missing
/// value for one that takes a value.
pub fn options(instruction: Instruction) -> &'static [InstructionOption]
    ensures { map row_of result.now ≡ options instruction }
{
    match instruction {
        Instruction::MoveAbsJ => &[
            InstructionOption {
                name: b"NoEOffs",
                value: None,
            },
            InstructionOption {
                name: b"WObj",
                value: Some(Need::WorkObject),
            },
        ],
        Instruction::TPWrite => &[
            InstructionOption {
                name: b"Num",
                value: Some(Need::Value(Sort::Num)),
            },
            InstructionOption {
                name: b"Bool",
                value: Some(Need::Value(Sort::Bool)),
            },
        ],
        Instruction::ISignalDI | Instruction::ISignalDO | Instruction::IPers => &[
            InstructionOption {
                name: b"Single",
                value: None,
            },
        ],
        Instruction::WZLimJointDef | Instruction::WZHomeJointDef => &[
            InstructionOption {
                name: b"Inside",
                value: None,
            },
            InstructionOption {
                name: b"Outside",
                value: None,
            },
        ],
        Instruction::WZLimSup => &[
            InstructionOption {
                name: b"Temp",
                value: None,
            },
            InstructionOption {
                name: b"Stat",
                value: None,
            },
        ],
        Instruction::WZDOSet => &[
            InstructionOption {
                name: b"Temp",
                value: None,
            },
            InstructionOption {
                name: b"Stat",
                value: None,
            },
            InstructionOption {
                name: b"Inside",
                value: None,
            },
        ],
        _ => &[],
    }
}

/// How many of an instruction's options one call may have (RAPID Instructions, Functions and Data types, arguments).
/// Type checking counts them.
pub fn choice(instruction: Instruction) -> Choice
    ensures { result ≡ choice instruction }
{
    match instruction {
        Instruction::TPWrite => Choice::OneAtMost,
        Instruction::WZLimJointDef | Instruction::WZHomeJointDef | Instruction::WZLimSup =>
            Choice::JustOne,
        Instruction::WZDOSet => Choice::InsideAndOne,
        _ => Choice::Any,
    }
}

/// Whether an option has this name, case-insensitively.
fn is_named(option: &InstructionOption, name: &[u8]) -> bool
    ensures { result ≡ str_eq_ignore_ascii_case option.now.name.now name.now }
{
    option.name.eq_ignore_ascii_case(name)
}

/// The first of these options that has this name, case-insensitively; `None` exactly if none has (RAPID Kernel,
/// identifiers). Type checking calls this for each option of a call.
pub fn first_named(rows: &[InstructionOption], name: &[u8]) -> Option<InstructionOption>
    ensures { option_map row_of result ≡ option_named name.now (map row_of rows.now) }
{
    for option in rows {
        if is_named(option, name) {
            return Some(*option);
        }
    }
    None
}

/// The option with this name; `None` exactly if the instruction has none. Names are case-insensitive (RAPID Kernel,
/// identifiers). Type checking calls `first_named` on the options of a signature; this is for a tool that looks one
/// option up.
pub fn option_of(instruction: Instruction, name: &[u8]) -> Option<InstructionOption>
    ensures { option_map row_of result ≡ option_named name.now (options instruction) }
{
    first_named(options(instruction), name)
}
