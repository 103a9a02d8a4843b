//! The predefined instructions (RAPID Instructions, Functions and Data types).

ghost use Rattle.std.specs.Prelude.{◌≡◌, map};
ghost use Rattle.rapid_builtins.specs.Names.{instruction_of, instruction_rows};

use crate::table::meant_by;
use rapid_model::Instruction;

static INSTRUCTIONS: [(&[u8], Instruction); 31] = [
    (b"MoveAbsJ", Instruction::MoveAbsJ),
    (b"Set", Instruction::Set),
    (b"Reset", Instruction::Reset),
    (b"SetDO", Instruction::SetDO),
    (b"WaitDI", Instruction::WaitDI),
    (b"WaitDO", Instruction::WaitDO),
    (b"WaitUntil", Instruction::WaitUntil),
    (b"WaitTime", Instruction::WaitTime),
    (b"WaitTestAndSet", Instruction::WaitTestAndSet),
    (b"WaitSyncTask", Instruction::WaitSyncTask),
    (b"TPWrite", Instruction::TPWrite),
    (b"TPErase", Instruction::TPErase),
    (b"ISignalDI", Instruction::ISignalDI),
    (b"ISignalDO", Instruction::ISignalDO),
    (b"IPers", Instruction::IPers),
    (b"ISleep", Instruction::ISleep),
    (b"IWatch", Instruction::IWatch),
    (b"IDelete", Instruction::IDelete),
    (b"IDisable", Instruction::IDisable),
    (b"IEnable", Instruction::IEnable),
    (b"WZLimJointDef", Instruction::WZLimJointDef),
    (b"WZHomeJointDef", Instruction::WZHomeJointDef),
    (b"WZLimSup", Instruction::WZLimSup),
    (b"WZDOSet", Instruction::WZDOSet),
    (b"WZDisable", Instruction::WZDisable),
    (b"WZEnable", Instruction::WZEnable),
    (b"WZFree", Instruction::WZFree),
    (b"Incr", Instruction::Incr),
    (b"Decr", Instruction::Decr),
    (b"Clear", Instruction::Clear),
    (b"Add", Instruction::Add),
];

/// The instruction with a name; `None` exactly for other names. Names are case-insensitive (RAPID Instructions,
/// Functions and Data types; RAPID Kernel, identifiers).
pub fn instruction(name: &[u8]) -> Option<Instruction>
    ensures { result ≡ instruction_of name.now }
{
    meant_by(&INSTRUCTIONS, name)
}

/// The names of the instructions, and what each stands for.
pub fn instruction_rows() -> &'static [(&'static [u8], Instruction)]
    ensures { map (λ row. (row.0.now, row.1)) result.now ≡ instruction_rows }
{
    &INSTRUCTIONS
}
