//! What the predefined instructions take (RAPID Instructions, Functions and Data types).

ghost use Rattle.std.specs.Prelude.{◌≡◌};
ghost use Rattle.rapid_builtins.specs.Calls.{instruction_needs};

use crate::Need;
use rapid_model::{Instruction, Sort};

/// The arguments of an instruction, in order and without its options (RAPID Instructions, Functions and Data types,
/// arguments). Type checking compares each argument of a call with its need, and their number with the length.
pub fn instruction_needs(instruction: Instruction) -> &'static [Need]
    ensures { result.now ≡ instruction_needs instruction }
{
    match instruction {
        Instruction::MoveAbsJ => &[
            Need::Value(Sort::JointTarget),
            Need::Value(Sort::SpeedData),
            Need::Fine,
            Need::Tool,
        ],
        Instruction::Set | Instruction::Reset => &[Need::Signal { output: true }],
        Instruction::SetDO | Instruction::WaitDO => {
            &[Need::Signal { output: true }, Need::Value(Sort::Num)]
        }
        Instruction::WaitDI => &[Need::Signal { output: false }, Need::Value(Sort::Num)],
        Instruction::WaitUntil => &[Need::Value(Sort::Bool)],
        Instruction::WaitTime => &[Need::Value(Sort::Num)],
        Instruction::WaitTestAndSet => &[Need::Pers(Sort::Bool)],
        Instruction::WaitSyncTask => &[Need::Meeting, Need::TaskList],
        Instruction::TPWrite => &[Need::Value(Sort::Text)],
        Instruction::TPErase | Instruction::IDisable | Instruction::IEnable => &[],
        Instruction::ISignalDI => &[
            Need::Signal { output: false },
            Need::Value(Sort::Num),
            Need::Place(Sort::IntNum),
        ],
        Instruction::ISignalDO => &[
            Need::Signal { output: true },
            Need::Value(Sort::Num),
            Need::Place(Sort::IntNum),
        ],
        Instruction::IPers => &[Need::PersName, Need::Place(Sort::IntNum)],
        Instruction::ISleep | Instruction::IWatch | Instruction::IDelete => {
            &[Need::Place(Sort::IntNum)]
        }
        Instruction::WZLimJointDef | Instruction::WZHomeJointDef => &[
            Need::Var(Sort::ShapeData),
            Need::Value(Sort::JointTarget),
            Need::Value(Sort::JointTarget),
        ],
        Instruction::WZLimSup => &[Need::WorldZone, Need::Place(Sort::ShapeData)],
        Instruction::WZDOSet => &[
            Need::WorldZone,
            Need::Place(Sort::ShapeData),
            Need::Signal { output: true },
            Need::Value(Sort::Num),
        ],
        Instruction::WZDisable | Instruction::WZEnable | Instruction::WZFree => {
            &[Need::Var(Sort::WzTemporary)]
        }
        Instruction::Incr | Instruction::Decr | Instruction::Clear => &[Need::Written(Sort::Num)],
        Instruction::Add => &[Need::Written(Sort::Num), Need::Value(Sort::Num)],
    }
}
