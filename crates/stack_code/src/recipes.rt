ghost use Rattle.std.specs.Prelude.{◌≡◌};
ghost use Rattle.stack_code.specs.Recipes;

use crate::irq_op::IrqOp;
use crate::step::Step;
use crate::step::Step::{
    Arrive, Binary, Bit, Count, Drop, Dup, GetSignal, Irq, Load, OrderPers, OrderSignal, Over,
    Place, PutSignal, Say, Shape, Still, Store, Tail, TaskSet, TestSet, Travel, Value, Wait, Zone,
    ZoneSet, ZoneTie,
};
use crate::zone_op::ZoneOp;
use rapid_model::{Instruction, Operator};

/// The layout of an instruction after its Look, step by step (RAPID Instructions).
pub fn recipe(instruction: Instruction) -> &'static [Step]
    ensures { result.now ≡ Recipes.recipe instruction }
{
    match instruction {
        Instruction::MoveAbsJ => &[Still, Value(0), Value(1), Travel],
        Instruction::Set => &[Count(1), PutSignal(0)],
        Instruction::Reset => &[Count(0), PutSignal(0)],
        Instruction::SetDO => &[Value(1), PutSignal(0)],
        Instruction::WaitDI => &[Value(1), Bit, GetSignal(0), Binary(Operator::Equal), Wait],
        Instruction::WaitDO => &[Value(1), Bit, GetSignal(0), Binary(Operator::Equal), Wait],
        Instruction::WaitUntil => &[Value(0), Wait],
        Instruction::WaitTime => &[Value(0), Drop],
        Instruction::WaitTestAndSet => &[Place(0), TestSet, Wait],
        Instruction::WaitSyncTask => &[Place(1), TaskSet(1), Arrive(0), Wait],
        Instruction::TPWrite => &[Value(0), Tail, Say],
        Instruction::TPErase => &[],
        Instruction::ISignalDI => &[Value(1), Bit, Place(2), Load, OrderSignal(0)],
        Instruction::ISignalDO => &[Value(1), Bit, Place(2), Load, OrderSignal(0)],
        Instruction::IPers => &[Place(1), Load, OrderPers(0)],
        Instruction::ISleep => &[Place(0), Load, Irq(IrqOp::Sleep)],
        Instruction::IWatch => &[Place(0), Load, Irq(IrqOp::Watch)],
        Instruction::IDelete => &[Place(0), Load, Irq(IrqOp::Delete)],
        Instruction::IDisable => &[Irq(IrqOp::Disable)],
        Instruction::IEnable => &[Irq(IrqOp::Enable)],
        Instruction::WZLimJointDef => &[Place(0), Value(1), Value(2), Shape(false)],
        Instruction::WZHomeJointDef => &[Place(0), Value(1), Value(2), Shape(true)],
        Instruction::WZLimSup => &[Place(0), Dup, Load, Place(1), Load, ZoneSet],
        Instruction::WZDOSet => &[Place(0), Dup, Load, Place(1), Load, Value(3), ZoneTie(2)],
        Instruction::WZDisable => &[Place(0), Dup, Load, Zone(ZoneOp::Off)],
        Instruction::WZEnable => &[Place(0), Dup, Load, Zone(ZoneOp::On)],
        Instruction::WZFree => &[Place(0), Dup, Load, Zone(ZoneOp::Free)],
        Instruction::Incr => &[Place(0), Dup, Load, Count(1), Binary(Operator::Add), Store],
        Instruction::Decr => &[Place(0), Dup, Load, Count(1), Binary(Operator::Sub), Store],
        Instruction::Clear => &[Place(0), Count(0), Store],
        Instruction::Add => &[Place(0), Value(1), Over, Load, Binary(Operator::Add), Store],
    }
}
