//! The operations of the leaves of expressions.

ghost use Rattle.std.specs.Prelude.{◌≡◌, ◌*◌, pos, OnOk};
ghost use Rattle.stack_code.specs.ExprLayouts.{part_code, put, sign_code, signal_code};
ghost use Rattle.stack_code.specs.Pieces;
ghost use Rattle.stack_code.specs.Placed.{Own};
ghost use Rattle.stack_code.specs.Sizes.{part_size, sign_size, signal_size};
ghost use Rattle.stack_code.specs.declared.op.Op.TheVariants as ops;
ghost use Rattle.code_expr.specs.Adds.{Adds};

use crate::block::Block;
use rapid_model::{Function, Operator, PartName};
use rapid_num::Num;
use stack_code::{Op, Pushed, UnaryOp};
use std::alloc::AllocError;

/// A count as a num.
fn whole(count: u16) -> Num
    ensures { result ≡ pos (count * 1_000) }
{
    match Num::new(i64::from(count) * 1_000) {
        Some(number) => number,
        None => unreachable!(),
    }
}

/// Pushes a count as a num.
pub fn push(count: u16) -> Op
    ensures { result ≡ Pieces.push count }
{
    Op::Push(Pushed::number(whole(count)))
}

/// Pushes -1.
pub fn push_down() -> Op
    ensures { result ≡ Pieces.push_down }
{
    match Num::new(-1_000) {
        Some(number) => Op::Push(Pushed::number(number)),
        None => unreachable!(),
    }
}

/// Narrows a place to a part; the whole needs no operation. Fails only if an allocation fails.
pub(crate) fn add_part(part: PartName, code: &mut Block) -> Result<(), AllocError>
    ensures { OnOk result ((own : Own) → Adds own code.old code.new (part_size part) (λ pc ps. part_code own part ps)) }
{
    match part {
        PartName::Whole => Ok(()),
        _ => code.put(Op::Part(part)),
    }
}

/// A leading sign; a plus needs no operation. Fails only if an allocation fails.
pub(crate) fn add_sign(minus: bool, code: &mut Block) -> Result<(), AllocError>
    ensures { OnOk result ((own : Own) → Adds own code.old code.new (sign_size minus) (λ pc ps. sign_code own minus ps)) }
{
    if minus {
        code.put(Op::Unary(UnaryOp::Minus))
    } else {
        Ok(())
    }
}

/// A predefined function of a signal. Fails only if an allocation fails.
pub(crate) fn add_signal(
    function: Function,
    signal: u32,
    code: &mut Block,
) -> Result<(), AllocError>
    ensures { OnOk result ((own : Own) → Adds own code.old code.new (signal_size function) (λ pc ps. signal_code own function signal ps)) }
{
    code.put(Op::GetSignal(signal))?;
    match function {
        Function::TestDI => {
            code.put(push(1))?;
            code.put(Op::Binary(Operator::Equal))
        }
        _ => Ok(()),
    }
}

/// Copies the left operand, jumps by the copy, and drops the operand if it does not jump. Fails only if an allocation
/// fails.
pub(crate) fn add_skip(jump: Op, code: &mut Block) -> Result<(), AllocError>
    ensures { OnOk result ((own : Own) → Adds own code.old code.new 3 (λ pc ps. put own ops.Dup (put own jump (put own ops.Drop ps)))) }
{
    code.put(Op::Dup)?;
    code.put(jump)?;
    code.put(Op::Drop)
}
