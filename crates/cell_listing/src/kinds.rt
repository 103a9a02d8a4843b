//! The names of operators and functions, and of the kinds of operands.

ghost use Rattle.std.specs.Prelude.{◌≡◌, ◌≤◌, length};
ghost use Rattle.cell_listing.specs.OpListing;

use rapid_model::{Function, Operator};
use stack_code::{IrqOp, TailKind, UnaryOp, ZoneOp};
use value_text::WORD_BYTES;

pub(crate) fn operator_name(operator: Operator) -> &'static str
    ensures name { result.now ≡ OpListing.operator_name operator }
    ensures short { length result.now ≤ WORD_BYTES }
{
    match operator {
        Operator::Or => "Or",
        Operator::Xor => "Xor",
        Operator::And => "And",
        Operator::Equal => "Equal",
        Operator::NotEqual => "NotEqual",
        Operator::Less => "Less",
        Operator::Greater => "Greater",
        Operator::LessEqual => "LessEqual",
        Operator::GreaterEqual => "GreaterEqual",
        Operator::Add => "Add",
        Operator::Sub => "Sub",
        Operator::Mul => "Mul",
        Operator::Div => "Div",
        Operator::IntDiv => "IntDiv",
        Operator::Mod => "Mod",
    }
}

pub(crate) fn unary_name(operator: UnaryOp) -> &'static str
    ensures name { result.now ≡ OpListing.unary_name operator }
    ensures short { length result.now ≤ WORD_BYTES }
{
    match operator {
        UnaryOp::Minus => "Minus",
        UnaryOp::Not => "Not",
    }
}

pub(crate) fn function_name(function: Function) -> &'static str
    ensures name { result.now ≡ OpListing.function_name function }
    ensures short { length result.now ≤ WORD_BYTES }
{
    match function {
        Function::Abs => "Abs",
        Function::Trunc => "Trunc",
        Function::StrLen => "StrLen",
        Function::NumToStr => "NumToStr",
        Function::Dim => "Dim",
        Function::CJointT => "CJointT",
        Function::TestDI => "TestDI",
        Function::DOutput => "DOutput",
        Function::TestAndSet => "TestAndSet",
    }
}

pub(crate) fn irq_name(irq: IrqOp) -> &'static str
    ensures name { result.now ≡ OpListing.irq_name irq }
    ensures short { length result.now ≤ WORD_BYTES }
{
    match irq {
        IrqOp::Sleep => "Sleep",
        IrqOp::Watch => "Watch",
        IrqOp::Delete => "Delete",
        IrqOp::Disable => "Disable",
        IrqOp::Enable => "Enable",
    }
}

pub(crate) fn zone_name(zone: ZoneOp) -> &'static str
    ensures name { result.now ≡ OpListing.zone_name zone }
    ensures short { length result.now ≤ WORD_BYTES }
{
    match zone {
        ZoneOp::On => "On",
        ZoneOp::Off => "Off",
        ZoneOp::Free => "Free",
    }
}

pub(crate) fn tail_name(tail: TailKind) -> &'static str
    ensures name { result.now ≡ OpListing.tail_name tail }
    ensures short { length result.now ≤ WORD_BYTES }
{
    match tail {
        TailKind::None => "None",
        TailKind::Num => "Num",
        TailKind::Bool => "Bool",
    }
}
