//! The operands of an operation.

ghost use Rattle.std.specs.Prelude.{◌≡◌, ◌+◌, ◌*◌, ◌≤◌, ◌∷◌, ◌++◌, length};
ghost use Rattle.value_text.specs.ValueText.{truth_text};
ghost use Rattle.cell_listing.specs.OpListing.{datum_text, op_args, word, number_word, order_text};

use crate::kinds::{function_name, irq_name, operator_name, tail_name, unary_name, zone_name};
use crate::op_rooms::{ARGS_BYTES, NUMBER_BYTES, ONE_WORD_BYTES, OPERATION_BYTES, WATCHED_BYTES};
use arrayvec::ArrayString;
use stack_code::{Op, OrderOn, Pushed};
use value_text::{WORD_BYTES, part_name, push_count, push_value, sort_name, truth_name};

/// Appends the operands of an operation, each after a space.
pub(crate) fn push_args(op: &Op, line: &mut ArrayString<OPERATION_BYTES>)
    requires room { length line.old.bytes + ARGS_BYTES ≤ OPERATION_BYTES }
    ensures { line.new.bytes ≡ line.old.bytes ++ op_args op.now }
{
    match op {
        Op::Push(pushed) => push_pushed(pushed, line),
        Op::Slot(number)
        | Op::Local(number)
        | Op::Pers(number)
        | Op::Ref(number)
        | Op::GetSignal(number)
        | Op::PutSignal(number)
        | Op::Jump(number)
        | Op::JumpTrue(number)
        | Op::JumpFalse(number)
        | Op::Call(number)
        | Op::Wait(number)
        | Op::Arrive(number)
        | Op::Point(number)
        | Op::Connect(number) => push_number(*number, line),
        Op::Index(len) | Op::TaskSet(len) => push_number(u32::from(*len), line),
        Op::Part(part) => push_word(part_name(*part), line),
        Op::Pack(sort) => push_word(sort_name(*sort), line),
        Op::Binary(operator) => push_word(operator_name(*operator), line),
        Op::Unary(operator) => push_word(unary_name(*operator), line),
        Op::Func(function) => push_word(function_name(*function), line),
        Op::Turn(number, pc) | Op::Step(number, pc) => push_two(*number, *pc, line),
        Op::Order(on, single) => push_order(*on, *single, line),
        Op::Irq(irq) => push_word(irq_name(*irq), line),
        Op::Shape(inside, home) => push_truths(*inside, *home, line),
        Op::ZoneSet(temporary) => push_word(truth_name(*temporary), line),
        Op::ZoneTie(temporary, signal) => push_tie(*temporary, *signal, line),
        Op::Zone(zone) => push_word(zone_name(*zone), line),
        Op::Say(tail) => push_word(tail_name(*tail), line),
        Op::Errno
        | Op::Drop
        | Op::Dup
        | Op::Over
        | Op::Load
        | Op::Store
        | Op::Bit
        | Op::Look
        | Op::Back
        | Op::BackWith
        | Op::NoBack
        | Op::Raise
        | Op::Again
        | Op::Retry
        | Op::Next
        | Op::Exit
        | Op::TestSet
        | Op::Here
        | Op::Still
        | Op::Aim => {}
    }
}

/// Appends a space and a datum that is pushed.
fn push_pushed(pushed: &Pushed, line: &mut ArrayString<OPERATION_BYTES>)
    requires room { length line.old.bytes + ARGS_BYTES ≤ OPERATION_BYTES }
    ensures { line.new.bytes ≡ line.old.bytes ++ 32 ∷ datum_text pushed.now }
{
    let value = pushed.kept_value();
    line.push(' ');
    push_value(&value, line);
}

/// Appends a space and a word.
fn push_word(text: &'static str, line: &mut ArrayString<OPERATION_BYTES>)
    requires short { length text.now ≤ WORD_BYTES }
    requires room { length line.old.bytes + ONE_WORD_BYTES ≤ OPERATION_BYTES }
    ensures text { line.new.bytes ≡ line.old.bytes ++ word text.now }
    ensures short { length line.new.bytes ≤ length line.old.bytes + ONE_WORD_BYTES }
{
    line.push(' ');
    line.push_str(text);
}

/// Appends a space and a number.
fn push_number(number: u32, line: &mut ArrayString<OPERATION_BYTES>)
    requires room { length line.old.bytes + NUMBER_BYTES ≤ OPERATION_BYTES }
    ensures text { line.new.bytes ≡ line.old.bytes ++ number_word number }
    ensures short { length line.new.bytes ≤ length line.old.bytes + NUMBER_BYTES }
{
    line.push(' ');
    push_count(number as usize, line);
}

/// Appends two numbers, each after a space.
fn push_two(number: u32, pc: u32, line: &mut ArrayString<OPERATION_BYTES>)
    requires room { length line.old.bytes + 2 * NUMBER_BYTES ≤ OPERATION_BYTES }
    ensures { line.new.bytes ≡ line.old.bytes ++ (number_word number ++ number_word pc) }
{
    push_number(number, line);
    push_number(pc, line);
}

/// Appends two truth values, each after a space.
fn push_truths(one: bool, other: bool, line: &mut ArrayString<OPERATION_BYTES>)
    requires room { length line.old.bytes + 2 * ONE_WORD_BYTES ≤ OPERATION_BYTES }
    ensures { line.new.bytes ≡ line.old.bytes ++ (word (truth_text one) ++ word (truth_text other)) }
{
    push_word(truth_name(one), line);
    push_word(truth_name(other), line);
}

/// Appends whether a zone is temporary, and a signal by its number in the cell, each after a space.
fn push_tie(temporary: bool, signal: u32, line: &mut ArrayString<OPERATION_BYTES>)
    requires room { length line.old.bytes + ONE_WORD_BYTES + NUMBER_BYTES ≤ OPERATION_BYTES }
    ensures { line.new.bytes ≡ line.old.bytes ++ (word (truth_text temporary) ++ number_word signal) }
{
    push_word(truth_name(temporary), line);
    push_number(signal, line);
}

/// Appends what an interrupt is ordered on, and whether it fires only once, each after a space.
fn push_order(on: OrderOn, single: bool, line: &mut ArrayString<OPERATION_BYTES>)
    requires room { length line.old.bytes + WATCHED_BYTES + ONE_WORD_BYTES ≤ OPERATION_BYTES }
    ensures { line.new.bytes ≡ line.old.bytes ++ (order_text on ++ word (truth_text single)) }
{
    push_watched(on, line);
    push_word(truth_name(single), line);
}

/// Appends a space and a signal or a persistent, by its number in the cell.
fn push_watched(on: OrderOn, line: &mut ArrayString<OPERATION_BYTES>)
    requires room { length line.old.bytes + WATCHED_BYTES ≤ OPERATION_BYTES }
    ensures text { line.new.bytes ≡ line.old.bytes ++ order_text on }
    ensures short { length line.new.bytes ≤ length line.old.bytes + WATCHED_BYTES }
{
    match on {
        OrderOn::Signal(signal) => {
            line.push_str(" D");
            push_count(signal as usize, line);
        }
        OrderOn::Pers(pers) => {
            line.push_str(" P");
            push_count(pers as usize, line);
        }
    }
}
