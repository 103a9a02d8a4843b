use crate::irq_op::IrqOp;
use crate::order_on::OrderOn;
use crate::pushed::Pushed;
use crate::tail_kind::TailKind;
use crate::unary_op::UnaryOp;
use crate::zone_op::ZoneOp;
use rapid_model::{Function, Operator, PartName, Sort};

/// An operation. It goes on to the next one unless stated otherwise. Operands are on the stack of the innermost frame,
/// the last one pushed on top. Places of operations count from 0. The table in `specs/Steps` has what each one does. 24
/// bytes.
#[derive(Drop)]
pub enum Op {
    Push(Pushed),
    /// Pushes the number of the task's last error.
    Errno,
    Drop,
    Dup,
    /// Pushes a copy of the datum below the top.
    Over,
    /// Pushes the place of a module datum, by its number.
    Slot(u32),
    /// Pushes the place of a datum of the frame, by its number.
    Local(u32),
    /// Pushes the place of a persistent, by its number in the cell.
    Pers(u32),
    /// Pushes the place that a reference parameter refers to, by its number among the data of the frame.
    Ref(u32),
    /// Pops an index, and replaces the place on top by that element of an array of this length.
    Index(u16),
    /// Narrows the place on top to a part.
    Part(PartName),
    Load,
    Store,
    GetSignal(u32),
    PutSignal(u32),
    /// Checks that the num on top is a signal value.
    Bit,
    /// Pops the components of a type, and pushes the record.
    Pack(Sort),
    Binary(Operator),
    Unary(UnaryOp),
    Func(Function),
    Jump(u32),
    JumpTrue(u32),
    JumpFalse(u32),
    Look,
    Call(u32),
    Back,
    BackWith,
    /// The end of a function that did not return.
    NoBack,
    Raise,
    /// Raises the error of the current ERROR part in the caller.
    Again,
    Retry,
    Next,
    Exit,
    /// Jumps if a FOR, whose variable is this datum of the frame, has passed its last value.
    Turn(u32, u32),
    /// Adds its step to the variable of a FOR, and jumps to its Turn.
    Step(u32, u32),
    /// Pops a bool. If it is FALSE, holds, rises and jumps.
    Wait(u32),
    TestSet,
    /// Pops the place of an array of this length, and pushes the set of the tasks that its elements name.
    TaskSet(u16),
    Arrive(u32),
    /// Pushes the arm's position.
    Here,
    /// Checks that no trap is running.
    Still,
    /// Pops a speed and a target, asks for the arm's position, and begins a move.
    Aim,
    /// Asks for the next setpoint of the move, and jumps if it was the last one.
    Point(u32),
    /// Connects an interrupt to a trap, by the routine's number.
    Connect(u32),
    /// Orders an interrupt, for one firing only if the bool is true.
    Order(OrderOn, bool),
    Irq(IrqOp),
    /// Stores a shape: of the inside or not, and from a middle and deltas or from two bounds.
    Shape(bool, bool),
    /// Supervises a shape as a temporary or a stationary zone.
    ZoneSet(bool),
    /// Pops a signal value, and ties a signal to a shape as a temporary or a stationary zone.
    ZoneTie(bool, u32),
    Zone(ZoneOp),
    Say(TailKind),
}
