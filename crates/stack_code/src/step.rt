use crate::irq_op::IrqOp;
use crate::zone_op::ZoneOp;
use rapid_model::Operator;

/// A step of an instruction's layout. It refers to the arguments without the options, numbered from 0. Each step is an
/// expression, a place, one operation or a move. A step whose argument has another form is left out, which no checked
/// tree has.
#[derive(Clone, Copy)]
pub enum Step {
    /// Evaluates a value argument.
    Value(usize),
    /// Pushes the place of an argument.
    Place(usize),
    /// Pushes a small number.
    Count(u16),
    Drop,
    Dup,
    Over,
    Load,
    Store,
    Bit,
    Still,
    /// Moves the arm: the setpoints of a move, with a Look between two of them.
    Travel,
    TestSet,
    Binary(Operator),
    Irq(IrqOp),
    Zone(ZoneOp),
    /// Pops a bool. If it is FALSE, goes back to the statement's Look.
    Wait,
    /// Reads a signal argument.
    GetSignal(usize),
    /// Writes a signal argument.
    PutSignal(usize),
    /// Orders an interrupt on a signal argument, for one firing only with the option `Single`.
    OrderSignal(usize),
    /// Orders an interrupt on a persistent argument, for one firing only with the option `Single`.
    OrderPers(usize),
    /// Pops the place of an array argument, and pushes the set of the tasks that its elements name.
    TaskSet(usize),
    /// Arrives at the meeting of an argument.
    Arrive(usize),
    /// Stores a shape, of its inside with the option `Inside`: from a middle and deltas if this is true, else from two
    /// bounds.
    Shape(bool),
    /// Supervises a shape, temporarily with the option `Temp`.
    ZoneSet,
    /// Ties a signal argument to a shape, temporarily with the option `Temp`.
    ZoneTie(usize),
    /// Evaluates the value of the only option, if there is one.
    Tail,
    /// Says a text, followed by the tail if there is one.
    Say,
}
