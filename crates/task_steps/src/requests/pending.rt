use crate::operands::gathering::Gathering;
use crate::requests::departure::Departure;
use typed_trees::Lvalue;

/// What an operation that has asked does with the answer. Its operands are popped already. Places of operations count
/// from 0.
#[derive(Drop)]
pub enum Pending {
    /// A Look: it goes on, or a trap begins.
    Looked,
    /// Pushes the value that was read.
    Read,
    /// Adds the task that an element of a list names to a set, and goes on with the elements after it.
    Gathered(Gathering),
    /// Goes on.
    Confirmed,
    /// Pushes whether a bool was FALSE.
    Tested,
    /// Pushes a signal's value.
    Sensed,
    /// A signal was written, or is tied to a zone.
    Written,
    /// Pushes whether the tasks of a meeting have come.
    Arrived,
    /// Pushes the arm's position.
    Located,
    /// Begins a move from the arm's position.
    Departed(Departure),
    /// A setpoint of a move was asked; the place after the move.
    Pointed(u32),
    /// Stores the number of an interrupt.
    Connected(Lvalue),
    /// An order was given.
    Ordered,
    /// An interrupt sleeps, wakes or is deleted.
    Known,
    /// Stores the number of a zone that was given.
    Supervised(Lvalue),
    /// A zone was switched on or off.
    Zoned,
    /// A zone was freed: stores 0.
    Freed(Lvalue),
    /// A wait was held: it asks to resume, and goes on at this place.
    Held(u32),
    /// A wait has resumed, and goes on at this place.
    Risen(u32),
    /// A trap has ended: what it interrupted goes on.
    Left,
}
