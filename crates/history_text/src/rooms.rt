//! The most bytes that each part of a line takes.

use rapid_limits::MOST_AXES;
use value_text::{COUNT_BYTES, NUM_BYTES, VALUE_BYTES, WORD_BYTES};

/// The word before a number, with its space.
pub(crate) const FRONT_BYTES: usize = 9;

/// A number after its word.
pub(crate) const COUNTED_BYTES: usize = FRONT_BYTES + COUNT_BYTES;

/// Two numbers.
pub(crate) const TWO_BYTES: usize = 2 * COUNT_BYTES + 1;

/// A signal, or a persistent.
pub(crate) const PERS_BYTES: usize = 1 + COUNT_BYTES;

/// A signal and its value.
pub(crate) const SET_BYTES: usize = PERS_BYTES + 2;

/// An element in braces.
pub(crate) const ELEMENT_BYTES: usize = COUNT_BYTES + 2;

/// A part of a persistent.
pub(crate) const PATH_BYTES: usize = PERS_BYTES + ELEMENT_BYTES + WORD_BYTES;

/// A part of a persistent after its word.
pub(crate) const AT_BYTES: usize = FRONT_BYTES + PATH_BYTES;

/// A WriteP.
pub(crate) const WRITTEN_BYTES: usize = AT_BYTES + 1 + VALUE_BYTES;

/// The end of an order.
pub(crate) const SINGLE_BYTES: usize = 7;

/// An Order.
pub(crate) const ORDER_BYTES: usize = COUNTED_BYTES + 1 + SET_BYTES + SINGLE_BYTES;

/// The tail of a text, after a space.
pub(crate) const TAIL_BYTES: usize = 1 + NUM_BYTES;

/// A Say.
pub(crate) const SAID_BYTES: usize = 4 + VALUE_BYTES + TAIL_BYTES;

/// The axes of an arm, each after a space.
pub(crate) const AXES_BYTES: usize = MOST_AXES * (1 + NUM_BYTES);

/// A space and the bounds of an axis.
pub(crate) const BOUND_BYTES: usize = 2 * (1 + NUM_BYTES);

/// The bounds of all axes.
pub(crate) const BOUNDS_BYTES: usize = MOST_AXES * BOUND_BYTES;

/// The side of a shape.
pub(crate) const SIDE_BYTES: usize = 7;

/// A shape.
pub(crate) const SHAPE_BYTES: usize = SIDE_BYTES + BOUNDS_BYTES;

/// A zone: its old number, its kind and its shape.
pub(crate) const ZONE_BYTES: usize = COUNT_BYTES + 6 + SHAPE_BYTES;

/// The name of a fault.
pub(crate) const NAME_BYTES: usize = 16;

/// A fault, with its number.
pub(crate) const FAULT_BYTES: usize = NAME_BYTES + 1 + COUNT_BYTES;

/// A fate.
pub(crate) const FATE_BYTES: usize = 6 + FAULT_BYTES;

/// A request: the longest is a ZoneTie.
pub(crate) const REQUEST_BYTES: usize = 8 + ZONE_BYTES + 1 + SET_BYTES;

/// An answer: the longest is a value.
pub(crate) const ANSWER_BYTES: usize = VALUE_BYTES;

/// A line, in bytes.
pub const LINE_BYTES: usize = 1_200;
