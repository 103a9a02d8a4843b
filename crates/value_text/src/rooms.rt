//! The maximum sizes of the parts of a line, in bytes.

use rapid_limits::{LONGEST_STRING, ROBOT_AXES};

/// The digits of a whole number.
pub const COUNT_BYTES: usize = 20;

/// A num: a sign, thirteen digits and a point.
pub const NUM_BYTES: usize = 15;

/// The name of a type or of a part.
pub const WORD_BYTES: usize = 12;

/// The nums of a robjoint, an extjoint or a speeddata, each with the bracket or comma before it, and the closing
/// bracket.
pub(crate) const NUMS_BYTES: usize = 2 + ROBOT_AXES * (NUM_BYTES + 1);

/// A string in quotes, in which each character may be doubled.
pub(crate) const QUOTED_BYTES: usize = 2 + 2 * LONGEST_STRING;

/// A value: the longest is a jointtarget.
pub const VALUE_BYTES: usize = 3 + 2 * NUMS_BYTES;
