//! The most bytes that each part of a line takes.

use rapid_limits::{LONGEST_FILE_NAME, LONGEST_NAME};
use value_text::COUNT_BYTES;

/// The number of an element in braces.
pub(crate) const ELEMENT_BYTES: usize = COUNT_BYTES + 2;

/// The words of a line before a value or a shape: two letters, a number, two names, an element and three spaces.
pub(crate) const FRONT_BYTES: usize = 2 + COUNT_BYTES + 2 * LONGEST_NAME + ELEMENT_BYTES + 3;

/// A place: a file, a line and a column.
pub(crate) const PLACE_BYTES: usize = LONGEST_FILE_NAME + 2 * COUNT_BYTES + 2;

/// The words of a line before a request: two letters, a name, a place and two spaces.
pub(crate) const HEAD_BYTES: usize = 2 + LONGEST_NAME + PLACE_BYTES + 2;

/// A line, in bytes: the longest are those of events, with a request and an answer.
pub const LINE_BYTES: usize = HEAD_BYTES + 2 * history_text::LINE_BYTES + 4;
