//! The most bytes that each part of an operation's text takes.

use value_text::{COUNT_BYTES, VALUE_BYTES, WORD_BYTES};

/// The name of an operation.
pub(crate) const NAME_BYTES: usize = 9;

/// A space and a word.
pub(crate) const ONE_WORD_BYTES: usize = 1 + WORD_BYTES;

/// A space and a number.
pub(crate) const NUMBER_BYTES: usize = 1 + COUNT_BYTES;

/// A space, and a signal or a persistent.
pub(crate) const WATCHED_BYTES: usize = 2 + COUNT_BYTES;

/// The operands of an operation: the longest is a value.
pub(crate) const ARGS_BYTES: usize = 1 + VALUE_BYTES;

/// The text of an operation.
pub const OPERATION_BYTES: usize = 400;
