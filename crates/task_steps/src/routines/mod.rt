//! Routines that are called, left, and recover from errors.

pub(crate) mod calling;
pub(crate) mod failed;
pub(crate) mod left;
pub(crate) mod living;
pub(crate) mod loaded;
pub(crate) mod owners;
pub(crate) mod raising;
pub(crate) mod returning;
pub(crate) mod row;
pub(crate) mod running;
