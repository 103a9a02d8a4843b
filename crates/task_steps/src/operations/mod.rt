//! What each operation does.

pub(crate) mod applying;
pub(crate) mod choosing;
pub(crate) mod combining;
pub(crate) mod keeping;
pub(crate) mod looping;
pub(crate) mod making;
pub(crate) mod operating;
pub(crate) mod operations;
pub(crate) mod performing;
pub(crate) mod shaping;
pub(crate) mod syncing;
pub(crate) mod testing;
