//! The requests that operations ask, and what follows the answers.

pub(crate) mod answers;
pub(crate) mod committing;
pub(crate) mod departure;
pub(crate) mod looking;
pub(crate) mod motion;
pub(crate) mod moving;
pub(crate) mod pending;
pub(crate) mod replying;
pub(crate) mod requests;
