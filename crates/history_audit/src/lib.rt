//! The audit of a history: whether a cell's tasks and its input script can make these events, whether anything can
//! follow them, and otherwise the first event that is wrong. The machines and the core do each event again.
#![tactic(auto)]

mod audit_fault;
mod auditing;
mod fates;
mod following;
mod laws;
mod parts;
mod requests;
mod serving;
mod whole;
mod wrong;

pub use audit_fault::AuditFault;
pub use auditing::{audit, first_wrong};
pub use laws::{audit_is_one, first_wrong_is_one, legal_histories_pass};
pub use wrong::Wrong;
