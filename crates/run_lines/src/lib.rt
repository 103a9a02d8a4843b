//! What is printed of a run, of the audit of a history and of a cell's tables: the lines, and their printing one after
//! the other.
#![tactic(auto)]

mod audit;
mod list;
mod run;
mod shown;
mod summary;

pub use audit::print_audit;
pub use list::print_list;
pub use run::{print_fates, print_run};
pub use shown::Shown;
