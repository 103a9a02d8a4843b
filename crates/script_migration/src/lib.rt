//! The same script in version 2: the table of a script with its version set to 2, printed as TOML.
#![tactic(auto)]

mod laws;
mod levels;
mod migrating;

pub use laws::migrated_scripts_say_the_same;
pub use migrating::migrate_script;
