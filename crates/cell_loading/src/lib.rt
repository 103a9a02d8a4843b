//! From the files of a script and its modules to a cell and the trees of its tasks, or why they are refused.
#![tactic(auto)]

mod check;
mod files;
mod made_texts;
mod module_texts;
mod modules;
mod refused;
mod texts;

pub use check::{CheckedCell, check_modules};
pub use files::module_files;
pub use made_texts::own_texts;
pub use module_texts::ModuleTexts;
pub use modules::{Modules, parse_texts};
pub use refused::{ModuleRule, Refused};
pub use texts::{Texts, load_script, load_texts, read_file, script_of};
