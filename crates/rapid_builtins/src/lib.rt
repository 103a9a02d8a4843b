//! The predefined names of this RAPID profile: its instructions, functions, types and data; the arguments and options
//! that calls take; which calls need an arm; and what arguments for parameters must be.
#![tactic(auto)]

mod arms;
mod data;
mod function_calls;
mod functions;
mod instruction_calls;
mod instruction_option;
mod instructions;
mod laws;
mod need;
mod option_choice;
mod option_laws;
mod option_rows;
mod parameters;
mod table;
mod types_and_data;

pub use arms::{function_needs_arm, needs_arm};
pub use data::predefined_datum;
pub use function_calls::{function_needs, function_result};
pub use functions::{function, function_rows};
pub use instruction_calls::instruction_needs;
pub use instruction_option::InstructionOption;
pub use instructions::{instruction, instruction_rows};
pub use laws::names_differ;
pub use need::Need;
pub use option_choice::Choice;
pub use option_laws::options_differ;
pub use option_rows::{choice, first_named, option_of, options};
pub use parameters::parameter_need;
pub use types_and_data::{is_predefined, predefined, predefined_rows};
