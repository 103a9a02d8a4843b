//! The building blocks of RAPID's grammar, the answer of a parser of such a form, and the steps of its code.
#![tactic(auto)]

mod fault;
mod parser;
mod sign;
mod signs;
mod tokens;

pub use fault::{SyntaxFault, SyntaxRule};
pub use parser::Parser;
pub use sign::Sign;
pub use signs::sign_of;
pub use tokens::{Tokens, is_seen};
