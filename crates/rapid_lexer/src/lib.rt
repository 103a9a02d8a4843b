//! The tokens of a RAPID module as slices of its text, and the first position where no token fits.
#![tactic(auto)]

mod bytes;
mod fault;
mod fronts;
mod gaps;
mod kind;
mod laws;
mod lexer;
mod mark;
mod place;
mod scanner;
mod state;
mod strings;
mod token;
mod tokens;
mod word;
mod words;

pub use bytes::{is_hex, is_letter, is_name_byte};
pub use fault::{LexFault, LexRule, TokensFault};
pub use kind::Kind;
pub use laws::one_reading;
pub use lexer::Lexer;
pub use mark::Mark;
pub use place::{Place, place_of};
pub use token::Token;
pub use tokens::read_tokens;
pub use word::Word;
pub use words::is_reserved;
