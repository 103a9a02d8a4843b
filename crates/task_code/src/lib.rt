//! A task's code as a type. It is live: it always reaches its next request. Its marks give the statement that owns a
//! place, the places where that begins and where the code goes on after it, and the ERROR part of a routine.
//! Definitions say what point code has reached, and after how many operations it reaches its next request.
#![tactic(auto)]

mod code;
mod how;
mod laws;
mod recovery;

pub use code::Code;
pub use how::How;
pub use laws::compiled_code_is_tiled;
pub use recovery::{handler_of, owner_of, resume_of};
