//! RAPID nums as integer numbers of thousandths, the joints, bounds and shapes made of them, and which characters are
//! printable.
#![tactic(auto)]

mod arithmetic;
mod characters;
mod decimal;
mod digits;
mod joints;
mod literal;
mod num;
mod round;
mod scale;
mod shape;
mod write;

pub use characters::is_printable;
pub use digits::digit_value;
pub use joints::Joints;
pub use literal::{BadLiteral, read_literal};
pub use num::Num;
pub use round::round_ratio;
pub use shape::{Bound, Shape};
pub use write::{push_fixed, write_num};

/// Out of memory. Whatever was lent to the call is unchanged.
#[derive(Clone, Copy, Debug, PartialEq, Eq)]
pub struct Memory;
