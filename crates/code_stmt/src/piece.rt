use stack_code::Op;
use typed_trees::{Arg, Expr, TreePlace};

/// A part of a statement without lists, after its Look.
#[derive(Drop)]
pub(crate) enum Piece<'a> {
    Expr(&'a Expr),
    Place(&'a TreePlace),
    Args(&'a Vec<Arg>),
    Does(Op),
    /// A wait that goes back to the statement's Look.
    Waits,
    /// A jump to a label, by its number.
    GoesTo(u32),
    /// Pops a bool, and pushes -1 if it is TRUE, else 1.
    Chooses,
    /// Pops a speed and a target, and moves the arm.
    Travels,
}
