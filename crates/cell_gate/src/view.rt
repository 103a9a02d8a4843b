use crate::part::Part;
use rapid_model::{Cell, Event};
use std::collections::LinkedList;

/// What a seat at the gate's table knows. Ghost data: no value of it is ever made.
pub struct View {
    pub cell: Cell,
    pub actor: u64,
    /// The prefix of the history that it has seen.
    pub seen: LinkedList<Event>,
    /// Its actor's events in the whole history.
    pub mine: LinkedList<Event>,
    /// How often it took the turn. Only that raises this number, and it shows the whole history.
    pub looks: u64,
    /// Whether it has the turn.
    pub holds: bool,
    /// In the first view, whether the gate is not open yet.
    pub fresh: bool,
    /// Whether it was merged into another view.
    pub spent: bool,
    /// In the first view, the number of views; otherwise 0.
    pub made: u64,
    /// The parts of the views merged into it.
    pub joined: LinkedList<Part>,
}
