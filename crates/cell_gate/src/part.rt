use rapid_model::Event;
use std::collections::LinkedList;

/// The prefix of the history that an actor has seen, and its own events in the whole history. Ghost data: no value of
/// it is ever made.
pub struct Part {
    pub actor: u64,
    pub seen: LinkedList<Event>,
    pub mine: LinkedList<Event>,
}
