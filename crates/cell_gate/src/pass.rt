use crate::caller::Caller;
use std::marker::Model;

/// The right of one actor of a cell to ask the core at its gate. Contracts see its gate, its actor, the prefix of the
/// history that it has seen, its actor's events, and how often it took the turn. Threads may hand it on.
#[derive(Drop)]
pub struct Pass {
    pub(crate) caller: Caller,
}

impl Model for Pass {
    ghost use Rattle.cell_gate.specs.PassData.{PassData};

    ghost Value = { PassData };

    ghost use Rattle.cell_gate.specs.Hands.{IsBetweenCalls, pass_of};

    ghost view = { λ p. pass_of p.caller };

    ghost invariant = { λ p. IsBetweenCalls p.caller };
}
