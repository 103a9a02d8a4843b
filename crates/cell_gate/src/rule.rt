//! The rule of the gate's table, and what each step on it ensures for its caller. The table has two words, the turn (0,
//! or one more than the actor that has it) and the length of the history, and one slot, for the core.
use crate::boxed_core::BoxedCore;
use crate::view::View;
use atomic_table::{Join, Play, Seat, Shared, Split, TableRule};
use rapid_model::Cell;

/// The table, as threads share it.
pub(crate) type Top = Shared<Option<BoxedCore>, View, Cell, Turns>;

/// A place at the table.
pub(crate) type Place = Seat<Option<BoxedCore>, View>;

/// What holds between any two steps.
pub struct Turns;

impl TableRule<Option<BoxedCore>, View, Cell> for Turns {
    ghost use Rattle.cell_gate.specs.Rule.{Kept};
    ghost use Rattle.cell_gate.specs.Views.{first_view};

    ghost holds = { Kept };

    ghost first = { first_view };
}

/// Takes the turn and the core, unless the turn is taken.
pub(crate) struct Take;

impl Play<Option<BoxedCore>, View> for Take {
    ghost use Rattle.cell_gate.specs.Steps.{Takes};

    ghost then = { λ step. Takes };
}

/// Counts the event that the core gained.
pub(crate) struct Count;

impl Play<Option<BoxedCore>, View> for Count {
    ghost use Rattle.cell_gate.specs.Steps.{Counts};

    ghost then = { λ step. Counts };
}

/// Gives the turn and the core back.
pub(crate) struct Give;

impl Play<Option<BoxedCore>, View> for Give {
    ghost use Rattle.cell_gate.specs.Steps.{Gives};

    ghost then = { λ step. Gives };
}

/// Reads the count.
pub(crate) struct Rest;

impl Play<Option<BoxedCore>, View> for Rest {
    ghost use Rattle.cell_gate.specs.Steps.{Stays};

    ghost then = { λ step. Stays };
}

/// Takes the empty slot, before the core is there.
pub(crate) struct Open;

impl Play<Option<BoxedCore>, View> for Open {
    ghost use Rattle.cell_gate.specs.Steps.{Opens};

    ghost then = { λ step. Opens };
}

/// Makes the view of the next actor.
pub(crate) struct Deal;

impl Split<View> for Deal {
    ghost use Rattle.cell_gate.specs.Views.{after_deal, dealt};

    ghost left = { after_deal };

    ghost right = { dealt };
}

/// Merges in the view of another pass.
pub(crate) struct Gather;

impl Join<View> for Gather {
    ghost use Rattle.cell_gate.specs.Views.{after_gather, spent_view};

    ghost both = { after_gather };

    ghost spent = { spent_view };
}
