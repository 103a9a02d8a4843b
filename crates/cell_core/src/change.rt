ghost use Rattle.std.specs.Prelude.{◌≡◌};
ghost use Rattle.cell_core.specs.Changes.{arrival_change, is_some_change, outputs_change, value_change};

use crate::changed::Changed;
use rapid_model::Watched;

/// What one event changes that tasks wait for.
#[derive(Drop)]
pub(crate) enum Change {
    Nothing,
    /// A task arrived at a meeting where it was not waiting.
    Arrival,
    /// This signal or persistent has a new value.
    Value(Watched),
    /// Zones of an arm gave these signals, at least one, new values.
    Outputs(Changed),
}

impl Change {
    /// A new value, or nothing if the value is still the same.
    pub(crate) fn of_value(still: bool, on: Watched) -> Change
        ensures { result ≡ value_change still on }
    {
        if still {
            Change::Nothing
        } else {
            Change::Value(on)
        }
    }

    /// An arrival, or nothing if the task already waits at the meeting.
    pub(crate) fn of_arrival(waits: bool) -> Change
        ensures { result ≡ arrival_change waits }
    {
        if waits {
            Change::Nothing
        } else {
            Change::Arrival
        }
    }

    /// New values of these signals, or nothing if there are none.
    pub(crate) fn of_outputs(changed: Changed) -> Change
        ensures { result ≡ outputs_change changed }
    {
        if 0 < changed.as_slice().len() {
            Change::Outputs(changed)
        } else {
            Change::Nothing
        }
    }

    /// Whether it is a change at all.
    pub(crate) fn is_some(&self) -> bool
        ensures { result ≡ is_some_change self.now }
    {
        match self {
            Change::Nothing => false,
            Change::Arrival => true,
            Change::Value(_) => true,
            Change::Outputs(_) => true,
        }
    }
}
