//! Steps of the input script.

ghost use Rattle.std.specs.Prelude.{◌≡◌, ◌<◌, length, Some};
ghost use Rattle.cell_meaning.specs.Stored.{with_input};
ghost use Rattle.cell_core.specs.Changes.{input_change};

use crate::change::Change;
use crate::values::set_signal;
use rapid_model::InputRow;
use signal_board::Signals;

/// Sets the signal of a step to the step's value.
pub(crate) fn feed(signals: &mut Signals, row: &InputRow) -> Change
    requires { row.now.signal < length signals.old }
    ensures change { result ≡ input_change signals.old (Some row.now) }
    ensures signals { signals.new ≡ with_input signals.old (Some row.now) }
{
    set_signal(signals, row.signal, row.value)
}
