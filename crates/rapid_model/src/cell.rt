ghost use Rattle.std.specs.Prelude.{◌≡◌};

use crate::input_row::InputRow;
use crate::pers_cell::PersCell;
use crate::printable::NameText;
use crate::sequence::Sequence;
use crate::signal_row::SignalRow;
use crate::task_row::TaskRow;
use crate::zone_row::ZoneRow;
use std::marker::Model;

/// The cell that the tasks share: the maximum number of counted events in a run, the tasks, the signals, the
/// persistents with their first values, the meetings, the zones and the input script. Contracts see it as plain data
/// within its limits.
#[derive(Debug, Drop)]
pub struct Cell {
    pub steps: u32,
    pub tasks: Sequence<TaskRow>,
    pub signals: Sequence<SignalRow>,
    pub pers: Sequence<PersCell>,
    pub meetings: Sequence<NameText>,
    pub zones: Sequence<ZoneRow>,
    pub inputs: Sequence<InputRow>,
}

impl Model for Cell {
    ghost use Rattle.rapid_model.specs.CellData.{CellData, IsCell};

    ghost Value = { CellData };

    ghost view = { λ c. record { steps = c.steps; tasks = c.tasks; signals = c.signals; pers = c.pers; meetings = c.meetings; zones = c.zones; inputs = c.inputs } };

    ghost invariant = { λ c. IsCell (record { steps = c.steps; tasks = c.tasks; signals = c.signals; pers = c.pers; meetings = c.meetings; zones = c.zones; inputs = c.inputs }) };
}

impl Cell {
    ghost use Rattle.rapid_model.specs.CellData.{IsCell};

    /// The maximum number of counted events.
    pub fn steps(&self) -> u32
        ensures same { result ≡ self.now.steps }
        ensures limits { IsCell self.now }
    {
        self.steps
    }

    /// The tasks, in script order.
    pub fn tasks(&self) -> &Sequence<TaskRow>
        ensures { result.now ≡ self.now.tasks }
    {
        &self.tasks
    }

    /// The signals, in script order.
    pub fn signals(&self) -> &Sequence<SignalRow>
        ensures { result.now ≡ self.now.signals }
    {
        &self.signals
    }

    /// The persistents, by task, module and position in the text.
    pub fn pers(&self) -> &Sequence<PersCell>
        ensures { result.now ≡ self.now.pers }
    {
        &self.pers
    }

    /// The names of the meetings, by task, module and position in the text.
    pub fn meetings(&self) -> &Sequence<NameText>
        ensures { result.now ≡ self.now.meetings }
    {
        &self.meetings
    }

    /// The zones of the cell, in script order.
    pub fn zones(&self) -> &Sequence<ZoneRow>
        ensures { result.now ≡ self.now.zones }
    {
        &self.zones
    }

    /// The input script.
    pub fn inputs(&self) -> &Sequence<InputRow>
        ensures { result.now ≡ self.now.inputs }
    {
        &self.inputs
    }
}
