ghost use Rattle.std.specs.Prelude.{◌≡◌};

use crate::input_row::InputRow;
use crate::pers_value::PersValue;
use crate::script_task::ScriptTask;
use crate::sequence::Sequence;
use crate::signal_row::SignalRow;
use crate::zone_row::ZoneRow;
use std::marker::Model;

/// A cell script, with its references resolved to numbers from 0. Contracts see it as plain data within its limits.
#[derive(Debug, Drop)]
pub struct Script {
    pub version: u32,
    pub steps: u32,
    pub signals: Sequence<SignalRow>,
    pub tasks: Sequence<ScriptTask>,
    pub pers: Sequence<PersValue>,
    pub zones: Sequence<ZoneRow>,
    pub inputs: Sequence<InputRow>,
}

impl Model for Script {
    ghost use Rattle.rapid_model.specs.ScriptData.{ScriptData, IsScript};

    ghost Value = { ScriptData };

    ghost view = { λ s. record { version = s.version; steps = s.steps; signals = s.signals; tasks = s.tasks; pers = s.pers; zones = s.zones; inputs = s.inputs } };

    ghost invariant = { λ s. IsScript (record { version = s.version; steps = s.steps; signals = s.signals; tasks = s.tasks; pers = s.pers; zones = s.zones; inputs = s.inputs }) };
}

impl Script {
    ghost use Rattle.rapid_model.specs.ScriptData.{IsScript};

    /// The version of the script's keys: 1 to 3.
    pub fn version(&self) -> u32
        ensures { result ≡ self.now.version }
    {
        self.version
    }

    /// The maximum number of counted events.
    pub fn steps(&self) -> u32
        ensures same { result ≡ self.now.steps }
        ensures limits { IsScript self.now }
    {
        self.steps
    }

    /// The signals, in script order.
    pub fn signals(&self) -> &Sequence<SignalRow>
        ensures { result.now ≡ self.now.signals }
    {
        &self.signals
    }

    /// The tasks, in script order.
    pub fn tasks(&self) -> &Sequence<ScriptTask>
        ensures { result.now ≡ self.now.tasks }
    {
        &self.tasks
    }

    /// The first values of persistents.
    pub fn pers(&self) -> &Sequence<PersValue>
        ensures { result.now ≡ self.now.pers }
    {
        &self.pers
    }

    /// The zones of the cell, in script order.
    pub fn zones(&self) -> &Sequence<ZoneRow>
        ensures { result.now ≡ self.now.zones }
    {
        &self.zones
    }

    /// The input script.
    pub fn inputs(&self) -> &Sequence<InputRow>
        ensures { result.now ≡ self.now.inputs }
    {
        &self.inputs
    }
}
