ghost use Rattle.std.specs.Prelude.{◌≡◌, ◌<◌, Bool, false, not, List, length, map, IfOk, slice_index_or, slice_set, if◌then◌else◌};

use rapid_model::{Cell, SignalValues};
use rapid_num::Memory;
use std::alloc::Global;
use std::marker::Model;

/// The values of a cell's signals. Contracts see them as a list, by signal number (RAPID Instructions, Functions and
/// Data types: signaldi, signaldo).
#[derive(Debug, Drop)]
pub struct Signals {
    values: Vec<bool>,
}

impl Model for Signals {
    ghost use Rattle.std.specs.Prelude.{List, Bool};

    ghost Value = { List Bool };

    ghost view = { λ s. s.values.items };
}

impl Signals {
    /// Each signal at its initial value.
    pub fn new(alloc: Global, cell: &Cell) -> Result<Signals, Memory>
        ensures { IfOk result (λ s. s ≡ map (λ row. row.start) cell.now.signals) }
    {
        let rows = cell.signals().as_slice();
        match rows.iter().map(|row| row.start).collect(alloc) {
            Ok(values) => Ok(Signals { values }),
            Err(_) => Err(Memory),
        }
    }

    /// Whether the signal, which exists, is 1.
    pub fn get(&self, signal: u32) -> bool
        requires there { signal < length self.now }
        ensures { result ≡ slice_index_or self.now signal false }
    {
        self.values[signal as usize]
    }

    /// Sets a signal, which exists, and returns whether that changed it. All others stay the same.
    pub fn set(&mut self, signal: u32, value: bool) -> bool
        requires there { signal < length self.old }
        ensures changed { result ≡ (if slice_index_or self.old signal false then not value else value) }
        ensures set { self.new ≡ slice_set self.old signal value }
    {
        let slot = &mut self.values[signal as usize];
        let changed = *slot != value;
        *slot = value;
        changed
    }
}

impl SignalValues for Signals {
    ghost values = { λ s. s };

    fn value(&self, signal: u32) -> bool {
        self.get(signal)
    }
}
