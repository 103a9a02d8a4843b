ghost use Rattle.std.specs.Prelude.{◌<◌};

use crate::zone_cell::{at, slab, zone_cell};
use crate::zone_step::ZoneStep;
use rapid_model::ZoneName;
use signal_board::Signals;
use std::alloc::Global;
use std::marker::Model;
use std::test::Fail;
use world_zones::{TieFault, ZoneFault, Zones};

/// The zones and the signals of the cell.
#[derive(Drop)]
pub(crate) struct TwoArms {
    zones: Zones,
    signals: Signals,
}

impl Model for TwoArms {
    ghost use Rattle.world_zones.specs.Zones.{ZonesData};
    ghost use Rattle.board_tests.specs.Boards.{IsTwoArms};

    ghost Value = { ZonesData };

    ghost view = { λ t. t.zones };

    ghost invariant = { λ t. IsTwoArms t.zones t.signals };
}

impl TwoArms {
    pub(crate) fn new(alloc: Global) -> Result<TwoArms, Fail> {
        let cell = zone_cell(alloc)?;
        let zones = Zones::new(alloc, &cell).ok().ok_or("memory")?;
        let signals = Signals::new(alloc, &cell).ok().ok_or("memory")?;
        Ok(TwoArms { zones, signals })
    }

    /// Takes a step, and returns whether the result is as expected.
    pub(crate) fn does(&mut self, step: ZoneStep) -> bool {
        match step {
            ZoneStep::Set(old, temporary, bounds, wanted) => {
                self.set(old, temporary, bounds) == wanted
            }
            ZoneStep::Tie(task, old, bounds, signal, wanted) => {
                task < 2 && self.tie(task, old, bounds, signal) == wanted
            }
            ZoneStep::Tied(signal, wanted) => self.zones.tied(signal) == wanted,
            ZoneStep::Output(zone, angle, wanted) => {
                self.zones.output(0, zone, &at(angle)) == wanted
            }
            ZoneStep::Disable(zone, wanted) => self.zones.disable(0, zone) == wanted,
            ZoneStep::Enable(zone, wanted) => self.zones.enable(0, zone) == wanted,
            ZoneStep::Free(zone, wanted) => self.zones.free(0, zone) == wanted,
            ZoneStep::Signal(value) => self.signals.set(0, value),
            ZoneStep::Go(task, way, wanted) => task < 2 && self.stop(task, way) == wanted,
        }
    }

    /// Gives the arm of task 0 a zone.
    pub(crate) fn set(
        &mut self,
        old: u8,
        temporary: bool,
        bounds: (u32, u32),
    ) -> Result<u8, ZoneFault> {
        self.zones.set(0, old, temporary, &slab(bounds.0, bounds.1))
    }

    /// Gives the arm of a task a zone that sets a signal to 1.
    fn tie(&mut self, task: u32, old: u8, bounds: (u32, u32), signal: u32) -> Result<u8, TieFault>
        requires { task < 2 }
    {
        let shape = slab(bounds.0, bounds.1);
        self.zones.tie(task, old, true, &shape, signal, true)
    }

    /// The zone that stops the arm of a task.
    fn stop(&self, task: u32, way: (u32, u32)) -> Option<ZoneName>
        requires { task < 2 }
    {
        self.zones
            .blocks(task, &at(way.0), &at(way.1), &self.signals)
    }
}
