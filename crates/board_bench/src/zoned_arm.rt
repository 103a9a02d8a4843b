ghost use Rattle.std.specs.Prelude.{◌≡◌, [], length, IfOk, IsTrue};
ghost use Rattle.rapid_num.specs.Reach.{is_position};

use crate::six_axes::position;
use rapid_model::{Cell, NameText, Sequence, TaskRow};
use rapid_num::{Joints, Memory, Num, Shape};
use signal_board::Signals;
use std::alloc::Global;
use std::marker::Model;
use world_zones::Zones;

/// An arm with its own zones.
#[derive(Drop)]
pub(crate) struct ZonedArm {
    zones: Zones,
    signals: Signals,
}

impl Model for ZonedArm {
    ghost use Rattle.std.specs.Prelude.{◌≡◌, [], length};
    ghost use Rattle.world_zones.specs.Zones.{ZonesData};

    ghost Value = { ZonesData };

    ghost view = { λ a. a.zones };

    ghost invariant = { λ a. (length a.zones.arms ≡ 1) × (a.zones.cell ≡ []) };
}

impl ZonedArm {
    /// With that many zones of one shape, at most ten.
    pub(crate) fn new(alloc: Global, count: u8, shape: &Shape) -> Result<ZonedArm, Memory> {
        let cell = one_arm(alloc)?;
        let zones = Zones::new(alloc, &cell)?;
        let signals = Signals::new(alloc, &cell)?;
        let mut arm = ZonedArm { zones, signals };
        for _zone in 0..count {
            arm.set(shape);
        }
        Ok(arm)
    }

    fn set(&mut self, shape: &Shape) {
        let _number = self.zones.set(0, 0, false, shape);
    }

    /// How many of that many setpoints, each a thousandth of a degree of axis 1 further, a zone stops.
    pub(crate) fn stops(&self, setpoints: u32) -> u32 {
        let mut count = 0_u32;
        let mut from = position([0; 6]);
        for setpoint in 0..setpoints {
            let to = position([(setpoint % 700_000) as i32, 0, 0, 0, 0, 0]);
            if self.zones.blocks(0, &from, &to, &self.signals).is_some() {
                count = count.saturating_add(1);
            }
            from = to;
        }
        count
    }
}

/// A cell of one task with an arm.
fn one_arm(alloc: Global) -> Result<Cell, Memory>
    ensures tasks { IfOk result (λ cell. length cell.tasks ≡ 1) }
    ensures zones { IfOk result (λ cell. cell.zones ≡ []) }
{
    let mut name = NameText::new();
    name.push(b'A');
    let arm = Some(home());
    let mut tasks = Vec::new(alloc);
    let axes = 6;
    tasks.push(TaskRow { name, arm, axes }).map_err(|_| Memory)?;
    Ok(Cell {
        steps: 1,
        tasks: Sequence::from_vec(tasks),
        signals: Sequence::from_vec(Vec::new(alloc)),
        pers: Sequence::from_vec(Vec::new(alloc)),
        meetings: Sequence::from_vec(Vec::new(alloc)),
        zones: Sequence::from_vec(Vec::new(alloc)),
        inputs: Sequence::from_vec(Vec::new(alloc)),
    })
}

/// Axes 1 to 6 at 0, no external axes.
fn home() -> Joints
    ensures { IsTrue (is_position 6 result) }
{
    let zero = Num::new(0).unwrap();
    let absent = Num::new(9_000_000_000_000).unwrap();
    Joints {
        axis: [
            zero, zero, zero, zero, zero, zero, absent, absent, absent, absent, absent, absent,
        ],
    }
}
