ghost use Rattle.std.specs.Prelude.{◌≡◌, ◌<◌, length, option_copied};
ghost use Rattle.world_zones.specs.Zones.{cell_shape};

use rapid_model::SignalValues;
use rapid_num::Shape;

/// A zone of the cell: it watches the arm of the task with this number while the signal with this number has the value.
#[derive(Clone, Copy, Debug, PartialEq, Eq)]
pub struct CellZone {
    pub task: u32,
    pub shape: Shape,
    pub signal: u32,
    pub value: bool,
}

/// The shape of the zone, if it watches the task's arm now.
pub(crate) fn cell_shape<'a, V: SignalValues>(
    zone: &'a CellZone,
    task: u32,
    signals: &V,
) -> Option<&'a Shape>
    requires there { zone.now.signal < length (V.values signals.now) }
    ensures { option_copied result ≡ cell_shape task (V.values signals.now) zone.now }
{
    if zone.task == task && signals.value(zone.signal) == zone.value {
        return Some(&zone.shape);
    }
    None
}
