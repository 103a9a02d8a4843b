//! A cell of two tasks with arms, two signals and three zones.

ghost use Rattle.std.specs.Prelude.{◌≡◌, ◌<◌, ◌≤◌, ◌*◌, [], ◌∷◌, All, length, IfOk, IsTrue, pos};
ghost use Rattle.rapid_num.specs.Reach.{is_position};
ghost use Rattle.rapid_model.specs.CellData.{starts_well};
ghost use Rattle.rapid_model.specs.Limits.{is_zone_shape};
ghost use Rattle.rapid_model.specs.Names.{is_short_name};

use crate::cell::{name, signal};
use rapid_model::{Cell, Sequence, TaskRow, ZoneRow};
use rapid_num::{Bound, Joints, Num, Shape};
use std::alloc::Global;
use std::test::Fail;

/// Signals 0 and 1 start at 0 and 1. Zones 0 and 1 watch the arm of task 0: axis 1 from 30 to 40 degrees while signal 0
/// is 1, and from 35 to 50 while signal 1 is 1. Zone 2 watches the arm of task 1: from 30 to 40 while signal 0 is 0.
pub(crate) fn zone_cell(alloc: Global) -> Result<Cell, Fail>
    ensures tasks { IfOk result (λ cell. length cell.tasks ≡ 2) }
    ensures signals { IfOk result (λ cell. length cell.signals ≡ 2) }
    ensures zones { IfOk result (λ cell. All (λ row. row.signal < 2) cell.zones) }
{
    let tasks = vec![in alloc; task(b'A'), task(b'B')]?;
    let signals = vec![in alloc; signal(b'a', false), signal(b'b', true)]?;
    let zones = vec![in alloc;
        zone(0, slab(30, 40), 0, true),
        zone(0, slab(35, 50), 1, true),
        zone(1, slab(30, 40), 0, false),
    ]?;
    Ok(Cell {
        steps: 1,
        tasks: Sequence::from_vec(tasks),
        signals: Sequence::from_vec(signals),
        pers: Sequence::from_vec(Vec::new(alloc)),
        meetings: Sequence::from_vec(Vec::new(alloc)),
        zones: Sequence::from_vec(zones),
        inputs: Sequence::from_vec(Vec::new(alloc)),
    })
}

/// A task whose arm starts at 0.
fn task(letter: u8) -> TaskRow
    requires low { 65 ≤ letter }
    requires high { letter ≤ 90 }
    ensures name { result.name ≡ letter ∷ [] }
    ensures axes { result.axes ≡ 6 }
    ensures start { IsTrue (starts_well result) }
{
    TaskRow {
        name: name(letter),
        arm: Some(at(0)),
        axes: 6,
    }
}

fn zone(task: u32, shape: Shape, signal: u32, value: bool) -> ZoneRow
    ensures name { IsTrue (is_short_name result.name) }
    ensures task { result.task ≡ task }
    ensures shape { result.shape ≡ shape }
    ensures signal { result.signal ≡ signal }
{
    ZoneRow {
        name: name(b'z'),
        task,
        shape,
        signal,
        value,
    }
}

/// Axis 1 at that many degrees, the others at 0, no external axes.
pub(crate) fn at(angle: u32) -> Joints
    ensures { angle ≤ 720 → IsTrue (is_position 6 result) }
{
    let zero = degrees(0);
    let absent = Num::new(9_000_000_000_000).unwrap();
    Joints {
        axis: [
            degrees(angle),
            zero,
            zero,
            zero,
            zero,
            zero,
            absent,
            absent,
            absent,
            absent,
            absent,
            absent,
        ],
    }
}

/// Inside these bounds of axis 1, in degrees.
pub(crate) fn slab(low: u32, high: u32) -> Shape
    ensures { low < high → high ≤ 720 → IsTrue (is_zone_shape 6 result) }
{
    let mut bounds = [None; 12];
    bounds[0] = Some(Bound {
        low: degrees(low),
        high: degrees(high),
    });
    Shape {
        inside: true,
        bounds,
    }
}

fn degrees(angle: u32) -> Num
    ensures { result ≡ pos (angle * 1_000) }
{
    Num::new(i64::from(angle) * 1_000).unwrap()
}
