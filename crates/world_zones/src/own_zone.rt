ghost use Rattle.std.specs.Prelude.{◌≡◌, ◌<◌, is_none, length, option_copied, option_map, IfSome};
ghost use Rattle.std.specs.List.{position_from};
ghost use Rattle.joint_clip.specs.Lying.{lies_in};
ghost use Rattle.rapid_model.specs.Truths.{same_truth};
ghost use Rattle.world_zones.specs.Outputs.{output_at, sets, ties};
ghost use Rattle.world_zones.specs.Zones.{own_shape, zone_at};

use crate::output::Output;
use joint_clip::lies_in;
use rapid_limits::MOST_ZONES;
use rapid_num::{Joints, Shape};

/// A zone that a task gave its arm: temporary or stationary, on or off. A zone without an output stops the arm (RAPID
/// Instructions: WZLimSup, WZDisable, WZEnable, WZDOSet).
#[derive(Clone, Copy, Debug, PartialEq, Eq)]
pub struct OwnZone {
    pub temporary: bool,
    pub on: bool,
    pub shape: Shape,
    pub output: Option<Output>,
}

/// The zone with this number, 1 to 10; no other number has one.
pub(crate) fn zone_at(zones: &[Option<OwnZone>; MOST_ZONES], number: u8) -> Option<OwnZone>
    ensures { result ≡ zone_at zones.now number }
{
    if number == 0 || number as usize > MOST_ZONES {
        return None;
    }
    zones[number as usize - 1]
}

/// The index of the first free number.
pub(crate) fn free_index(zones: &[Option<OwnZone>]) -> Option<usize>
    ensures there { IfSome result (λ index. index < length zones.now) }
    ensures first { result ≡ position_from is_none 0 zones.now }
{
    zones.iter().position(|zone| zone.is_none())
}

/// The shape of the zone, if there is one, it is on, and it stops the arm.
pub(crate) fn own_shape(zone: &Option<OwnZone>) -> Option<&Shape>
    ensures { option_copied result ≡ own_shape zone.now }
{
    match zone {
        Some(zone) if zone.on && zone.output.is_none() => Some(&zone.shape),
        _ => None,
    }
}

/// Whether the zone, if there is one, names the signal as its output. It may be on or off.
pub(crate) fn ties(zone: &Option<OwnZone>, signal: u32) -> bool
    ensures { result ≡ ties signal zone.now }
{
    match zone {
        Some(zone) => sets(zone.output, signal),
        _ => false,
    }
}

fn sets(output: Option<Output>, signal: u32) -> bool
    ensures { result ≡ sets signal output }
{
    match output {
        Some(output) => output.signal == signal,
        None => false,
    }
}

/// What the zone with this number sets while the arm is at a position.
pub(crate) fn output_of(
    zones: &[Option<OwnZone>; MOST_ZONES],
    number: u8,
    at: &Joints,
) -> Option<(u32, bool)>
    ensures { result ≡ output_at at.now (zone_at zones.now number) }
{
    if number == 0 || number as usize > MOST_ZONES {
        return None;
    }
    output_at(&zones[number as usize - 1], at)
}

/// The signal that the zone sets while the arm is at a position, and the value that it gets, if there is a zone, it is
/// on, and it has an output.
fn output_at(zone: &Option<OwnZone>, at: &Joints) -> Option<(u32, bool)>
    ensures { result ≡ output_at at.now zone.now }
{
    match zone {
        Some(zone) if zone.on => set_by(zone.output, &zone.shape, at),
        _ => None,
    }
}

/// The signal that a zone with this output, if it has one, sets while the arm is at a position, and the value that it
/// gets.
fn set_by(output: Option<Output>, shape: &Shape, at: &Joints) -> Option<(u32, bool)>
    ensures { result ≡ option_map (λ o. (o.signal, same_truth (lies_in shape.now at.now) o.value)) output }
{
    match output {
        Some(output) => Some((output.signal, lies_in(at, shape) == output.value)),
        None => None,
    }
}
