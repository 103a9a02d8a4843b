//! Requests to the zones of a task's arm (RAPID Instructions: WZLimSup, WZDOSet, WZDisable, WZEnable, WZFree).

ghost use Rattle.std.specs.Prelude.{◌≡◌, ◌<◌, length};
ghost use Rattle.rapid_model.specs.declared.request.Request.TheVariants as requests;
ghost use Rattle.world_zones.specs.Outputs.{tie_answer};
ghost use Rattle.world_zones.specs.Zones.{arm_at, is_temporary, set_answer, zone_at};
ghost use Rattle.cell_meaning.specs.Answers.{temporary_of, tie_number_of, zone_number_of};
ghost use Rattle.cell_meaning.specs.Zones.{zones_with};

use rapid_model::Answer;
use rapid_num::Shape;
use world_zones::{NoZone, TieFault, ZoneFault, Zones};

/// Gives the task's arm a zone.
pub(crate) fn set(zones: &mut Zones, actor: u32, old: u8, temporary: bool, shape: &Shape) -> Answer
    requires { actor < length zones.old.arms }
    ensures answer { result ≡ zone_number_of (set_answer (arm_at zones.old actor) old) }
    ensures zones { zones.new ≡ zones_with zones.old actor (requests.ZoneSet old temporary shape.now) result }
{
    match zones.set(actor, old, temporary, shape) {
        Ok(number) => Answer::Number(number),
        Err(ZoneFault::ZoneUsed) => Answer::ZoneUsed,
        Err(ZoneFault::ZoneFull) => Answer::ZoneFull,
    }
}

/// Gives the task's arm a zone that sets a signal.
pub(crate) fn tie(
    zones: &mut Zones,
    actor: u32,
    old: u8,
    temporary: bool,
    shape: &Shape,
    signal: u32,
    value: bool,
) -> Answer
    requires { actor < length zones.old.arms }
    ensures answer { result ≡ tie_number_of (tie_answer zones.old actor old signal) }
    ensures zones { zones.new ≡ zones_with zones.old actor (requests.ZoneTie old temporary shape.now signal value) result }
{
    match zones.tie(actor, old, temporary, shape, signal, value) {
        Ok(number) => Answer::Number(number),
        Err(TieFault::ZoneUsed) => Answer::ZoneUsed,
        Err(TieFault::ZoneFull) => Answer::ZoneFull,
        Err(TieFault::Tied) => Answer::Tied,
    }
}

/// Switches a temporary zone on.
pub(crate) fn switch_on(zones: &mut Zones, actor: u32, zone: u8) -> Answer
    requires { actor < length zones.old.arms }
    ensures answer { result ≡ temporary_of (is_temporary (zone_at (arm_at zones.old actor) zone)) }
    ensures zones { zones.new ≡ zones_with zones.old actor (requests.ZoneOn zone) result }
{
    match zones.enable(actor, zone) {
        Ok(()) => Answer::Ok,
        Err(NoZone) => Answer::NoZone,
    }
}

/// Switches a temporary zone off.
pub(crate) fn switch_off(zones: &mut Zones, actor: u32, zone: u8) -> Answer
    requires { actor < length zones.old.arms }
    ensures answer { result ≡ temporary_of (is_temporary (zone_at (arm_at zones.old actor) zone)) }
    ensures zones { zones.new ≡ zones_with zones.old actor (requests.ZoneOff zone) result }
{
    match zones.disable(actor, zone) {
        Ok(()) => Answer::Ok,
        Err(NoZone) => Answer::NoZone,
    }
}

/// Takes a temporary zone from the arm.
pub(crate) fn give_up(zones: &mut Zones, actor: u32, zone: u8) -> Answer
    requires { actor < length zones.old.arms }
    ensures answer { result ≡ temporary_of (is_temporary (zone_at (arm_at zones.old actor) zone)) }
    ensures zones { zones.new ≡ zones_with zones.old actor (requests.ZoneFree zone) result }
{
    match zones.free(actor, zone) {
        Ok(()) => Answer::Ok,
        Err(NoZone) => Answer::NoZone,
    }
}
