//! How near each arm came to each zone of the cell that may watch it, by its whole path. After a failed write the rest
//! is measured and not printed, so that it is known of what the printed lines are a part.

ghost use Rattle.std.specs.Prelude.{◌≡◌, ◌<◌, [], IsTrue, Some, IfSome, length, map, slice_get};
ghost use Rattle.rapid_model.specs.declared.event.Event.{Event};
ghost use Rattle.std.specs.Option.{option_and_then};
ghost use Rattle.rapid_model.specs.CellData.{IsCell};
ghost use Rattle.rapid_model.specs.Limits.{is_zone};
ghost use Rattle.cell_meaning.specs.Premises.{AllAnswered};
ghost use Rattle.zone_clearance.specs.Certificates.{AreFirstSides};
ghost use Rattle.zone_clearance.specs.Gaps.{IsGap};
ghost use Rattle.zone_clearance.specs.Premises.{AreInReach, IsSmall, NamesAnAxis};
ghost use Rattle.clearance_lines.specs.ArmPaths.{given_by, or_start};
ghost use Rattle.clearance_lines.specs.Clearances.{is_nearer};
ghost use Rattle.clearance_lines.specs.Measured.{WritesMeasured, WritesPath, WritesZone, WritesZones, nearer_of};
ghost use Rattle.sink_lines.specs.Printed.{sunk};

use crate::gap::{print_gap, print_nearest};
use crate::nearest::Nearest;
use cell_core::Core;
use outside::{Failed, Sink};
use rapid_model::ZoneRow;
use rapid_num::{Joints, Shape};
use run_lines::print_fates;
use zone_clearance::{Gap, gap_of};

/// Prints how near each arm came to its zones, in script order, and then the fate of each task. Takes no memory.
pub fn print_clearances<O: Sink>(out: &mut O, core: &Core) -> Result<(), Failed>
    requires limits { IsCell core.now.cell }
    requires answered { AllAnswered core.now.cell core.now.history }
    ensures { WritesMeasured core.now.cell core.now.history result (sunk O.told O.calls O.faults out.old out.new) }
{
    print_zones(out, core)?;
    print_fates(out, core)
}

/// Prints the lines of each zone.
fn print_zones<O: Sink>(out: &mut O, core: &Core) -> Result<(), Failed>
    requires limits { IsCell core.now.cell }
    requires answered { AllAnswered core.now.cell core.now.history }
    ensures { WritesZones core.now.cell core.now.history result (sunk O.told O.calls O.faults out.old out.new) }
{
    let mut printed = Ok(());
    for zone in core.cell().zones().as_slice() {
        printed = print_zone(out, core, zone, printed);
    }
    printed
}

/// Prints a line for each segment of the path of the zone's arm, and the line of the first one that came nearest.
fn print_zone<O: Sink>(
    out: &mut O,
    core: &Core,
    zone: &ZoneRow,
    before: Result<(), Failed>,
) -> Result<(), Failed>
    requires limits { IsCell core.now.cell }
    requires answered { AllAnswered core.now.cell core.now.history }
    requires zone { IsTrue (is_zone core.now.cell.signals (map (λ row. row.axes) core.now.cell.tasks) zone.now) }
    ensures { WritesZone core.now.cell core.now.history zone.now before result (sunk O.told O.calls O.faults out.old out.new) }
{
    let start = start_of(core, zone.task).unwrap();
    let mut at = start;
    let mut nearest = None;
    let mut printed = before;
    for k in 0..core.len() {
        if let Some(to) = given_to(core, zone.task, k) {
            let move_to = measured(Some(k), &at, &to, &zone.shape);
            printed = print_gap(out, &zone.name, &move_to, printed);
            nearest = Some(nearer(nearest, move_to));
            at = to;
        }
    }
    match nearest {
        Some(nearest) => print_nearest(out, &zone.name, &nearest, printed),
        None => print_stay(out, zone, &start, printed),
    }
}

/// Prints both lines for an arm that stays at its start.
fn print_stay<O: Sink>(
    out: &mut O,
    zone: &ZoneRow,
    start: &Joints,
    before: Result<(), Failed>,
) -> Result<(), Failed>
    requires named { NamesAnAxis zone.now.shape.bounds }
    requires in_reach { AreInReach start.now start.now zone.now.shape.bounds }
    ensures { WritesPath zone.now (or_start start.now []) before result (sunk O.told O.calls O.faults out.old out.new) }
{
    let stay = measured(None, start, start, &zone.shape);
    let printed = print_gap(out, &zone.name, &stay, before);
    print_nearest(out, &zone.name, &stay, printed)
}

/// How near the whole way from `p` to `q` comes to a zone.
fn measured(event: Option<u32>, p: &Joints, q: &Joints, shape: &Shape) -> Nearest
    requires named { NamesAnAxis shape.now.bounds }
    requires in_reach { AreInReach p.now q.now shape.now.bounds }
    ensures event { result.event ≡ event }
    ensures gap { IsGap p.now q.now shape.now result.gap }
    ensures sides { AreFirstSides p.now q.now shape.now result.gap }
    ensures small { IsSmall result.gap }
{
    Nearest {
        event,
        gap: gap_of(p, q, shape),
    }
}

/// Where the arm of a task starts, if it has one.
fn start_of(core: &Core, task: u32) -> Option<Joints>
    ensures { result ≡ option_and_then (λ row. row.arm) (slice_get core.now.cell.tasks task) }
{
    core.cell().tasks().as_slice().get(task as usize)?.arm
}

/// The setpoint that event `k` gives to the arm of a task, if it gives it one.
fn given_to(core: &Core, task: u32, k: u32) -> Option<Joints>
    requires { k < length core.now.history }
    ensures { (e : Event) → slice_get core.now.history k ≡ Some e → result ≡ given_by task e }
{
    let (actor, to) = core.given(k)?;
    if actor == task { Some(to) } else { None }
}

/// The nearer one of two, the first one if they are as near.
fn nearer(nearest: Option<Nearest>, new: Nearest) -> Nearest
    requires old { IfSome nearest (λ old. IsSmall old.gap) }
    requires new { IsSmall new.gap }
    ensures { result ≡ nearer_of nearest new }
{
    match nearest {
        Some(old) if !is_nearer(&new.gap, &old.gap) => old,
        _ => new,
    }
}

/// Whether a gap is less than another one.
fn is_nearer(one: &Gap, two: &Gap) -> bool
    requires one { IsSmall one.now }
    requires two { IsSmall two.now }
    ensures { result ≡ is_nearer one.now two.now }
{
    one.top * two.bottom < two.top * one.bottom
}
