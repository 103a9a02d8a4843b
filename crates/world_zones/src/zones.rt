ghost use Rattle.std.specs.Prelude.{◌≡◌, ◌<◌, ◌≤◌, ◌↔◌, true, false, None, All, length, map, replicate, slice_get, IfOk, IsOk, IsTrue, IfSome, IfNone, OnOk, OnErr};
ghost use Rattle.rapid_model.specs.declared.zone_name.ZoneName.{ZoneName as TheZoneName};
ghost use Rattle.world_zones.specs.First.{IsFirstIndex, Stops};
ghost use Rattle.world_zones.specs.Outputs.{is_tied, output_at, tie_answer, tying};
ghost use Rattle.world_zones.specs.Touched.{IsFirstTouched, IsTouched};
ghost use Rattle.world_zones.specs.Zones.{arm_at, before_all, given, is_temporary, no_zones, set_answer, shape_of_cell, switched, with_arm, with_zone, zone_at, zone_of};

use crate::arm_zones::ArmZones;
use crate::cell_zone::{CellZone, cell_shape};
use crate::no_zone::NoZone;
use crate::output::Output;
use crate::own_zone::OwnZone;
use crate::stopping::stops;
use crate::tie_fault::TieFault;
use crate::zone_fault::ZoneFault;
use rapid_limits::MOST_CELL_ZONES;
use rapid_model::{Cell, SignalValues, ZoneName, ZoneRow};
use rapid_num::{Joints, Memory, Shape};
use std::alloc::{AllocError, Global};
use std::marker::Model;

/// The zones of a cell. Contracts see those of each task's arm, ten entries a task, and those of the cell in script
/// order. A zone of an arm either stops it or sets an output. A call changes only the zones of its own task's arm. Only
/// `new` allocates (RAPID Instructions: WZLimSup, WZDOSet, WZDisable, WZEnable, WZFree).
#[derive(Debug, Drop)]
pub struct Zones {
    arms: Vec<ArmZones>,
    cell: Vec<CellZone>,
}

impl Model for Zones {
    ghost use Rattle.std.specs.Prelude.{◌≤◌, length};
    ghost use Rattle.world_zones.specs.Zones.{ZonesData};
    ghost use Rattle.rapid_limits.specs.declared.TheConstants.{MOST_CELL_ZONES};

    ghost Value = { ZonesData };

    ghost view = { λ z. record { arms = z.arms.items; cell = z.cell.items } };

    // A zone of the cell is named by a u8.
    ghost invariant = { λ z. length z.cell.items ≤ MOST_CELL_ZONES };
}

impl Zones {
    /// No arm has a zone yet; the cell has its own. Fails only if an allocation fails.
    pub fn new(alloc: Global, cell: &Cell) -> Result<Zones, Memory>
        ensures { IfOk result (λ z. z ≡ before_all cell.now) }
    {
        match starts(alloc, cell) {
            Ok(zones) => Ok(zones),
            Err(_) => Err(Memory),
        }
    }

    /// Gives the task's arm a zone that is on and stops it, with the least free number, 1 to 10: `ZoneUsed` exactly if
    /// the old number is a zone of the arm, otherwise `ZoneFull` exactly if the arm has ten.
    pub fn set(
        &mut self,
        task: u32,
        old: u8,
        temporary: bool,
        shape: &Shape,
    ) -> Result<u8, ZoneFault>
        requires task { task < length self.old.arms }
        ensures answer { result ≡ set_answer (arm_at self.old task) old }
        ensures ok { IfOk result (λ number. self.new ≡ with_arm self.old task (with_zone (arm_at self.old task) number (given temporary shape.now))) }
        ensures err { OnErr result (self.new ≡ self.old) }
    {
        self.arms[task as usize].set(old, temporary, shape)
    }

    /// Gives the task's arm a zone that is on and sets a signal: to `value` while the arm is in the zone, otherwise to
    /// the other value. The number is the least free one, 1 to 10: `ZoneUsed` exactly if the old number is a zone of
    /// the arm, otherwise `ZoneFull` exactly if the arm has ten, otherwise `Tied` exactly if a zone of some arm already
    /// sets the signal.
    pub fn tie(
        &mut self,
        task: u32,
        old: u8,
        temporary: bool,
        shape: &Shape,
        signal: u32,
        value: bool,
    ) -> Result<u8, TieFault>
        requires task { task < length self.old.arms }
        ensures answer { result ≡ tie_answer self.old task old signal }
        ensures ok { IfOk result (λ number. self.new ≡ with_arm self.old task (with_zone (arm_at self.old task) number (tying temporary shape.now (record { signal = signal; value = value })))) }
        ensures err { OnErr result (self.new ≡ self.old) }
    {
        let tied = self.tied(signal);
        let zone = OwnZone {
            temporary,
            on: true,
            shape: *shape,
            output: Some(Output { signal, value }),
        };
        self.arms[task as usize].tie(old, tied, zone)
    }

    /// Whether a zone of some arm sets the signal. It does so until it is freed, whether it is on or off.
    pub fn tied(&self, signal: u32) -> bool
        ensures { result ≡ is_tied self.now signal }
    {
        self.arms.iter().any(|arm| arm.ties(signal))
    }

    /// The signal that a zone of the task's arm sets while the arm is at a position, and the value that it gets. None
    /// exactly if the arm has no zone with that number that is on and sets a signal.
    pub fn output(&self, task: u32, zone: u8, at: &Joints) -> Option<(u32, bool)>
        requires task { task < length self.now.arms }
        ensures { result ≡ output_at at.now (zone_at (arm_at self.now task) zone) }
    {
        self.arms[task as usize].output(zone, at)
    }

    /// Switches a temporary zone off: `NoZone` exactly if the arm has no temporary zone with that number.
    pub fn disable(&mut self, task: u32, zone: u8) -> Result<(), NoZone>
        requires task { task < length self.old.arms }
        ensures temporary { IsOk result ↔ IsTrue (is_temporary (zone_at (arm_at self.old task) zone)) }
        ensures ok { OnOk result (self.new ≡ with_arm self.old task (with_zone (arm_at self.old task) zone (switched false (zone_at (arm_at self.old task) zone)))) }
        ensures err { OnErr result (self.new ≡ self.old) }
    {
        self.arms[task as usize].switch(zone, false)
    }

    /// Switches a temporary zone on: `NoZone` exactly if the arm has no temporary zone with that number.
    pub fn enable(&mut self, task: u32, zone: u8) -> Result<(), NoZone>
        requires task { task < length self.old.arms }
        ensures temporary { IsOk result ↔ IsTrue (is_temporary (zone_at (arm_at self.old task) zone)) }
        ensures ok { OnOk result (self.new ≡ with_arm self.old task (with_zone (arm_at self.old task) zone (switched true (zone_at (arm_at self.old task) zone)))) }
        ensures err { OnErr result (self.new ≡ self.old) }
    {
        self.arms[task as usize].switch(zone, true)
    }

    /// Removes a temporary zone from the arm and frees its number: `NoZone` exactly if the arm has no temporary zone
    /// with that number.
    pub fn free(&mut self, task: u32, zone: u8) -> Result<(), NoZone>
        requires task { task < length self.old.arms }
        ensures temporary { IsOk result ↔ IsTrue (is_temporary (zone_at (arm_at self.old task) zone)) }
        ensures ok { OnOk result (self.new ≡ with_arm self.old task (with_zone (arm_at self.old task) zone None)) }
        ensures err { OnErr result (self.new ≡ self.old) }
    {
        self.arms[task as usize].free(zone)
    }

    /// The first zone that watches the task's arm and that it touches on the way from `p` to `q`: its own zones that
    /// are on, by number, and then the cell's whose signal has its value, in script order. Each signal that a zone of
    /// the cell names exists.
    pub fn blocks<V: SignalValues>(
        &self,
        task: u32,
        p: &Joints,
        q: &Joints,
        signals: &V,
    ) -> Option<ZoneName>
        requires task { task < length self.now.arms }
        requires signals { All (λ zone. zone.signal < length (V.values signals.now)) self.now.cell }
        ensures some { IfSome result (IsFirstTouched self.now task (V.values signals.now) p.now q.now) }
        ensures none { IfNone result ((zone : TheZoneName) → ¬ IsTouched self.now task (V.values signals.now) p.now q.now zone) }
    {
        match self.arms[task as usize].first_touched(p, q) {
            Some(index) => Some(ZoneName::Own(index as u8 + 1)),
            None => match first_of_cell(self.cell.as_slice(), task, p, q, signals) {
                Some(index) => Some(ZoneName::Cell(index as u8)),
                None => None,
            },
        }
    }
}

/// The first zone of the cell that stops the task's arm.
fn first_of_cell<V: SignalValues>(
    cell: &[CellZone],
    task: u32,
    p: &Joints,
    q: &Joints,
    signals: &V,
) -> Option<usize>
    requires signals { All (λ zone. zone.signal < length (V.values signals.now)) cell.now }
    ensures there { IfSome result (λ index. index < length cell.now) }
    ensures first { IsFirstIndex (λ index. Stops p.now q.now (shape_of_cell task (V.values signals.now) (slice_get cell.now index))) result }
{
    for index in 0..cell.len() {
        if stops(cell_shape(&cell[index], task, signals), p, q) {
            return Some(index);
        }
    }
    None
}

/// No arm has a zone.
fn starts(alloc: Global, cell: &Cell) -> Result<Zones, AllocError>
    ensures { IfOk result (λ z. z ≡ before_all cell.now) }
{
    let arms = arms(alloc, cell.tasks.len())?;
    let cell = of_cell(alloc, cell.zones.as_slice())?;
    Ok(Zones { arms, cell })
}

/// That many arms with no zone.
fn arms(alloc: Global, count: usize) -> Result<Vec<ArmZones>, AllocError>
    ensures { IfOk result (λ arms. arms.items ≡ replicate count no_zones) }
{
    let mut arms = Vec::new(alloc);
    for _arm in 0..count {
        arms.push(ArmZones::new())?;
    }
    Ok(arms)
}

/// The zones of the cell, in script order.
fn of_cell(alloc: Global, rows: &[ZoneRow]) -> Result<Vec<CellZone>, AllocError>
    ensures { IfOk result (λ cell. cell.items ≡ map zone_of rows.now) }
{
    rows.iter().map(|row| zone_of(row)).collect(alloc)
}

/// A zone of the cell, from its row.
fn zone_of(row: &ZoneRow) -> CellZone
    ensures { result ≡ zone_of row.now }
{
    CellZone {
        task: row.task,
        shape: row.shape,
        signal: row.signal,
        value: row.value,
    }
}
