ghost use Rattle.std.specs.Prelude.{◌≡◌, ◌<◌, ◌↔◌, None, Some, replicate, slice_index_or, IfOk, IfSome, IsOk, IsTrue, OnOk, OnErr};
ghost use Rattle.std.specs.List.{list_any};
ghost use Rattle.world_zones.specs.Zones.{given, is_temporary, own_shape, set_answer, switched, with_zone, zone_at};
ghost use Rattle.world_zones.specs.First.{IsFirstIndex, Stops};
ghost use Rattle.world_zones.specs.Outputs.{output_at, ties, unless_tied};

use crate::no_zone::NoZone;
use crate::own_zone::{OwnZone, free_index, output_of, own_shape, ties, zone_at};
use crate::stopping::stops;
use crate::tie_fault::TieFault;
use crate::zone_fault::ZoneFault;
use rapid_limits::MOST_ZONES;
use rapid_num::{Joints, Shape};
use std::marker::Model;

/// The zones of one arm. Contracts see its ten entries, index n - 1 for number n.
#[derive(Debug, Drop)]
pub(crate) struct ArmZones {
    zones: [Option<OwnZone>; MOST_ZONES],
}

impl Model for ArmZones {
    ghost use Rattle.std.specs.Prelude.{◌≡◌, length, List, Option};
    ghost use Rattle.world_zones.specs.declared.own_zone.OwnZone.{OwnZone};
    ghost use Rattle.rapid_limits.specs.declared.TheConstants.{MOST_ZONES};

    ghost Value = { List (Option OwnZone) };

    ghost view = { λ a. a.zones };

    ghost invariant = { λ a. length a.zones ≡ MOST_ZONES };
}

impl ArmZones {
    /// The arm has no zone.
    pub(crate) fn new() -> ArmZones
        ensures { result ≡ replicate MOST_ZONES None }
    {
        ArmZones {
            zones: [None; MOST_ZONES],
        }
    }

    /// Gives the arm a zone that is on and stops it.
    pub(crate) fn set(&mut self, old: u8, temporary: bool, shape: &Shape) -> Result<u8, ZoneFault>
        ensures answer { result ≡ set_answer self.old old }
        ensures ok { IfOk result (λ number. self.new ≡ with_zone self.old number (given temporary shape.now)) }
        ensures err { OnErr result (self.new ≡ self.old) }
    {
        if zone_at(&self.zones, old).is_some() {
            return Err(ZoneFault::ZoneUsed);
        }
        match free_index(&self.zones[..]) {
            Some(index) => {
                self.zones[index] = Some(OwnZone {
                    temporary,
                    on: true,
                    shape: *shape,
                    output: None,
                });
                Ok(index as u8 + 1)
            }
            None => Err(ZoneFault::ZoneFull),
        }
    }

    /// Gives the arm this zone, unless its output is tied.
    pub(crate) fn tie(&mut self, old: u8, tied: bool, zone: OwnZone) -> Result<u8, TieFault>
        ensures answer { result ≡ unless_tied tied (set_answer self.old old) }
        ensures ok { IfOk result (λ number. self.new ≡ with_zone self.old number (Some zone)) }
        ensures err { OnErr result (self.new ≡ self.old) }
    {
        if zone_at(&self.zones, old).is_some() {
            return Err(TieFault::ZoneUsed);
        }
        let Some(index) = free_index(&self.zones[..]) else {
            return Err(TieFault::ZoneFull);
        };
        if tied {
            return Err(TieFault::Tied);
        }
        self.zones[index] = Some(zone);
        Ok(index as u8 + 1)
    }

    /// Whether a zone of the arm names the signal as its output.
    pub(crate) fn ties(&self, signal: u32) -> bool
        ensures { result ≡ list_any (ties signal) self.now }
    {
        self.zones.iter().any(|zone| ties(zone, signal))
    }

    /// The signal that the zone with this number sets while the arm is at a position, and the value that it gets.
    pub(crate) fn output(&self, number: u8, at: &Joints) -> Option<(u32, bool)>
        ensures { result ≡ output_at at.now (zone_at self.now number) }
    {
        output_of(&self.zones, number, at)
    }

    /// Switches a temporary zone on or off.
    pub(crate) fn switch(&mut self, number: u8, on: bool) -> Result<(), NoZone>
        ensures temporary { IsOk result ↔ IsTrue (is_temporary (zone_at self.old number)) }
        ensures ok { OnOk result (self.new ≡ with_zone self.old number (switched on (zone_at self.old number))) }
        ensures err { OnErr result (self.new ≡ self.old) }
    {
        match zone_at(&self.zones, number) {
            Some(zone) if zone.temporary => {
                self.zones[number as usize - 1] = Some(OwnZone { on, ..zone });
                Ok(())
            }
            _ => Err(NoZone),
        }
    }

    /// Removes a temporary zone from the arm.
    pub(crate) fn free(&mut self, number: u8) -> Result<(), NoZone>
        ensures temporary { IsOk result ↔ IsTrue (is_temporary (zone_at self.old number)) }
        ensures ok { OnOk result (self.new ≡ with_zone self.old number None) }
        ensures err { OnErr result (self.new ≡ self.old) }
    {
        match zone_at(&self.zones, number) {
            Some(zone) if zone.temporary => {
                self.zones[number as usize - 1] = None;
                Ok(())
            }
            _ => Err(NoZone),
        }
    }

    /// The index of the first zone that stops the segment.
    pub(crate) fn first_touched(&self, p: &Joints, q: &Joints) -> Option<usize>
        ensures there { IfSome result (λ index. index < MOST_ZONES) }
        ensures first { IsFirstIndex (λ index. Stops p.now q.now (own_shape (slice_index_or self.now index None))) result }
    {
        for index in 0..MOST_ZONES {
            if stops(own_shape(&self.zones[index]), p, q) {
                return Some(index);
            }
        }
        None
    }
}
