//! Zones that watch arms and zones that set outputs, step by step.

use crate::two_arms::TwoArms;
use crate::zone_step::ZoneStep;
use crate::zone_step::ZoneStep::{Disable, Enable, Free, Go, Output, Set, Signal, Tie, Tied};
use rapid_model::ZoneName::{Cell, Own};
use std::test::Fail;
use world_zones::ZoneFault::{ZoneFull, ZoneUsed};
use world_zones::{NoZone, TieFault};

/// The tasks.
const A: u32 = 0;

const B: u32 = 1;

/// There is no temporary zone with the number.
const NONE: Result<(), NoZone> = Err(NoZone);

const DONE: Result<(), NoZone> = Ok(());

static NUMBERS: [ZoneStep; 9] = [
    Set(0, true, (10, 20), Ok(1)),
    // The same zone once more.
    Set(0, true, (10, 20), Ok(2)),
    Set(1, true, (10, 20), Err(ZoneUsed)),
    Set(0, false, (60, 70), Ok(3)),
    Free(1, DONE),
    Set(1, true, (10, 20), Ok(1)),
    // A disabled zone is still a zone of the arm.
    Disable(2, DONE),
    Set(2, true, (10, 20), Err(ZoneUsed)),
    Set(0, true, (10, 20), Ok(4)),
];

static NO_ZONES: [ZoneStep; 15] = [
    // A stationary zone.
    Set(0, false, (10, 20), Ok(1)),
    Disable(1, NONE),
    Enable(1, NONE),
    Free(1, NONE),
    // A freed one.
    Set(0, true, (10, 20), Ok(2)),
    Free(2, DONE),
    Disable(2, NONE),
    Enable(2, NONE),
    Free(2, NONE),
    // No zone with the number.
    Disable(0, NONE),
    Enable(3, NONE),
    Free(10, NONE),
    Disable(11, NONE),
    Enable(64, NONE),
    Free(255, NONE),
];

/// After ten zones.
static FULL: [ZoneStep; 8] = [
    Tie(A, 0, (10, 20), 0, Err(TieFault::ZoneFull)),
    Set(0, true, (10, 20), Err(ZoneFull)),
    Set(10, true, (10, 20), Err(ZoneUsed)),
    Set(11, true, (10, 20), Err(ZoneFull)),
    Free(3, DONE),
    Set(11, true, (10, 20), Ok(3)),
    Set(3, true, (10, 20), Err(ZoneUsed)),
    Set(0, true, (10, 20), Err(ZoneFull)),
];

static OWN: [ZoneStep; 22] = [
    Go(A, (0, 30), None),
    Set(0, true, (20, 25), Ok(1)),
    Set(0, false, (10, 15), Ok(2)),
    // Zone 2 comes first along the way.
    Go(A, (0, 30), Some(Own(1))),
    Go(A, (0, 12), Some(Own(2))),
    Go(A, (0, 10), Some(Own(2))),
    Go(A, (0, 9), None),
    Go(A, (16, 19), None),
    // Moves of length zero.
    Go(A, (22, 22), Some(Own(1))),
    Go(A, (25, 25), Some(Own(1))),
    Go(A, (18, 18), None),
    // The arm of another task.
    Go(B, (0, 29), None),
    Disable(1, DONE),
    Go(A, (0, 30), Some(Own(2))),
    Go(A, (20, 25), None),
    Disable(1, DONE),
    Enable(1, DONE),
    Enable(1, DONE),
    Go(A, (20, 25), Some(Own(1))),
    Free(1, DONE),
    Go(A, (20, 25), None),
    Go(A, (30, 0), Some(Own(2))),
];

static OUTPUTS: [ZoneStep; 27] = [
    Tied(1, false),
    Tie(A, 0, (10, 20), 1, Ok(1)),
    Tied(1, true),
    Tied(0, false),
    Output(1, 15, Some((1, true))),
    Output(1, 10, Some((1, true))),
    Output(1, 20, Some((1, true))),
    Output(1, 9, Some((1, false))),
    // It does not stop the arm.
    Go(A, (0, 25), None),
    // Another zone for its signal, of either arm.
    Tie(A, 0, (60, 70), 1, Err(TieFault::Tied)),
    Tie(B, 0, (60, 70), 1, Err(TieFault::Tied)),
    Tie(A, 1, (60, 70), 1, Err(TieFault::ZoneUsed)),
    Set(1, true, (60, 70), Err(ZoneUsed)),
    // While it is disabled.
    Disable(1, DONE),
    Output(1, 15, None),
    Tied(1, true),
    Enable(1, DONE),
    Output(1, 15, Some((1, true))),
    // A zone that stops the arm, and none.
    Set(0, true, (60, 70), Ok(2)),
    Output(2, 65, None),
    Output(0, 15, None),
    Output(11, 15, None),
    Free(1, DONE),
    Tied(1, false),
    Output(1, 15, None),
    Tie(B, 0, (10, 20), 1, Ok(1)),
    Tied(1, true),
];

static OF_THE_CELL: [ZoneStep; 12] = [
    // Signal 0 is 0.
    Go(A, (26, 34), None),
    Go(A, (26, 36), Some(Cell(1))),
    Go(B, (26, 34), Some(Cell(2))),
    Signal(true),
    Go(A, (26, 34), Some(Cell(0))),
    // Zone 1 comes first along the way.
    Go(A, (50, 26), Some(Cell(0))),
    Go(A, (41, 60), Some(Cell(1))),
    Go(B, (26, 60), None),
    Set(0, false, (46, 48), Ok(1)),
    Go(A, (26, 60), Some(Own(1))),
    Signal(false),
    Go(A, (26, 34), None),
];

/// How many steps have their expected results, before the first that does not.
fn steps_done(arms: &mut TwoArms, steps: &[ZoneStep]) -> usize {
    for (index, step) in steps.iter().enumerate() {
        if !arms.does(*step) {
            return index;
        }
    }
    steps.len()
}

#[test]
fn zones_by_number(rt: HostRuntime) -> Result<(), Fail> {
    for steps in [&NUMBERS[..], &NO_ZONES[..]] {
        let mut arms = TwoArms::new(rt.alloc())?;
        assert_eq!(rt; steps_done(&mut arms, steps), steps.len());
    }
    Ok(())
}

#[test]
fn ten_zones(rt: HostRuntime) -> Result<(), Fail> {
    let mut arms = TwoArms::new(rt.alloc())?;
    for number in 1..=10 {
        assert_eq!(rt; arms.set(0, true, (10, 20)), Ok(number));
    }
    assert_eq!(rt; steps_done(&mut arms, &FULL), FULL.len());
    Ok(())
}

#[test]
fn zones_that_stop_or_set(rt: HostRuntime) -> Result<(), Fail> {
    for steps in [&OWN[..], &OUTPUTS[..], &OF_THE_CELL[..]] {
        let mut arms = TwoArms::new(rt.alloc())?;
        assert_eq!(rt; steps_done(&mut arms, steps), steps.len());
    }
    Ok(())
}
