//! Persistents that are read, put, and tested and set.

use crate::kept::Kept;
use crate::written::Written;
use crate::written::Written::{Bool, Ext, Num, Rob, Speed, Text};
use PartName::{Axis, Extax, Robax, SpeedPart, Taskname, Whole};
use persist_store::IndexRange;
use rapid_model::{PartName, Path, Value};
use std::test::Fail;

/// A persistent, an element and a part, with the value that is read; `None` if there is no such element.
type Row = (u32, u16, PartName, Option<Written>);

/// Axes 1 to 6 of persistent 2.
const ROBAX: Written = Rob([1_000, 2_000, 3_000, 4_000, 5_000, 6_000]);

static FIRST: [Row; 19] = [
    (0, 0, Whole, Some(Num(1_500))),
    (0, 1, Whole, None),
    (1, 0, Whole, None),
    (1, 1, Whole, Some(Bool(false))),
    (1, 2, Whole, Some(Bool(true))),
    (1, 3, Whole, Some(Bool(false))),
    (1, 4, Whole, None),
    (1, 65_535, Whole, None),
    (2, 0, Robax, Some(ROBAX)),
    (
        2,
        0,
        Extax,
        Some(Ext([7_000, 8_000, 9_000, 10_000, 11_000, 12_000])),
    ),
    (2, 0, Axis(0), Some(Num(1_000))),
    (2, 0, Axis(5), Some(Num(6_000))),
    (2, 0, Axis(6), Some(Num(7_000))),
    (2, 0, Axis(11), Some(Num(12_000))),
    (3, 1, Taskname, Some(Text(b"T_A"))),
    (3, 2, Whole, Some(Text(b"T_B"))),
    (
        4,
        0,
        Whole,
        Some(Speed([100_000, 200_000, 300_000, 400_000])),
    ),
    (5, 0, Axis(6), Some(Num(1_000))),
    (5, 0, Axis(11), Some(Num(6_000))),
];

/// After TRUE is put as the third bool, -7.5 as axis 7 of persistent 2, and 9 as the last speed.
static AFTER_PUTS: [Row; 11] = [
    (0, 0, Whole, Some(Num(1_500))),
    (1, 1, Whole, Some(Bool(false))),
    (1, 2, Whole, Some(Bool(true))),
    (1, 3, Whole, Some(Bool(true))),
    (2, 0, Robax, Some(ROBAX)),
    (
        2,
        0,
        Extax,
        Some(Ext([-7_500, 8_000, 9_000, 10_000, 11_000, 12_000])),
    ),
    (3, 1, Taskname, Some(Text(b"T_A"))),
    (3, 2, Whole, Some(Text(b"T_B"))),
    (4, 0, Whole, Some(Speed([100_000, 200_000, 300_000, 9_000]))),
    (5, 0, Axis(6), Some(Num(1_000))),
    (5, 0, Axis(11), Some(Num(6_000))),
];

/// After the first bool, which was FALSE, and the second, which was TRUE, are tested and set.
static AFTER_SETS: [Row; 5] = [
    (0, 0, Whole, Some(Num(1_500))),
    (1, 1, Whole, Some(Bool(true))),
    (1, 2, Whole, Some(Bool(true))),
    (1, 3, Whole, Some(Bool(false))),
    (2, 0, Robax, Some(ROBAX)),
];

fn all_read(kept: &Kept, rows: &[Row]) -> bool {
    rows.iter().all(|row| reads(kept, *row))
}

fn reads(kept: &Kept, row: Row) -> bool {
    let (pers, index, part, wanted) = row;
    kept.reads(pers, &Path { index, part }, wanted)
}

#[test]
fn first_values(rt: HostRuntime) -> Result<(), Fail> {
    let kept = Kept::new(rt.alloc())?;
    assert!(rt; all_read(&kept, &FIRST));
    Ok(())
}

#[test]
fn values_that_are_put(rt: HostRuntime) -> Result<(), Fail> {
    let mut kept = Kept::new(rt.alloc())?;
    let angle = rapid_num::Num::new(-7_500).ok_or("-7.5 is a num")?;
    let speed = rapid_num::Num::new(9_000).ok_or("9 is a num")?;
    let third = Path {
        index: 3,
        part: Whole,
    };
    let seventh = Path {
        index: 0,
        part: Axis(6),
    };
    let last = Path {
        index: 0,
        part: SpeedPart(3),
    };
    assert!(rt; kept.puts(1, &third, Value::Bool(true)));
    assert!(rt; kept.puts(2, &seventh, Value::Num(angle)));
    assert!(rt; kept.puts(4, &last, Value::Num(speed)));
    assert!(rt; all_read(&kept, &AFTER_PUTS));
    Ok(())
}

#[test]
fn bools_that_are_tested_and_set(rt: HostRuntime) -> Result<(), Fail> {
    let mut kept = Kept::new(rt.alloc())?;
    assert_eq!(rt; kept.tests_and_sets(1), Ok(true));
    assert_eq!(rt; kept.tests_and_sets(1), Ok(false));
    assert_eq!(rt; kept.tests_and_sets(2), Ok(false));
    assert_eq!(rt; kept.tests_and_sets(0), Err(IndexRange));
    assert_eq!(rt; kept.tests_and_sets(4), Err(IndexRange));
    assert!(rt; all_read(&kept, &AFTER_SETS));
    Ok(())
}
