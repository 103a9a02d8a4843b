//! A cell of one task, three signals and six persistents.

ghost use Rattle.std.specs.Prelude.{◌≡◌, ◌≤◌, [], ◌∷◌, length, map, IfOk, IsTrue};
ghost use Rattle.std.specs.List.{list_all};
ghost use Rattle.rapid_model.specs.CellData.{is_pers_cell};
ghost use Rattle.rapid_model.specs.Limits.{holds_where_there, is_within};
ghost use Rattle.rapid_model.specs.Sorts.{is_value_of, width};
ghost use Rattle.board_tests.specs.Rows.{row_sorts};

use crate::written::{four, six, text};
use rapid_model::{Cell, NameText, PersCell, Sequence, SignalRow, Sort, TaskRow, Value};
use rapid_num::{Joints, Num};
use std::alloc::Global;
use std::test::Fail;

/// Signals 0 to 2 start at 0, 1, 0. Persistents 0 to 5: num 1.5; bool{3} FALSE, TRUE, FALSE; jointtarget with axes 1 to
/// 12 at 1 to 12 degrees; tasks{2} "T_A", "T_B"; speeddata 100, 200, 300, 400; extjoint 1 to 6.
pub(crate) fn board_cell(alloc: Global) -> Result<Cell, Fail>
    ensures signals { IfOk result (λ cell. length cell.signals ≡ 3) }
    ensures sorts { IfOk result (λ cell. map (λ row. row.sort) cell.pers ≡ row_sorts) }
{
    let arm = None;
    let tasks = vec![in alloc;
        TaskRow {
            name: name(b'A'),
            arm,
            axes: 0
        },
    ]?;
    let signals = vec![in alloc;
        signal(b'a', false),
        signal(b'b', true),
        signal(b'c', false),
    ]?;
    let pers = persistents(alloc)?;
    Ok(Cell {
        steps: 1,
        tasks: Sequence::from_vec(tasks),
        signals: Sequence::from_vec(signals),
        pers: Sequence::from_vec(pers),
        meetings: Sequence::from_vec(Vec::new(alloc)),
        zones: Sequence::from_vec(Vec::new(alloc)),
        inputs: Sequence::from_vec(Vec::new(alloc)),
    })
}

/// The name that is this letter alone, in upper or lower case.
pub(crate) fn name(letter: u8) -> NameText
    requires low { 65 ≤ letter }
    requires high { letter ≤ 122 }
    ensures { result ≡ letter ∷ [] }
{
    let mut name = NameText::new();
    name.push(letter);
    name
}

/// An output with this initial value.
pub(crate) fn signal(letter: u8, start: bool) -> SignalRow
    requires low { 65 ≤ letter }
    requires high { letter ≤ 122 }
    ensures { result.name ≡ letter ∷ [] }
{
    SignalRow {
        name: name(letter),
        output: true,
        start,
    }
}

fn persistents(alloc: Global) -> Result<Vec<PersCell>, Fail>
    ensures sorts { IfOk result (λ rows. map (λ row. row.sort) rows.items ≡ row_sorts) }
    ensures fit { IfOk result (λ rows. IsTrue (list_all (is_pers_cell 1) rows.items)) }
{
    let number = Num::new(1_500).ok_or("1.5 is a num")?;
    let speeds = four([100_000, 200_000, 300_000, 400_000]).ok_or("the speeds are nums")?;
    let axes = six([1_000, 2_000, 3_000, 4_000, 5_000, 6_000]).ok_or("the axes are nums")?;
    let target = twelve().ok_or("the axes are nums")?;
    let bools = vec![in alloc; Value::Bool(false), Value::Bool(true), Value::Bool(false)]?;
    let names = vec![in alloc; Value::Text(text(b"T_A")), Value::Text(text(b"T_B"))]?;
    Ok(vec![in alloc;
        persistent(Sort::Num, None, vec![in alloc; Value::Num(number)]?),
        persistent(Sort::Bool, Some(3), bools),
        persistent(
            Sort::JointTarget,
            None,
            vec![in alloc; Value::Target(target)]?
        ),
        persistent(Sort::Tasks, Some(2), names),
        persistent(Sort::SpeedData, None, vec![in alloc; Value::Speed(speeds)]?),
        persistent(Sort::ExtJoint, None, vec![in alloc; Value::Ext(axes)]?),
    ]?)
}

/// A persistent with this type and length, and its first values.
fn persistent(sort: Sort, len: Option<u16>, first: Vec<Value>) -> PersCell
    requires within { IsTrue (holds_where_there (is_within 1 1_000) len) }
    requires count { length first.items ≡ width len }
    requires sorts { IsTrue (list_all (is_value_of sort) first.items) }
    ensures sort { result.sort ≡ sort }
    ensures fits { IsTrue (is_pers_cell 1 result) }
{
    PersCell {
        name: name(b'p'),
        owner: None,
        sort,
        len,
        first: Sequence::from_vec(first),
    }
}

/// Axes 1 to 12, each at as many degrees as its number.
fn twelve() -> Option<Joints> {
    let [a, b, c, d, e, f] = six([1_000, 2_000, 3_000, 4_000, 5_000, 6_000])?;
    let [g, h, i, j, k, l] = six([7_000, 8_000, 9_000, 10_000, 11_000, 12_000])?;
    Some(Joints {
        axis: [a, b, c, d, e, f, g, h, i, j, k, l],
    })
}
